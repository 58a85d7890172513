//! Where what a run left differs first from what its case wants.
ghost use Rattle.std.specs.Prelude.{◌≡◌, ◌↔◌, None, IfSome, take};

use crate::case::Case;
use crate::run::Left;

/// The line in which two texts differ first, counted from 1, and where it begins.
#[derive(Clone, Copy)]
pub struct Place {
    pub line: u64,
    pub start: usize,
}

/// What differs, the output before the record and this before the status.
#[derive(Clone, Copy)]
pub enum Difference {
    Output(Place),
    Record(Place),
    Status,
}

/// The line in which two texts differ first: all that stands before it is the same.
#[tactic(auto, using(std::proofs::lemmas::List::take_more_same))]
pub fn first_difference(wanted: &[u8], written: &[u8]) -> Option<Place>
    ensures same { result ≡ None ↔ wanted.now ≡ written.now }
    ensures front { IfSome result (λ place.
        take place.start wanted.now ≡ take place.start written.now) }
{
    if wanted == written {
        return None;
    }
    let mut line = 1u64;
    let mut start = 0;
    for at in 0..wanted.len().min(written.len()) {
        if wanted[at] != written[at] {
            break;
        }
        if wanted[at] == b'\n' {
            line = line.saturating_add(1);
            start = at + 1;
        }
    }
    Some(Place { line, start })
}

/// What differs first between what a case wants and what its run left.
pub fn first_to_differ(case: &Case, left: &Left) -> Option<Difference>
    ensures same { result ≡ None ↔ (case.now.output.items ≡ left.now.output.held)
        × (case.now.record.items ≡ left.now.record.held) × (case.now.status ≡ left.now.status) }
{
    if let Some(place) = first_difference(case.output.as_slice(), left.output.held()) {
        return Some(Difference::Output(place));
    }
    if let Some(place) = first_difference(case.record.as_slice(), left.record.held()) {
        return Some(Difference::Record(place));
    }
    if case.status != left.status {
        return Some(Difference::Status);
    }
    None
}
