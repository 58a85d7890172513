//! What has changed since an action began.
ghost use Rattle.std.specs.Prelude.{◌≡◌, ◌≤◌, ◌<◌, ◌+◌, ◌++◌, [], ◌∷◌, if◌then◌else◌, length};
ghost use Rattle.std.specs.Prelude.{vec_capacity, vec_len};
ghost use Rattle.mix_model.specs.declared.change.Change.TheVariants.{Active as ActiveNow};
ghost use Rattle.mix_model.specs.declared.change.Change.TheVariants.{Showing as ShowingNow};
ghost use Rattle.mix_model.specs.Sets.{agree};
ghost use Rattle.mix_model.specs.Marks.{was_active, was_showing, changes_by};
ghost use Rattle.mix_store.specs.Settling.{told_by, MarksRise};

use crate::kept::Stood;
use crate::settle::mark_near;
use crate::sources::Sources;
use mix_base::Serial;
use mix_model::{Change, Row};

/// Whether the row at this place was active when the action began.
fn was_active(marks: &[Stood], at: usize, serial: Serial) -> bool
    requires { MarksRise marks.now }
    ensures { result ≡ was_active marks.now serial }
{
    match mark_near(marks, at, serial) {
        Some(mark) => mark.active,
        None => false,
    }
}

/// Whether the row at this place was showing when the action began.
fn was_showing(marks: &[Stood], at: usize, serial: Serial) -> bool
    requires { MarksRise marks.now }
    ensures { result ≡ was_showing marks.now serial }
{
    match mark_near(marks, at, serial) {
        Some(mark) => mark.showing,
        None => false,
    }
}

/// Puts a change at the end, where there is one.
fn push_change(changes: &mut Vec<Change>, was: bool, now: bool, change: Change)
    requires room { vec_len changes.old < vec_capacity changes.old }
    ensures items { changes.new.items
        ≡ changes.old.items ++ (if agree was now then [] else change ∷ []) }
    ensures room { vec_capacity changes.new ≡ vec_capacity changes.old }
{
    if was != now {
        changes.push_reserved(change);
    }
}

/// Puts the changes of activity at the end, by the flags of activity.
fn push_active(rows: &[Row], marks: &[Stood], flags: &[bool], changes: &mut Vec<Change>)
    requires each { length flags.now ≡ length rows.now }
    requires rising { MarksRise marks.now }
    requires room { length changes.old.items + length rows.now ≤ vec_capacity changes.old }
    ensures items { changes.new.items
        ≡ changes.old.items ++ told_by ActiveNow (was_active marks.now) rows.now flags.now }
    ensures count { length changes.new.items ≤ length changes.old.items + length rows.now }
    ensures room { vec_capacity changes.new ≡ vec_capacity changes.old }
{
    for index in 0..rows.len() {
        let serial = rows[index].serial;
        let now = flags[index];
        let was = was_active(marks, index, serial);
        push_change(changes, was, now, Change::Active { serial, now });
    }
}

/// Puts the changes of showing at the end, by the flags of showing.
fn push_showing(rows: &[Row], marks: &[Stood], flags: &[bool], changes: &mut Vec<Change>)
    requires each { length flags.now ≡ length rows.now }
    requires rising { MarksRise marks.now }
    requires room { length changes.old.items + length rows.now ≤ vec_capacity changes.old }
    ensures items { changes.new.items
        ≡ changes.old.items ++ told_by ShowingNow (was_showing marks.now) rows.now flags.now }
    ensures room { vec_capacity changes.new ≡ vec_capacity changes.old }
{
    for index in 0..rows.len() {
        let serial = rows[index].serial;
        let now = flags[index];
        let was = was_showing(marks, index, serial);
        push_change(changes, was, now, Change::Showing { serial, now });
    }
}

/// Writes what has changed since the marks were taken. The flags are written on the way.
pub fn tell(
    sources: &Sources,
    marks: &[Stood],
    active: &mut [bool],
    showing: &mut [bool],
    changes: &mut Vec<Change>,
)
    requires active { length active.old ≡ length sources.now.rows }
    requires showing { length showing.old ≡ length sources.now.rows }
    requires rising { MarksRise marks.now }
    requires room { length sources.now.rows + length sources.now.rows ≤ vec_capacity changes.old }
    ensures items { changes.new.items ≡ changes_by marks.now sources.now sources.now.rows }
    ensures room { vec_capacity changes.new ≡ vec_capacity changes.old }
{
    sources.flag_active(active);
    sources.flag_showing(showing);
    changes.clear();
    push_active(sources.rows(), marks, active, changes);
    push_showing(sources.rows(), marks, showing, changes);
}
