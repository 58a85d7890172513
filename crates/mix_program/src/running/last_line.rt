//! The last line of a run.
ghost use Rattle.std.specs.Prelude.{◌≡◌, ◌≢◌, ◌≤◌};
ghost use Rattle.mix_outside.specs.Faults.{Rose};
ghost use Rattle.mix_program.specs.Run.{ends_with, not_built, full, no_collection};
ghost use Rattle.mix_program.specs.Ends.{Ends, EndsAt, Finishing, status_of};

use crate::running::{Ended, Finished};
use mix_outside::{Met, Put, Sink};
use std::alloc::Global;

/// Writes a last text.
fn finish<K: Sink>(out: &mut K, text: &[u8], finished: Finished) -> Ended
    ensures ends { K.Tells → Ends result (K.held out.old) (K.held out.new)
        (ends_with text.now (status_of finished)) }
    ensures finished { Finishing finished result }
    ensures later { K.faults out.old ≤ K.faults out.new }
    ensures read { result ≢ Ended.ReadFault }
    ensures write { result ≡ Ended.WriteFault → Rose (K.faults out.old) (K.faults out.new) }
    ensures steady { result ≢ Ended.WriteFault → K.faults out.new ≡ K.faults out.old }
{
    match out.write(text) {
        Put::Done => Ended::Whole(finished),
        Put::Failed => Ended::WriteFault,
    }
}

/// Says that a line isn't built.
#[tactic(auto, unfolding(crate::specs::Run::not_built))]
pub fn refuse<K: Sink>(alloc: Global, out: &mut K, number: u64) -> Ended
    ensures ends { K.Tells → Ends result (K.held out.old) (K.held out.new) (not_built number) }
    ensures finished { Finishing Finished.NotBuilt result }
    ensures later { K.faults out.old ≤ K.faults out.new }
    ensures read { result ≢ Ended.ReadFault }
    ensures write { result ≡ Ended.WriteFault → Rose (K.faults out.old) (K.faults out.new) }
    ensures steady { result ≢ Ended.WriteFault → K.faults out.new ≡ K.faults out.old }
{
    match format!(in alloc; "not built: line {number}\n") {
        Ok(text) => finish(out, text.as_bytes(), Finished::NotBuilt),
        Err(_) => Ended::NoMemory,
    }
}

/// Says that the history is full.
#[tactic(auto, unfolding(crate::specs::Run::full))]
fn fill<K: Sink>(out: &mut K) -> Ended
    ensures ends { K.Tells → Ends result (K.held out.old) (K.held out.new) full }
    ensures finished { Finishing Finished.Full result }
    ensures later { K.faults out.old ≤ K.faults out.new }
    ensures read { result ≢ Ended.ReadFault }
    ensures write { result ≡ Ended.WriteFault → Rose (K.faults out.old) (K.faults out.new) }
    ensures steady { result ≢ Ended.WriteFault → K.faults out.new ≡ K.faults out.old }
{
    finish(out, b"history full\n", Finished::Full)
}

/// Ends a run where no whole line that fits was met.
pub fn end_at<K: Sink>(alloc: Global, met: Met, line: &[u8], number: u64, out: &mut K) -> Ended
    requires ended { met ≢ Met.Whole }
    ensures ends { K.Tells → EndsAt met line.now number result (K.held out.old) (K.held out.new) }
    ensures done { result ≡ Ended.Whole Finished.Done → met ≡ Met.Last }
    ensures later { K.faults out.old ≤ K.faults out.new }
    ensures read { result ≡ Ended.ReadFault → met ≡ Met.Failed }
    ensures failed { met ≡ Met.Failed → result ≡ Ended.ReadFault }
    ensures write { result ≡ Ended.WriteFault → Rose (K.faults out.old) (K.faults out.new) }
    ensures steady { result ≢ Ended.WriteFault → K.faults out.new ≡ K.faults out.old }
{
    match met {
        Met::Last if line.is_empty() => Ended::Whole(Finished::Done),
        Met::Last => refuse(alloc, out, number),
        Met::Past => fill(out),
        Met::Failed => Ended::ReadFault,
        Met::NoMemory => Ended::NoMemory,
        Met::Whole => unreachable!(),
    }
}

/// Says that the collection isn't built.
#[tactic(auto, unfolding(crate::specs::Run::no_collection))]
pub fn refuse_collection<K: Sink>(out: &mut K) -> Ended
    ensures ends { K.Tells → Ends result (K.held out.old) (K.held out.new) no_collection }
    ensures finished { Finishing Finished.NotBuilt result }
    ensures later { K.faults out.old ≤ K.faults out.new }
    ensures read { result ≢ Ended.ReadFault }
    ensures write { result ≡ Ended.WriteFault → Rose (K.faults out.old) (K.faults out.new) }
    ensures steady { result ≢ Ended.WriteFault → K.faults out.new ≡ K.faults out.old }
{
    finish(out, b"not built: collection\n", Finished::NotBuilt)
}
