//! The program's call without a network.
ghost use Rattle.std.specs.Prelude.{◌≡◌, ◌≢◌, ◌↔◌, ◌⊎◌, ◌≤◌, ◌<◌, false, true, IsTrue, [], Some, IfSome};
ghost use Rattle.mix_outside.specs.Faults.{Rose};
ghost use Rattle.mix_base.specs.Limits.{standard};
ghost use Rattle.mix_model.specs.Fitting.{IsFitting};
ghost use Rattle.mix_shape.specs.Refused.{are_limits};
ghost use Rattle.mix_engine.specs.Openings.{can_open};
ghost use Rattle.mix_collection.specs.Collections.{where_it};
ghost use Rattle.mix_program.specs.Opened.{collection_of};
ghost use Rattle.mix_program.specs.Ends.{Ends, Finishes, Stops, status_at, IsWhole, IsTorn, IsStatus};
ghost use Rattle.mix_program.specs.Run.{run_from};
ghost use Rattle.mix_program.specs.Words.{is_replay};

use crate::running::{Ended, Finished, refuse_collection, replay};
use mix_base::{Limits, Text};
use mix_collection::{CollectionFault, read_collection};
use mix_engine::{Engine, Setup};
use mix_model::Collection;
use mix_outside::{Sink, Source};
use std::alloc::Global;

/// The status that the program ends with.
#[derive(Clone, Copy)]
pub struct Status(pub u8);

/// Whether the words ask for a replay.
fn is_replay(words: &[Text]) -> bool
    ensures value { result ≡ is_replay words.now }
{
    words.len() == 4 && words[0].as_str() == "replay"
}

/// Runs a script with what a collection opens.
fn run_opened<S: Source, K: Sink>(
    alloc: Global,
    limits: Limits,
    collection: Collection,
    script: &mut S,
    out: &mut K,
) -> Ended
    requires limits { IsTrue (are_limits limits) }
    requires fits { IsFitting collection }
    ensures ends { S.Tells → K.Tells → Ends result (K.held out.old) (K.held out.new)
        (run_from limits (S.left script.old) (where_it can_open collection)) }
    ensures drained { S.Tells → result ≡ Ended.Whole Finished.Done → S.left script.new ≡ [] }
    ensures later { S.faults script.old ≤ S.faults script.new }
    ensures later_out { K.faults out.old ≤ K.faults out.new }
    ensures read { result ≡ Ended.ReadFault → Rose (S.faults script.old) (S.faults script.new) }
    ensures write { result ≡ Ended.WriteFault → Rose (K.faults out.old) (K.faults out.new) }
    ensures steady { result ≢ Ended.ReadFault → S.faults script.new ≡ S.faults script.old }
    ensures steady_out { result ≢ Ended.WriteFault → K.faults out.new ≡ K.faults out.old }
{
    match Engine::open(alloc, Setup { collection, limits }) {
        Ok(Some(engine)) => replay(alloc, engine, limits, script, out),
        Ok(None) => refuse_collection(out),
        Err(_) => Ended::NoMemory,
    }
}

/// Runs a script on a collection, within limits.
fn run_replay<C: Source, S: Source, K: Sink>(
    alloc: Global,
    limits: Limits,
    collection: &mut C,
    script: &mut S,
    out: &mut K,
) -> Ended
    requires limits { IsTrue (are_limits limits) }
    ensures ends { C.Tells → S.Tells → K.Tells → Ends result (K.held out.old) (K.held out.new)
        (run_from limits (S.left script.old) (collection_of (C.left collection.old))) }
    ensures drained { C.Tells → result ≡ Ended.Whole Finished.Done → C.left collection.new ≡ [] }
    ensures drained_script { S.Tells → result ≡ Ended.Whole Finished.Done →
        S.left script.new ≡ [] }
    ensures read { result ≡ Ended.ReadFault →
        Rose (C.faults collection.old) (C.faults collection.new)
        ⊎ Rose (S.faults script.old) (S.faults script.new) }
    ensures write { result ≡ Ended.WriteFault → Rose (K.faults out.old) (K.faults out.new) }
    ensures steady { result ≢ Ended.ReadFault →
        C.faults collection.new ≡ C.faults collection.old }
    ensures steady_script { result ≢ Ended.ReadFault → S.faults script.new ≡ S.faults script.old }
    ensures steady_out { result ≢ Ended.WriteFault → K.faults out.new ≡ K.faults out.old }
{
    match read_collection(alloc, collection) {
        Ok(read) => run_opened(alloc, limits, read, script, out),
        Err(CollectionFault::NotBuilt) => refuse_collection(out),
        Err(CollectionFault::Failed) => Ended::ReadFault,
        Err(CollectionFault::NoMemory) => Ended::NoMemory,
    }
}

fn status_of(ended: Ended) -> Status
    ensures value { result.0 ≡ status_at ended }
    ensures done { result.0 ≡ 0 → ended ≡ Ended.Whole Finished.Done }
    ensures no_read_fault { result.0 ≢ 5 → ended ≢ Ended.ReadFault }
    ensures no_write_fault { result.0 ≢ 6 → ended ≢ Ended.WriteFault }
{
    match ended {
        Ended::Whole(Finished::Done) => Status(0),
        Ended::Whole(Finished::Full) => Status(7),
        Ended::Whole(Finished::NotBuilt) => Status(9),
        Ended::ReadFault => Status(5),
        Ended::WriteFault => Status(6),
        Ended::NoMemory => Status(8),
    }
}

/// Does what the words say, with a history of these limits.
#[tactic(auto, using(crate::proofs::Statuses::all_is_done))]
pub(crate) fn run_within<C: Source, S: Source, K: Sink, R: Sink>(
    alloc: Global,
    limits: Limits,
    words: &[Text],
    collection: &mut C,
    script: &mut S,
    out: &mut K,
    tape: &mut R,
) -> Status
    requires limits { IsTrue (are_limits limits) }
    ensures words { result.0 ≡ 2 ↔ is_replay words.now ≡ false }
    ensures nothing { result.0 ≡ 2 → K.held out.new ≡ K.held out.old }
    ensures tape { R.held tape.new ≡ R.held tape.old }
    ensures whole { C.Tells → S.Tells → K.Tells → IsWhole result.0 →
        Finishes result.0 (K.held out.old) (K.held out.new)
        (run_from limits (S.left script.old) (collection_of (C.left collection.old))) }
    ensures front { C.Tells → S.Tells → K.Tells → IsTorn result.0 →
        Stops (K.held out.old) (K.held out.new)
        (run_from limits (S.left script.old) (collection_of (C.left collection.old))) }
    ensures drained { C.Tells → result.0 ≡ 0 → C.left collection.new ≡ [] }
    ensures drained_script { S.Tells → result.0 ≡ 0 → S.left script.new ≡ [] }
    ensures statuses { IsStatus result.0 }
    ensures read { result.0 ≡ 5 → Rose (C.faults collection.old) (C.faults collection.new)
        ⊎ Rose (S.faults script.old) (S.faults script.new) }
    ensures write { result.0 ≡ 6 → Rose (K.faults out.old) (K.faults out.new) }
    ensures clean_collection { result.0 ≢ 5 →
        C.faults collection.new ≡ C.faults collection.old }
    ensures clean_script { result.0 ≢ 5 → S.faults script.new ≡ S.faults script.old }
    ensures clean_out { result.0 ≢ 6 → K.faults out.new ≡ K.faults out.old }
    ensures clean_tape { R.faults tape.new ≡ R.faults tape.old }
    ensures complete { C.Tells → S.Tells → K.Tells → is_replay words.now ≡ true →
        ¬ Rose (C.faults collection.old) (C.faults collection.new) →
        ¬ Rose (S.faults script.old) (S.faults script.new) →
        ¬ Rose (K.faults out.old) (K.faults out.new) → result.0 ≢ 8 →
        Finishes result.0 (K.held out.old) (K.held out.new)
        (run_from limits (S.left script.old) (collection_of (C.left collection.old))) }
{
    if !is_replay(words) {
        return Status(2);
    }
    status_of(run_replay(alloc, limits, collection, script, out))
}

/// Does what the words say: `replay C S R` runs script S on collection C. A collection or a line
/// that isn't built ends it with 9, a script that a history has no room for with 7, other words
/// with 2, a failing source with 5, a failing sink with 6, and want of memory with 8.
pub fn run_offline<C: Source, S: Source, K: Sink, R: Sink>(
    alloc: Global,
    words: &[Text],
    collection: &mut C,
    script: &mut S,
    out: &mut K,
    tape: &mut R,
) -> Status
    // The words are wrong exactly on 2, and then nothing is written.
    ensures words { result.0 ≡ 2 ↔ is_replay words.now ≡ false }
    ensures nothing { result.0 ≡ 2 → K.held out.new ≡ K.held out.old }
    // Nothing is recorded yet.
    ensures tape { R.held tape.new ≡ R.held tape.old }
    // On 0, 7 and 9 all lines are written, and the status is the run's.
    ensures whole { C.Tells → S.Tells → K.Tells → IsWhole result.0 →
        Finishes result.0 (K.held out.old) (K.held out.new)
        (run_from standard (S.left script.old) (collection_of (C.left collection.old))) }
    // On 5, 6 and 8 a front of them is.
    ensures front { C.Tells → S.Tells → K.Tells → IsTorn result.0 →
        Stops (K.held out.old) (K.held out.new)
        (run_from standard (S.left script.old) (collection_of (C.left collection.old))) }
    // On 0 each source was read to its end, a collection past its program's line too.
    ensures drained { C.Tells → result.0 ≡ 0 → C.left collection.new ≡ [] }
    ensures drained_script { S.Tells → result.0 ≡ 0 → S.left script.new ≡ [] }
    ensures statuses { IsStatus result.0 }
    ensures read { result.0 ≡ 5 → Rose (C.faults collection.old) (C.faults collection.new)
        ⊎ Rose (S.faults script.old) (S.faults script.new) }
    ensures write { result.0 ≡ 6 → Rose (K.faults out.old) (K.faults out.new) }
    // No source failed on a status but 5, and no sink on one but 6: the counts of faults stay.
    ensures clean_collection { result.0 ≢ 5 →
        C.faults collection.new ≡ C.faults collection.old }
    ensures clean_script { result.0 ≢ 5 → S.faults script.new ≡ S.faults script.old }
    ensures clean_out { result.0 ≢ 6 → K.faults out.new ≡ K.faults out.old }
    ensures clean_tape { R.faults tape.new ≡ R.faults tape.old }
    // Where the words are right and nothing failed, all is done, but for want of memory.
    ensures complete { C.Tells → S.Tells → K.Tells → is_replay words.now ≡ true →
        ¬ Rose (C.faults collection.old) (C.faults collection.new) →
        ¬ Rose (S.faults script.old) (S.faults script.new) →
        ¬ Rose (K.faults out.old) (K.faults out.new) → result.0 ≢ 8 →
        Finishes result.0 (K.held out.old) (K.held out.new)
        (run_from standard (S.left script.old) (collection_of (C.left collection.old))) }
{
    run_within(
        alloc,
        Limits::standard(),
        words,
        collection,
        script,
        out,
        tape,
    )
}
