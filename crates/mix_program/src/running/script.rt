//! A run over a script, line by line.
ghost use Rattle.std.specs.Prelude.{◌≡◌, ◌≢◌, ◌<◌, ◌≤◌, ◌+◌, ◌-◌, IsTrue, Ok, Err, length, nat_lt};
ghost use Rattle.std.specs.Prelude.{[], IfSome, if◌then◌else◌};
ghost use Rattle.mix_outside.specs.Lines.{lines_of};
ghost use Rattle.mix_outside.specs.Faults.{Rose};
ghost use Rattle.mix_script.specs.Lines.{action_of};
ghost use Rattle.mix_engine.specs.Engines.{line_bytes, text_bytes, has_room};
ghost use Rattle.mix_shape.specs.Refused.{are_limits};
ghost use Rattle.mix_program.specs.Ends.{Ends, Turned, Follows, Finishing, ended_by};
ghost use Rattle.mix_program.specs.Run.{run, turn, next_line, room_for};

use crate::running::answering::put_answer;
use crate::running::last_line::{end_at, refuse};
use crate::running::{Ended, Finished};
use mix_base::{Limits, PassNo};
use mix_engine::{ActFault, Engine};
use mix_model::Action;
use mix_outside::{Met, ReadAhead, Sink, Source};
use mix_script::{BadLine, WriteFault, lines_and_actions_stand_one_to_one, read_line};
use std::alloc::Global;

/// How a run goes on behind the lines of an answer.
fn ended_by(wrote: Result<(), WriteFault>) -> Option<Ended>
    ensures value { result ≡ ended_by wrote }
    ensures finished { IfSome result (Finishing Finished.NotBuilt) }
    ensures read { result ≢ Some Ended.ReadFault }
    ensures write { result ≡ Some Ended.WriteFault → wrote ≡ Err WriteFault.Failed }
    ensures steady { result ≢ Some Ended.WriteFault → wrote ≢ Err WriteFault.Failed }
{
    match wrote {
        Ok(()) => None,
        Err(WriteFault::Failed) => Some(Ended::WriteFault),
        Err(WriteFault::NoMemory) => Some(Ended::NoMemory),
    }
}

/// Does one action.
fn act<K: Sink>(
    alloc: Global,
    engine: &mut Engine,
    action: Action,
    number: u64,
    out: &mut K,
) -> Option<Ended>
    requires room { IsTrue (has_room engine.old action) }
    requires number { number ≡ next_line engine.old.journal }
    ensures turned { K.Tells → Turned result (K.held out.old) (K.held out.new)
        (turn engine.old.start engine.old.journal (Ok action)) engine.new.journal }
    ensures follows { Follows result engine.old engine.new (line_bytes action) }
    ensures finished { IfSome result (Finishing Finished.NotBuilt) }
    ensures later { K.faults out.old ≤ K.faults out.new }
    ensures read { result ≢ Some Ended.ReadFault }
    ensures write { result ≡ Some Ended.WriteFault → Rose (K.faults out.old) (K.faults out.new) }
    ensures steady { result ≢ Some Ended.WriteFault → K.faults out.new ≡ K.faults out.old }
{
    let from = PassNo {
        pass: 0,
        number: number - 1,
    };
    let canvas = engine.canvas();
    match engine.act(alloc, from, action) {
        Ok(Some(answer)) => {
            let wrote = put_answer(alloc, out, canvas, &answer);
            drop(answer);
            ended_by(wrote)
        }
        Ok(None) => Some(refuse(alloc, out, number)),
        Err(ActFault::NoMemory) => Some(Ended::NoMemory),
        Err(ActFault::HistoryFull { .. }) => unreachable!(),
    }
}

/// Does one line.
fn take_turn<K: Sink>(
    alloc: Global,
    engine: &mut Engine,
    line: &[u8],
    number: u64,
    out: &mut K,
) -> Option<Ended>
    requires turns { length engine.old.journal < engine.old.limits.turns }
    requires bytes { text_bytes engine.old.journal + (length line.now + 1)
        ≤ engine.old.limits.bytes }
    requires number { number ≡ next_line engine.old.journal }
    ensures turned { K.Tells → Turned result (K.held out.old) (K.held out.new)
        (turn engine.old.start engine.old.journal (action_of line.now)) engine.new.journal }
    ensures follows { Follows result engine.old engine.new (length line.now + 1) }
    ensures finished { IfSome result (Finishing Finished.NotBuilt) }
    ensures later { K.faults out.old ≤ K.faults out.new }
    ensures read { result ≢ Some Ended.ReadFault }
    ensures write { result ≡ Some Ended.WriteFault → Rose (K.faults out.old) (K.faults out.new) }
    ensures steady { result ≢ Some Ended.WriteFault → K.faults out.new ≡ K.faults out.old }
{
    lines_and_actions_stand_one_to_one();
    match read_line(alloc, line) {
        Ok(action) => act(alloc, engine, action, number, out),
        Err(BadLine::NoMemory) => Some(Ended::NoMemory),
        Err(BadLine::Form) | Err(BadLine::Text) => Some(refuse(alloc, out, number)),
    }
}

/// The bytes that the line of this number may take.
fn limit_of(limits: Limits, number: u64, room: u64) -> u64
    requires number { 0 < number }
    ensures value { result ≡ (if nat_lt (number - 1) limits.turns then room else 0) }
{
    if number - 1 < limits.turns { room } else { 0 }
}

/// Does all lines of a script, with an engine that has done nothing yet and nothing read ahead.
fn each_line<S: Source, K: Sink>(
    alloc: Global,
    engine: &mut Engine,
    limits: Limits,
    ahead: &mut ReadAhead,
    line: &mut Vec<u8>,
    script: &mut S,
    out: &mut K,
) -> Ended
    requires opened { engine.old.journal ≡ [] }
    requires same { engine.old.limits ≡ limits }
    requires limits { IsTrue (are_limits limits) }
    requires nothing { ahead.old ≡ [] }
    ensures ends { S.Tells → K.Tells → Ends result (K.held out.old) (K.held out.new)
        (run limits engine.old.start [] limits.bytes (lines_of (S.left script.old))) }
    ensures drained { S.Tells → result ≡ Ended.Whole Finished.Done → S.left script.new ≡ [] }
    ensures later { S.faults script.old ≤ S.faults script.new }
    ensures later_out { K.faults out.old ≤ K.faults out.new }
    ensures read { result ≡ Ended.ReadFault → Rose (S.faults script.old) (S.faults script.new) }
    ensures write { result ≡ Ended.WriteFault → Rose (K.faults out.old) (K.faults out.new) }
    ensures steady { result ≢ Ended.ReadFault → S.faults script.new ≡ S.faults script.old }
    ensures steady_out { result ≢ Ended.WriteFault → K.faults out.new ≡ K.faults out.old }
{
    let mut number: u64 = 1;
    let mut room = limits.bytes;
    'lines: loop {
        let limit = limit_of(limits, number, room);
        match ahead.next_line(script, limit, line) {
            Met::Whole => {
                if let Some(ended) = take_turn(alloc, engine, line.as_slice(), number, out) {
                    return ended;
                }
                number += 1;
                room -= line.len() as u64 + 1;
            }
            met => return end_at(alloc, met, line.as_slice(), number, out),
        }
    }
}

/// Runs a script with an engine that has done nothing yet.
pub fn replay<S: Source, K: Sink>(
    alloc: Global,
    mut engine: Engine,
    limits: Limits,
    script: &mut S,
    out: &mut K,
) -> Ended
    requires opened { engine.journal ≡ [] }
    requires same { engine.limits ≡ limits }
    requires limits { IsTrue (are_limits limits) }
    ensures ends { S.Tells → K.Tells → Ends result (K.held out.old) (K.held out.new)
        (run limits engine.start [] limits.bytes (lines_of (S.left script.old))) }
    ensures drained { S.Tells → result ≡ Ended.Whole Finished.Done → S.left script.new ≡ [] }
    ensures later { S.faults script.old ≤ S.faults script.new }
    ensures later_out { K.faults out.old ≤ K.faults out.new }
    ensures read { result ≡ Ended.ReadFault → Rose (S.faults script.old) (S.faults script.new) }
    ensures write { result ≡ Ended.WriteFault → Rose (K.faults out.old) (K.faults out.new) }
    ensures steady { result ≢ Ended.ReadFault → S.faults script.new ≡ S.faults script.old }
    ensures steady_out { result ≢ Ended.WriteFault → K.faults out.new ≡ K.faults out.old }
{
    let Ok(mut ahead) = ReadAhead::new(alloc) else {
        drop(engine);
        return Ended::NoMemory;
    };
    let mut line = Vec::new(alloc);
    let ended = each_line(
        alloc,
        &mut engine,
        limits,
        &mut ahead,
        &mut line,
        script,
        out,
    );
    drop(line);
    drop(ahead);
    drop(engine);
    ended
}
