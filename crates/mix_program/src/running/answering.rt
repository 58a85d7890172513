//! The lines of an answer.
ghost use Rattle.std.specs.Prelude.{◌≡◌, ◌≢◌, ◌≤◌, Err, IfOk, IsTrue};
ghost use Rattle.mix_outside.specs.Faults.{Rose};
ghost use Rattle.mix_model.specs.Plans.{is_shot, painted};
ghost use Rattle.mix_events.specs.Sayings.{IsSayableReply};
ghost use Rattle.mix_script.specs.Output.{IsShownWith, IsWhole, ShowsPicture};
ghost use Rattle.mix_script.specs.Writing.{Writes};
ghost use Rattle.mix_program.specs.Output.{IsShowable, shown_by, shown_lines};

use mix_audio::mix;
use mix_base::NoMemory;
use mix_events::{Answer, Reply};
use mix_model::Shot;
use mix_outside::Sink;
use mix_raster::paint;
use mix_script::{Shown, WriteFault, write_reply};
use std::alloc::Global;

/// The picture of a frame: its shot, painted on this canvas at the tick of its number.
fn show_frame(
    alloc: Global,
    canvas: (u32, u32),
    number: u64,
    shot: &Shot,
) -> Result<Shown, NoMemory>
    requires shot { IsTrue (is_shot number shot.now) }
    ensures value { IfOk result (λ shown. shown ≡ Shown.Picture (painted shot.now number canvas)) }
    ensures with_frame { IfOk result ShowsPicture }
    ensures whole { IfOk result IsWhole }
{
    match paint(alloc, shot, number, canvas) {
        Ok(picture) => Ok(Shown::Picture(picture)),
        Err(fault) => Err(fault),
    }
}

/// What a reply shows: the picture of a frame, and the voices of a block, mixed at its number.
fn show(alloc: Global, canvas: (u32, u32), reply: &Reply) -> Result<Shown, NoMemory>
    requires showable { IsShowable reply.now }
    ensures value { IfOk result (λ shown. shown ≡ shown_by canvas reply.now) }
    ensures with_reply { IfOk result (λ shown. IsShownWith reply.now shown) }
    ensures whole { IfOk result IsWhole }
{
    match reply {
        Reply::Frame { number, shot, .. } => show_frame(alloc, canvas, *number, shot),
        Reply::Block { number, voices, .. } => Ok(Shown::Block(mix(alloc, voices, *number)?)),
        Reply::Full
        | Reply::Gone { .. }
        | Reply::Left { .. }
        | Reply::Told { .. }
        | Reply::NoFrame
        | Reply::FrameGone { .. }
        | Reply::NoSuchFrame
        | Reply::Destroyed(_)
        | Reply::Nothing => Ok(Shown::Nothing),
    }
}

/// Writes the lines of an answer, with what it shows on this canvas.
#[tactic(auto, using(mix_script::proofs::Written::no_line))]
pub fn put_answer<K: Sink>(
    alloc: Global,
    out: &mut K,
    canvas: (u32, u32),
    answer: &Answer,
) -> Result<(), WriteFault>
    requires sayable { IsSayableReply answer.now.reply }
    requires showable { IsShowable answer.now.reply }
    ensures bytes { K.Tells → Writes result (shown_lines canvas answer.now.reply)
        (K.held out.old) (K.held out.new) }
    ensures later { K.faults out.old ≤ K.faults out.new }
    ensures cause { result ≡ Err WriteFault.Failed → Rose (K.faults out.old) (K.faults out.new) }
    ensures steady { result ≢ Err WriteFault.Failed → K.faults out.new ≡ K.faults out.old }
{
    let Ok(shown) = show(alloc, canvas, &answer.reply) else {
        return Err(WriteFault::NoMemory);
    };
    let wrote = write_reply(alloc, out, answer, &shown);
    drop(shown);
    wrote
}
