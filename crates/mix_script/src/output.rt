//! What is written for an answer.
ghost use Rattle.std.specs.Prelude.{◌≡◌, ◌≢◌, ◌≤◌, ◌++◌, ◌∷◌, [], All, Err, IfOk, IsTrue, List, ℕ};
ghost use Rattle.std.specs.Prelude.{codes, decimal, map, string_bytes};
ghost use Rattle.mix_outside.specs.Faults.{Rose};
ghost use Rattle.mix_events.specs.Sayings.{IsSayable, IsSayableReply};
ghost use Rattle.mix_script.specs.Output.{IsShownWith, IsWhole, close_line, numbered, reply_lines};
ghost use Rattle.mix_script.specs.Output.{said_lines, shown_text, text_line};
ghost use Rattle.mix_script.specs.Writing.{Writes};

use crate::block_text::block_text;
use crate::escaping::escape;
use crate::picture_text::picture_text;
use crate::{Shown, WriteFault};
use mix_base::{ConnId, NoMemory};
use mix_events::{Answer, Reply, Said, said_text};
use mix_outside::{Put, Sink};
use std::alloc::{AllocError, Global};

/// Writes one line.
#[tactic(auto, using(crate::proofs::Written::one_whole, crate::proofs::Written::one_front))]
fn put<K: Sink>(out: &mut K, line: &[u8]) -> Result<(), WriteFault>
    ensures bytes { K.Tells → Writes result (line.now ∷ []) (K.held out.old) (K.held out.new) }
    ensures later { K.faults out.old ≤ K.faults out.new }
    ensures cause { result ≡ Err WriteFault.Failed → Rose (K.faults out.old) (K.faults out.new) }
    ensures steady { result ≢ Err WriteFault.Failed → K.faults out.new ≡ K.faults out.old }
{
    match out.write(line) {
        Put::Done => Ok(()),
        Put::Failed => Err(WriteFault::Failed),
    }
}

/// Writes a line that was made, where there was memory for it.
#[tactic(auto, using(crate::proofs::Written::no_line))]
fn put_made<K: Sink>(out: &mut K, made: Result<String, NoMemory>) -> Result<(), WriteFault>
    ensures bytes { (line : List ℕ) → IfOk made (λ text. string_bytes text ≡ line) →
        K.Tells → Writes result (line ∷ []) (K.held out.old) (K.held out.new) }
    ensures later { K.faults out.old ≤ K.faults out.new }
    ensures cause { result ≡ Err WriteFault.Failed → Rose (K.faults out.old) (K.faults out.new) }
    ensures steady { result ≢ Err WriteFault.Failed → K.faults out.new ≡ K.faults out.old }
{
    match made {
        Ok(line) => put(out, line.as_bytes()),
        Err(NoMemory) => Err(WriteFault::NoMemory),
    }
}

/// The line of a number, with a mark before it and a text behind it.
fn numbered(alloc: Global, mark: &str, number: u64, text: &str) -> Result<String, NoMemory>
    ensures value { IfOk result (λ line. string_bytes line ≡ numbered mark.now number text.now) }
{
    Ok(format!(in alloc; "{mark}{number}{text}\n")?)
}

/// The line of one text that a connection is told.
fn text_line(alloc: Global, conn: ConnId, said: &Said) -> Result<String, NoMemory>
    requires { IsSayable said.now }
    ensures value { IfOk result (λ line. string_bytes line ≡ text_line conn said.now) }
{
    let text = said_text(alloc, said)?;
    let escaped = escape(alloc, &text);
    drop(text);
    let text = escaped?;
    let number = conn.0;
    let shown = text.as_str();
    let line = format!(in alloc; ">c{number} {shown}\n");
    drop(text);
    Ok(line?)
}

/// The line of a close.
fn close_line(alloc: Global, conn: ConnId, code: u16) -> Result<String, NoMemory>
    ensures value { IfOk result (λ line. string_bytes line ≡ close_line conn code) }
{
    let number = conn.0;
    Ok(format!(in alloc; "!c{number} {code}\n")?)
}

/// The text of what is shown.
fn shown_text(alloc: Global, shown: &Shown) -> Result<String, NoMemory>
    requires whole { IsWhole shown.now }
    ensures value { IfOk result (λ text. string_bytes text ≡ shown_text shown.now) }
{
    match shown {
        Shown::Nothing => Ok(String::new(alloc)),
        Shown::Picture(picture) => Ok(picture_text(alloc, picture)?),
        Shown::Block(block) => block_text(alloc, block),
    }
}

/// The line of what is shown under a number.
fn shown_line(alloc: Global, mark: &str, number: u64, shown: &Shown) -> Result<String, NoMemory>
    requires whole { IsWhole shown.now }
    ensures value { IfOk result (λ line. string_bytes line
        ≡ numbered mark.now number (shown_text shown.now)) }
{
    let text = shown_text(alloc, shown)?;
    numbered(alloc, mark, number, text.as_str())
}

/// Writes the lines of all that a connection is told.
fn put_told<K: Sink>(
    alloc: Global,
    out: &mut K,
    conn: ConnId,
    told: &[Said],
) -> Result<(), WriteFault>
    requires { All IsSayable told.now }
    ensures bytes { K.Tells → Writes result (map (text_line conn) told.now)
        (K.held out.old) (K.held out.new) }
    ensures later { K.faults out.old ≤ K.faults out.new }
    ensures cause { result ≡ Err WriteFault.Failed → Rose (K.faults out.old) (K.faults out.new) }
    ensures steady { result ≢ Err WriteFault.Failed → K.faults out.new ≡ K.faults out.old }
{
    'told: for said in told {
        match put_made(out, text_line(alloc, conn, said)) {
            Ok(()) => {}
            Err(fault) => return Err(fault),
        }
    }
    Ok(())
}

/// Writes the lines of all that a connection is told, and that of its close, where it is closed.
fn put_said<K: Sink>(
    alloc: Global,
    out: &mut K,
    conn: ConnId,
    told: &[Said],
    close: Option<u16>,
) -> Result<(), WriteFault>
    requires { All IsSayable told.now }
    ensures bytes { K.Tells → Writes result (said_lines conn told.now close)
        (K.held out.old) (K.held out.new) }
    ensures later { K.faults out.old ≤ K.faults out.new }
    ensures cause { result ≡ Err WriteFault.Failed → Rose (K.faults out.old) (K.faults out.new) }
    ensures steady { result ≢ Err WriteFault.Failed → K.faults out.new ≡ K.faults out.old }
{
    match put_told(alloc, out, conn, told) {
        Ok(()) => {}
        Err(fault) => return Err(fault),
    }
    match close {
        Some(code) => put_made(out, close_line(alloc, conn, code)),
        None => Ok(()),
    }
}

/// Writes the lines of an answer, each with one write. What is shown is the picture of a frame, the
/// sound of a block, and nothing with every other answer.
pub fn write_reply<K: Sink>(
    alloc: Global,
    out: &mut K,
    answer: &Answer,
    shown: &Shown,
) -> Result<(), WriteFault>
    requires sayable { IsSayableReply answer.now.reply }
    requires with_answer { IsShownWith answer.now.reply shown.now }
    requires whole { IsWhole shown.now }
    ensures bytes { K.Tells → Writes result (reply_lines answer.now.reply shown.now)
        (K.held out.old) (K.held out.new) }
    ensures later { K.faults out.old ≤ K.faults out.new }
    ensures cause { result ≡ Err WriteFault.Failed → Rose (K.faults out.old) (K.faults out.new) }
    ensures steady { result ≢ Err WriteFault.Failed → K.faults out.new ≡ K.faults out.old }
{
    match &answer.reply {
        Reply::Full => put(out, b"+ full\n"),
        Reply::Gone { conn } => put_made(out, numbered(alloc, "!c", u64::from(conn.0), " gone")),
        Reply::Left { conn } => put_made(out, numbered(alloc, "-c", u64::from(conn.0), "")),
        Reply::Told {
            conn,
            said,
            close,
            ..
        } => put_said(alloc, out, *conn, said.as_slice(), *close),
        Reply::Frame { number, .. } => put_made(out, shown_line(alloc, "v ", *number, shown)),
        Reply::NoFrame => put(out, b"v full\n"),
        Reply::Block { number, .. } => put_made(out, shown_line(alloc, "a ", *number, shown)),
        Reply::FrameGone { number } => put_made(out, numbered(alloc, "f ", *number, "")),
        Reply::NoSuchFrame => put(out, b"f none\n"),
        Reply::Destroyed(serial) => put_made(out, numbered(alloc, "d ", serial.0, "")),
        Reply::Nothing => put(out, b"d -\n"),
    }
}
