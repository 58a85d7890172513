//! The four lines at the head of a collection.
ghost use Rattle.std.specs.Prelude.{◌≡◌, ◌≢◌, ◌≤◌, ◌<◌, Err, IfOk, IsTrue};
ghost use Rattle.mix_base.specs.Rates.{is_rate};
ghost use Rattle.mix_model.specs.Values.{is_canvas, is_format};
ghost use Rattle.mix_outside.specs.Faults.{Rose};
ghost use Rattle.mix_collection.specs.Collections.{is_format_line, canvas_in, rate_in, record_in};
ghost use Rattle.mix_collection.specs.Read.{Formats, Says, Heads, IsHead, IsHeadFitting, behind_canvas};
ghost use Rattle.mix_collection.specs.Within.{lines_left};

use crate::collection_fault::CollectionFault;
use crate::feed::Feed;
use crate::lines::{canvas_in, rate_in, record_in};
use mix_base::Rate;
use mix_outside::Source;
use std::alloc::Global;

/// What the four lines at the head say.
#[derive(Clone, Copy)]
pub struct Head {
    /// Width and height in pixels.
    pub canvas: (u32, u32),
    pub rate: Rate,
    /// Whether pictures are recorded as I420, else as RGBA.
    pub i420: bool,
    /// The tracks that are recorded, a bit for each.
    pub tracks: u8,
}

fn is_format_line(line: &[u8]) -> bool
    ensures value { result ≡ is_format_line line.now }
{
    line == b"mixer-collection 1".as_slice()
}

/// Reads the line that names the format.
fn read_format<C: Source>(feed: &mut Feed, source: &mut C) -> Result<(), CollectionFault>
    ensures format { C.Tells → Formats result feed.new.line.items
        (lines_left feed.old (C.left source.old)) (lines_left feed.new (C.left source.new)) }
    ensures later { C.faults source.old ≤ C.faults source.new }
    ensures cause { result ≡ Err CollectionFault.Failed →
        Rose (C.faults source.old) (C.faults source.new) }
    ensures steady { result ≢ Err CollectionFault.Failed → C.faults source.new ≡ C.faults source.old }
{
    feed.take_line(source)?;
    if is_format_line(feed.line.as_slice()) {
        Ok(())
    } else {
        Err(CollectionFault::NotBuilt)
    }
}

/// Reads the line of the canvas.
fn read_canvas<C: Source>(
    alloc: Global,
    feed: &mut Feed,
    source: &mut C,
) -> Result<(u32, u32), CollectionFault>
    ensures canvas { C.Tells → Says canvas_in result
        (lines_left feed.old (C.left source.old)) (lines_left feed.new (C.left source.new)) }
    ensures valid { IfOk result (λ canvas. IsTrue (is_canvas canvas)) }
    ensures later { C.faults source.old ≤ C.faults source.new }
    ensures cause { result ≡ Err CollectionFault.Failed →
        Rose (C.faults source.old) (C.faults source.new) }
    ensures steady { result ≢ Err CollectionFault.Failed → C.faults source.new ≡ C.faults source.old }
{
    feed.take_line(source)?;
    match canvas_in(alloc, feed.line.as_slice())? {
        Some(canvas) => Ok(canvas),
        None => Err(CollectionFault::NotBuilt),
    }
}

/// Reads the line of the frames of a second.
fn read_rate<C: Source>(
    alloc: Global,
    feed: &mut Feed,
    source: &mut C,
) -> Result<Rate, CollectionFault>
    ensures rate { C.Tells → Says rate_in result
        (lines_left feed.old (C.left source.old)) (lines_left feed.new (C.left source.new)) }
    ensures valid { IfOk result (λ rate. IsTrue (is_rate rate)) }
    ensures later { C.faults source.old ≤ C.faults source.new }
    ensures cause { result ≡ Err CollectionFault.Failed →
        Rose (C.faults source.old) (C.faults source.new) }
    ensures steady { result ≢ Err CollectionFault.Failed → C.faults source.new ≡ C.faults source.old }
{
    feed.take_line(source)?;
    match rate_in(alloc, feed.line.as_slice())? {
        Some(rate) => Ok(rate),
        None => Err(CollectionFault::NotBuilt),
    }
}

/// Reads the line of what is recorded of a canvas of this size.
fn read_record<C: Source>(
    alloc: Global,
    canvas: (u32, u32),
    feed: &mut Feed,
    source: &mut C,
) -> Result<(bool, u8), CollectionFault>
    ensures format { C.Tells → Says (record_in canvas) result
        (lines_left feed.old (C.left source.old)) (lines_left feed.new (C.left source.new)) }
    ensures valid { IfOk result (λ format. IsTrue (is_format canvas format.0 format.1)) }
    ensures later { C.faults source.old ≤ C.faults source.new }
    ensures cause { result ≡ Err CollectionFault.Failed →
        Rose (C.faults source.old) (C.faults source.new) }
    ensures steady { result ≢ Err CollectionFault.Failed → C.faults source.new ≡ C.faults source.old }
{
    feed.take_line(source)?;
    match record_in(alloc, canvas, feed.line.as_slice())? {
        Some(format) => Ok(format),
        None => Err(CollectionFault::NotBuilt),
    }
}

/// Reads the two lines behind a canvas.
fn read_settings<C: Source>(
    alloc: Global,
    canvas: (u32, u32),
    feed: &mut Feed,
    source: &mut C,
) -> Result<Head, CollectionFault>
    requires canvas { IsTrue (is_canvas canvas) }
    ensures head { C.Tells → IsHead
        (behind_canvas canvas (lines_left feed.old (C.left source.old))) result
        (lines_left feed.new (C.left source.new)) }
    ensures fits { IfOk result IsHeadFitting }
    ensures later { C.faults source.old ≤ C.faults source.new }
    ensures cause { result ≡ Err CollectionFault.Failed →
        Rose (C.faults source.old) (C.faults source.new) }
    ensures steady { result ≢ Err CollectionFault.Failed → C.faults source.new ≡ C.faults source.old }
{
    let rate = read_rate(alloc, feed, source)?;
    let (i420, tracks) = read_record(alloc, canvas, feed, source)?;
    Ok(Head {
        canvas,
        rate,
        i420,
        tracks,
    })
}

/// Reads the four lines.
pub fn read_head<C: Source>(
    alloc: Global,
    feed: &mut Feed,
    source: &mut C,
) -> Result<Head, CollectionFault>
    ensures head { C.Tells → Heads result
        (lines_left feed.old (C.left source.old)) (lines_left feed.new (C.left source.new)) }
    ensures fits { IfOk result IsHeadFitting }
    ensures later { C.faults source.old ≤ C.faults source.new }
    ensures cause { result ≡ Err CollectionFault.Failed →
        Rose (C.faults source.old) (C.faults source.new) }
    ensures steady { result ≢ Err CollectionFault.Failed → C.faults source.new ≡ C.faults source.old }
{
    read_format(feed, source)?;
    let canvas = read_canvas(alloc, feed, source)?;
    read_settings(alloc, canvas, feed, source)
}
