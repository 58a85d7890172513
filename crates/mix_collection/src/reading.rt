//! A whole collection.
ghost use Rattle.std.specs.Prelude.{◌≡◌, ◌≢◌, ◌≤◌, ◌<◌, [], All, IfOk, IsTrue, Err};
ghost use Rattle.mix_base.specs.Names.{is_name};
ghost use Rattle.mix_model.specs.Fitting.{Fits, IsFitting, is_secret};
ghost use Rattle.mix_outside.specs.Faults.{Rose};
ghost use Rattle.mix_outside.specs.Lines.{Lines};
ghost use Rattle.mix_collection.specs.Collections.{collection_read, collection_from};
ghost use Rattle.mix_collection.specs.Read.{Reads, Collects, CollectsBehind};
ghost use Rattle.mix_collection.specs.Read.{IsHeadFitting, SetsNoChannel, with_rest};
ghost use Rattle.mix_collection.specs.Within.{lines_left};

use crate::collection_fault::CollectionFault;
use crate::feed::Feed;
use crate::head::{Head, read_head};
use crate::login::{Login, read_login};
use crate::registry::{Registry, read_registry};
use mix_model::Collection;
use mix_outside::Source;
use std::alloc::Global;

/// The collection of these parts: what no line says has its default.
fn collection_from(head: Head, secret: Login, registry: Registry) -> Collection
    requires head { IsHeadFitting head }
    requires secret { IsTrue (is_secret secret) }
    requires lines { All Fits registry.lines }
    requires unset { All SetsNoChannel registry.lines }
    requires program { IsTrue (is_name registry.program) }
    ensures value { (rest : Lines) → result
        ≡ collection_from (with_rest head rest) secret registry }
    ensures fits { IsFitting result }
{
    Collection {
        canvas: head.canvas,
        rate: head.rate,
        i420: head.i420,
        tracks: head.tracks,
        secret,
        lines: registry.lines,
        fade: false,
        ms: 300,
        studio: None,
        program: registry.program,
    }
}

/// Reads what stands behind a head.
fn read_body<C: Source>(
    alloc: Global,
    head: Head,
    feed: &mut Feed,
    source: &mut C,
) -> Result<Collection, CollectionFault>
    requires head { IsHeadFitting head }
    ensures collection { C.Tells → CollectsBehind head result
        (lines_left feed.old (C.left source.old)) }
    ensures fits { IfOk result IsFitting }
    ensures drained { C.Tells → IfOk result (λ read. C.left source.new ≡ []) }
    ensures later { C.faults source.old ≤ C.faults source.new }
    ensures cause { result ≡ Err CollectionFault.Failed →
        Rose (C.faults source.old) (C.faults source.new) }
    ensures steady { result ≢ Err CollectionFault.Failed → C.faults source.new ≡ C.faults source.old }
{
    let secret = read_login(alloc, feed, source)?;
    match read_registry(alloc, head.canvas, feed, source) {
        Ok(registry) => Ok(collection_from(head, secret, registry)),
        Err(fault) => {
            drop(secret);
            Err(fault)
        }
    }
}

/// The collection that lines write.
fn read_lines<C: Source>(
    alloc: Global,
    feed: &mut Feed,
    source: &mut C,
) -> Result<Collection, CollectionFault>
    ensures collection { C.Tells → Collects result (lines_left feed.old (C.left source.old)) }
    ensures fits { IfOk result IsFitting }
    ensures drained { C.Tells → IfOk result (λ read. C.left source.new ≡ []) }
    ensures later { C.faults source.old ≤ C.faults source.new }
    ensures cause { result ≡ Err CollectionFault.Failed →
        Rose (C.faults source.old) (C.faults source.new) }
    ensures steady { result ≢ Err CollectionFault.Failed → C.faults source.new ≡ C.faults source.old }
{
    let head = read_head(alloc, feed, source)?;
    read_body(alloc, head, feed, source)
}

/// Reads a collection from all that is left of a source.
pub fn read_collection<C: Source>(
    alloc: Global,
    source: &mut C,
) -> Result<Collection, CollectionFault>
    // What was read is what the bytes write, and it isn't built exactly where they write none.
    ensures value { C.Tells → Reads result (collection_read (C.left source.old)) }
    ensures fits { IfOk result IsFitting }
    ensures drained { C.Tells → IfOk result (λ read. C.left source.new ≡ []) }
    ensures later { C.faults source.old ≤ C.faults source.new }
    ensures cause { result ≡ Err CollectionFault.Failed →
        Rose (C.faults source.old) (C.faults source.new) }
    ensures steady { result ≢ Err CollectionFault.Failed →
        C.faults source.new ≡ C.faults source.old }
{
    let mut feed = Feed::new(alloc)?;
    let read = read_lines(alloc, &mut feed, source);
    drop(feed);
    read
}
