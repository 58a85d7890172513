//! What a collection opens with, and the program's scene.
ghost use Rattle.std.specs.Prelude.{◌≡◌, ◌≢◌, ◌≤◌, ◌<◌, [], All, Err, IfOk, IsTrue};
ghost use Rattle.mix_base.specs.Names.{is_name};
ghost use Rattle.mix_model.specs.Fitting.{Fits};
ghost use Rattle.mix_model.specs.Values.{is_canvas};
ghost use Rattle.mix_outside.specs.Faults.{Rose};
ghost use Rattle.mix_outside.specs.Lines.{Whole};
ghost use Rattle.mix_collection.specs.Collections.{last_in, name_in};
ghost use Rattle.mix_collection.specs.Read.{Pushes, Registers, Ends, SetsNoChannel};
ghost use Rattle.mix_collection.specs.Within.{lines_left};

use crate::collection_fault::CollectionFault;
use crate::feed::Feed;
use crate::lines::name_in;
use crate::sources::line_in;
use mix_base::{ListOf, Name};
use mix_model::{Line, LineList};
use mix_outside::Source;
use std::alloc::Global;

/// The lines of sources and items in their order, and the name of the program's scene.
#[derive(Drop)]
pub struct Registry {
    pub lines: LineList,
    pub program: Name,
}

/// Pushes what the lines add, from the line that was read last up to the program's line, and gives
/// the name in that.
fn push_lines<C: Source>(
    alloc: Global,
    canvas: (u32, u32),
    lines: &mut Vec<Line>,
    feed: &mut Feed,
    source: &mut C,
) -> Result<Name, CollectionFault>
    requires canvas { IsTrue (is_canvas canvas) }
    requires nothing { lines.old.items ≡ [] }
    ensures pushed { C.Tells → Pushes canvas result lines.new.items
        (Whole feed.old.line.items (lines_left feed.old (C.left source.old))) }
    ensures fits { All Fits lines.new.items }
    ensures unset { All SetsNoChannel lines.new.items }
    ensures named { IfOk result (λ name. IsTrue (is_name name)) }
    ensures drained { C.Tells → IfOk result (λ read. C.left source.new ≡ []) }
    ensures later { C.faults source.old ≤ C.faults source.new }
    ensures cause { result ≡ Err CollectionFault.Failed →
        Rose (C.faults source.old) (C.faults source.new) }
    ensures steady { result ≢ Err CollectionFault.Failed → C.faults source.new ≡ C.faults source.old }
{
    'lines: loop {
        match line_in(alloc, canvas, feed.line.as_slice())? {
            Some(line) => lines.push(line)?,
            None => return read_program(alloc, feed, source),
        }
        feed.take_line(source)?;
    }
}

/// Reads what the lines add from the line that was read last, up to the program's line.
pub fn read_registry<C: Source>(
    alloc: Global,
    canvas: (u32, u32),
    feed: &mut Feed,
    source: &mut C,
) -> Result<Registry, CollectionFault>
    requires canvas { IsTrue (is_canvas canvas) }
    ensures registry { C.Tells → Registers canvas result
        (Whole feed.old.line.items (lines_left feed.old (C.left source.old))) }
    ensures fits { IfOk result (λ registry. All Fits registry.lines) }
    ensures unset { IfOk result (λ registry. All SetsNoChannel registry.lines) }
    ensures named { IfOk result (λ registry. IsTrue (is_name registry.program)) }
    ensures drained { C.Tells → IfOk result (λ read. C.left source.new ≡ []) }
    ensures later { C.faults source.old ≤ C.faults source.new }
    ensures cause { result ≡ Err CollectionFault.Failed →
        Rose (C.faults source.old) (C.faults source.new) }
    ensures steady { result ≢ Err CollectionFault.Failed → C.faults source.new ≡ C.faults source.old }
{
    let mut lines = Vec::new(alloc);
    match push_lines(alloc, canvas, &mut lines, feed, source) {
        Ok(program) => Ok(Registry {
            lines: ListOf::from_vec(lines),
            program,
        }),
        Err(fault) => {
            drop(lines);
            Err(fault)
        }
    }
}

/// The program's scene, where the line that was read last names it and nothing is left.
fn read_program<C: Source>(
    alloc: Global,
    feed: &mut Feed,
    source: &mut C,
) -> Result<Name, CollectionFault>
    ensures program { C.Tells → Ends result feed.old.line.items
        (lines_left feed.old (C.left source.old)) }
    ensures named { IfOk result (λ name. IsTrue (is_name name)) }
    ensures drained { C.Tells → IfOk result (λ read. C.left source.new ≡ []) }
    ensures later { C.faults source.old ≤ C.faults source.new }
    ensures cause { result ≡ Err CollectionFault.Failed →
        Rose (C.faults source.old) (C.faults source.new) }
    ensures steady { result ≢ Err CollectionFault.Failed → C.faults source.new ≡ C.faults source.old }
{
    let Some(name) = name_in(alloc, b"program", feed.line.as_slice())? else {
        return Err(CollectionFault::NotBuilt);
    };
    match feed.find_end(source) {
        Ok(()) => Ok(name),
        Err(fault) => {
            drop(name);
            Err(fault)
        }
    }
}
