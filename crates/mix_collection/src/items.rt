//! What the lines of items and groups say.
ghost use Rattle.std.specs.Prelude.{◌≡◌, IfOk, IfSome, IsTrue, option_and_then};
ghost use Rattle.mix_base.specs.Names.{is_name};
ghost use Rattle.mix_model.specs.Fitting.{Fits};
ghost use Rattle.mix_model.specs.Values.{is_place};
ghost use Rattle.mix_collection.specs.Collections.{three_items, placed_from, placed_in};
ghost use Rattle.mix_collection.specs.Collections.{group_in, item_in};
ghost use Rattle.mix_collection.specs.Read.{SetsNoChannel};

use crate::fields::list_behind;
use crate::lines::name_from;
use crate::options::options_from;
use mix_base::{Json, Name, NoMemory};
use mix_model::{ItemSpec, Line};
use std::alloc::Global;

/// The names of two sources, and the options of an item.
type Placed = (Name, Name, ItemSpec);

fn placed_of(first: &Json, second: &Json, options: &Json) -> Option<Placed>
    ensures value { result ≡ placed_from (first.now, second.now, options.now) }
    ensures first { IfSome result (λ placed. IsTrue (is_name placed.0)) }
    ensures second { IfSome result (λ placed. IsTrue (is_name placed.1)) }
    ensures place { IfSome result (λ placed. IsTrue (is_place placed.2.place)) }
{
    let first = name_from(first)?;
    let Some(second) = name_from(second) else {
        drop(first);
        return None;
    };
    let Some(options) = options_from(options) else {
        drop(first);
        drop(second);
        return None;
    };
    Some((first, second, options))
}

fn placed_from(items: &[Json]) -> Option<Placed>
    ensures value { result ≡ option_and_then placed_from (three_items items.now) }
    ensures first { IfSome result (λ placed. IsTrue (is_name placed.0)) }
    ensures second { IfSome result (λ placed. IsTrue (is_name placed.1)) }
    ensures place { IfSome result (λ placed. IsTrue (is_place placed.2.place)) }
{
    match items {
        [first, second, options] => placed_of(first, second, options),
        _ => None,
    }
}

/// The names of two sources and the options of an item, behind a word.
#[tactic(auto, unfolding(crate::specs::Collections::placed_in))]
fn placed_in(alloc: Global, word: &[u8], line: &[u8]) -> Result<Option<Placed>, NoMemory>
    ensures value { IfOk result (λ placed. placed ≡ placed_in word.now line.now) }
    ensures first { IfOk result (λ p. IfSome p (λ placed. IsTrue (is_name placed.0))) }
    ensures second { IfOk result (λ p. IfSome p (λ placed. IsTrue (is_name placed.1))) }
    ensures place { IfOk result (λ p. IfSome p (λ placed. IsTrue (is_place placed.2.place))) }
{
    match list_behind(alloc, word, line)? {
        Some(items) => {
            let placed = placed_from(items.as_slice());
            drop(items);
            Ok(placed)
        }
        None => Ok(None),
    }
}

/// A group: its name, and whose item shows it.
#[tactic(auto, unfolding(crate::specs::Collections::group_in, mix_model::specs::Fitting::line_fits))]
pub fn group_in(alloc: Global, line: &[u8]) -> Result<Option<Line>, NoMemory>
    ensures value { IfOk result (λ group. group ≡ group_in line.now) }
    ensures fits { IfOk result (λ group. IfSome group Fits) }
    ensures unset { IfOk result (λ group. IfSome group SetsNoChannel) }
{
    match placed_in(alloc, b"group", line)? {
        Some((name, parent, options)) => Ok(Some(Line::Group {
            name,
            parent,
            enabled: options.enabled,
            locked: options.locked,
            place: options.place,
            blend: options.blend,
        })),
        None => Ok(None),
    }
}

/// An item: whose it is, and what it shows.
#[tactic(auto, unfolding(crate::specs::Collections::item_in, mix_model::specs::Fitting::line_fits))]
pub fn item_in(alloc: Global, line: &[u8]) -> Result<Option<Line>, NoMemory>
    ensures value { IfOk result (λ item. item ≡ item_in line.now) }
    ensures fits { IfOk result (λ item. IfSome item Fits) }
    ensures unset { IfOk result (λ item. IfSome item SetsNoChannel) }
{
    match placed_in(alloc, b"item", line)? {
        Some((parent, child, options)) => Ok(Some(Line::Item {
            parent,
            child,
            enabled: options.enabled,
            locked: options.locked,
            place: options.place,
            blend: options.blend,
        })),
        None => Ok(None),
    }
}
