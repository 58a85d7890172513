//! The kinds of input by their ids.
ghost use Rattle.std.specs.Prelude.{IfOk, IfSome, IsTrue};
ghost use Rattle.mix_model.specs.Rows.{is_input};

use mix_base::{NoMemory, Text};
use mix_model::Kind;
use mix_sources::kind_of;
use mix_tables::{Table, cell};
use std::alloc::Global;

/// Cells: the kind or `none`, and the id.
pub struct Kinds;

impl Table for Kinds {
    fn found(&self, alloc: Global, line: &str) -> Result<String, NoMemory> {
        let id = Text::from_str(alloc, cell(line, 1))?;
        let kind = kind_of(&id);
        drop(id);
        Ok(String::from_str(alloc, word(kind))?)
    }
}

fn word(kind: Option<Kind>) -> &'static str {
    match kind {
        None => "none",
        Some(Kind::Scene) => "Scene",
        Some(Kind::Group) => "Group",
        Some(Kind::Color) => "Color",
        Some(Kind::Checker) => "Checker",
        Some(Kind::Scroll) => "Scroll",
        Some(Kind::Raster) => "Raster",
        Some(Kind::Tone) => "Tone",
    }
}

/// The kind of input of an id.
pub fn input(alloc: Global, id: &str) -> Result<Option<Kind>, NoMemory>
    ensures { IfOk result (λ kind. IfSome kind (λ kind. IsTrue (is_input kind))) }
{
    let id = Text::from_str(alloc, id)?;
    let kind = kind_of(&id);
    drop(id);
    Ok(input_or_none(kind))
}

fn input_or_none(kind: Option<Kind>) -> Option<Kind>
    ensures { IfSome result (λ kind. IsTrue (is_input kind)) }
{
    match kind {
        Some(Kind::Color) => Some(Kind::Color),
        Some(Kind::Checker) => Some(Kind::Checker),
        Some(Kind::Scroll) => Some(Kind::Scroll),
        Some(Kind::Raster) => Some(Kind::Raster),
        Some(Kind::Tone) => Some(Kind::Tone),
        Some(Kind::Scene | Kind::Group) | None => None,
    }
}
