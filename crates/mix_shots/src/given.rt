//! Settings that the lines of a table give.
ghost use Rattle.std.specs.Prelude.{IfOk, IfSome, IsTrue};
ghost use Rattle.mix_model.specs.Rows.{is_input};
ghost use Rattle.mix_model.specs.Values.{are_settings, are_valid, is_canvas};
ghost use Rattle.mix_sources.specs.Checked.{are_over};

use crate::kinds::input;
use mix_base::{JsonObj, NoMemory};
use mix_model::{Kind, Settings};
use mix_sources::{SettingFault, check_settings};
use mix_tables::object;
use std::alloc::Global;

/// A canvas of which no case speaks.
#[tactic(auto, unfolding(mix_model::specs::Values::is_canvas))]
pub fn any_canvas() -> (u32, u32)
    ensures { IsTrue (is_canvas result) }
{
    (16, 9)
}

/// The settings that an object gives to an input of a kind, where it is accepted.
pub fn settings_of(
    alloc: Global,
    kind: Kind,
    given: &JsonObj,
    canvas: (u32, u32),
) -> Result<Option<Settings>, NoMemory>
    requires input { IsTrue (is_input kind) }
    requires canvas { IsTrue (is_canvas canvas) }
    ensures { IfOk result (λ all. IfSome all (λ settings. IsTrue (are_settings kind settings))) }
{
    match check_settings(alloc, kind, &Settings::None, given, canvas) {
        Ok(settings) => Ok(Some(settings)),
        Err(SettingFault::NoMemory) => Err(NoMemory),
        Err(SettingFault::Bad(bad)) => {
            drop(bad);
            Ok(None)
        }
    }
}

/// The settings of a text, for the kind of this id.
pub fn valid_settings(alloc: Global, id: &str, text: &str) -> Result<Option<Settings>, NoMemory>
    ensures { IfOk result (λ all. IfSome all (λ settings. IsTrue (are_valid settings))) }
{
    let Some(kind) = input(alloc, id)? else {
        return Ok(None);
    };
    let Some(given) = object(alloc, text)? else {
        return Ok(None);
    };
    let settings = settings_of(alloc, kind, &given, any_canvas());
    drop(given);
    settings
}
