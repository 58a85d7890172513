//! Which settings the keys of an object give.
ghost use Rattle.std.specs.Prelude.{IfOk, IsTrue};
ghost use Rattle.mix_model.specs.Rows.{is_input};
ghost use Rattle.mix_model.specs.Values.{is_canvas};
ghost use Rattle.mix_sources.specs.Checked.{are_over};

use crate::canvases::canvas_in;
use crate::given::settings_of;
use crate::kinds::input;
use mix_base::{Json, JsonObj, NoMemory};
use mix_model::{Kind, Settings};
use mix_sources::{BadSetting, SettingFault, check_settings, settings_json};
use mix_tables::{Table, cell, object, written};
use std::alloc::Global;

/// Cells: the settings that are given, or a key and the status that it is refused with; the id of the
/// kind, the width and the height of the canvas, the keys of the settings that stand or nothing, and
/// the keys.
pub struct SettingsTable;

impl Table for SettingsTable {
    fn found(&self, alloc: Global, line: &str) -> Result<String, NoMemory> {
        let Some(kind) = input(alloc, cell(line, 1))? else {
            return Ok(String::from_str(alloc, "no kind")?);
        };
        let Some(canvas) = canvas_in(line, 2) else {
            return Ok(String::from_str(alloc, "no canvas")?);
        };
        let over = standing(alloc, kind, cell(line, 4), canvas)?;
        let found = checked(alloc, kind, &over, cell(line, 5), canvas);
        drop(over);
        found
    }
}

/// The settings that the keys of a text give, and none where it is no object.
fn standing(alloc: Global, kind: Kind, text: &str, canvas: (u32, u32)) -> Result<Settings, NoMemory>
    requires input { IsTrue (is_input kind) }
    requires canvas { IsTrue (is_canvas canvas) }
    ensures { IfOk result (λ over. IsTrue (are_over kind over)) }
{
    let Some(given) = object(alloc, text)? else {
        return Ok(Settings::None);
    };
    let settings = settings_of(alloc, kind, &given, canvas);
    drop(given);
    match settings? {
        Some(settings) => Ok(settings),
        None => Ok(Settings::None),
    }
}

/// What the keys of a text come to, over settings that stand.
fn checked(
    alloc: Global,
    kind: Kind,
    over: &Settings,
    text: &str,
    canvas: (u32, u32),
) -> Result<String, NoMemory>
    requires input { IsTrue (is_input kind) }
    requires over { IsTrue (are_over kind over.now) }
    requires canvas { IsTrue (is_canvas canvas) }
{
    let Some(given) = object(alloc, text)? else {
        return Ok(String::from_str(alloc, "no object")?);
    };
    let answer = check_settings(alloc, kind, over, &given, canvas);
    drop(given);
    match answer {
        Ok(settings) => settings_text(alloc, settings),
        Err(SettingFault::Bad(bad)) => bad_text(alloc, bad),
        Err(SettingFault::NoMemory) => Err(NoMemory),
    }
}

fn settings_text(alloc: Global, settings: Settings) -> Result<String, NoMemory> {
    let obj: Result<JsonObj, NoMemory> = settings_json(alloc, &settings);
    drop(settings);
    let value = Json::Obj(obj?);
    let text = written(alloc, &value);
    drop(value);
    text
}

fn bad_text(alloc: Global, bad: BadSetting) -> Result<String, NoMemory> {
    let text = format!(in alloc; "{} {}", bad.key.as_str(), bad.status);
    drop(bad);
    Ok(text?)
}
