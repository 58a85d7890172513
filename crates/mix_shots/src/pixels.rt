//! What inputs show and say.
ghost use Rattle.std.specs.Prelude.{IsTrue};
ghost use Rattle.mix_model.specs.Values.{are_valid};

use crate::canvases::{side_in, whole};
use crate::given::valid_settings;
use mix_base::NoMemory;
use mix_model::Settings;
use mix_sources::{pixel, sample};
use mix_tables::{Table, cell, number};
use std::alloc::Global;

/// Cells: red, green, blue and alpha in hexadecimal; the id of the kind, the keys of the settings, the
/// ticks since when the input is active and that of the frame, the column and the row.
pub struct Pixels;

impl Table for Pixels {
    fn found(&self, alloc: Global, line: &str) -> Result<String, NoMemory> {
        let Some(settings) = valid_settings(alloc, cell(line, 1), cell(line, 2))? else {
            return Ok(String::from_str(alloc, "no settings")?);
        };
        let found = pixel_text(alloc, &settings, line);
        drop(settings);
        found
    }
}

fn pixel_text(alloc: Global, settings: &Settings, line: &str) -> Result<String, NoMemory>
    requires { IsTrue (are_valid settings.now) }
{
    let since = number(line, 3);
    let tick = number(line, 4);
    let u = side_in(line, 5);
    let v = side_in(line, 6);
    let (width, height) = settings.size((0, 0));
    if since <= tick && u < width && v < height {
        Ok(hex::encode(alloc, pixel(settings, since, tick, u, v))?)
    } else {
        Ok(String::from_str(alloc, "outside")?)
    }
}

/// Cells: the sample; the id of the kind, or `none` for a source without settings, the keys of the
/// settings, and the place in time.
pub struct Samples;

impl Table for Samples {
    fn found(&self, alloc: Global, line: &str) -> Result<String, NoMemory> {
        if cell(line, 1) == "none" {
            return silence(alloc, whole(line, 3));
        }
        let Some(settings) = valid_settings(alloc, cell(line, 1), cell(line, 2))? else {
            return Ok(String::from_str(alloc, "no settings")?);
        };
        let found = sample_text(alloc, &settings, whole(line, 3));
        drop(settings);
        found
    }
}

/// What a source without settings says.
#[tactic(auto, unfolding(mix_model::specs::Values::are_valid))]
fn silence(alloc: Global, place: i64) -> Result<String, NoMemory> {
    sample_text(alloc, &Settings::None, place)
}

fn sample_text(alloc: Global, settings: &Settings, place: i64) -> Result<String, NoMemory>
    requires { IsTrue (are_valid settings.now) }
{
    Ok(format!(in alloc; "{}", sample(settings, place))?)
}
