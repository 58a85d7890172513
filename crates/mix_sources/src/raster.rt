//! Rasters: their size and their pixels fit each other.
ghost use Rattle.std.specs.Prelude.{◌≡◌, ◌*◌, ◌≤◌, IfOk};
ghost use Rattle.mix_sources.specs.Answers.{Answers};
ghost use Rattle.mix_sources.specs.Checked.{raster_over};
ghost use Rattle.mix_sources.specs.Rasters.{bytes_in, filled_with, pixels_of, raster_of};

use crate::fault::SettingFault;
use crate::keys::{bad, side_at, text_at};
use base64::DecodeAllocError;
use base64::engine::general_purpose::STANDARD;
use mix_base::{JsonObj, NoMemory, SharedBytes, Text};
use mix_model::Settings;
use std::alloc::Global;

const INVALID_FIELD: u16 = 400;

const OUT_OF_RANGE: u16 = 402;

/// The most pixels.
const MOST_PIXELS: u64 = 131_072;

/// The keys over a raster that stands.
#[tactic(auto, unfolding(crate::specs::Checked::raster_over))]
pub fn raster_over(
    alloc: Global,
    pixels: &SharedBytes,
    width: u32,
    height: u32,
    given: &JsonObj,
) -> Result<Settings, SettingFault>
    ensures value { Answers result (raster_over pixels.now width height given.now) }
{
    let height = side_at(alloc, given, "height", height)?;
    let text = text_at(alloc, given, "pixels")?;
    match side_at(alloc, given, "width", width) {
        Ok(width) => raster(alloc, width, height, pixels, text),
        Err(fault) => {
            drop(text);
            Err(fault)
        }
    }
}

/// A raster of this size, with the pixels of a text, or those that stand where there is none.
#[tactic(auto, unfolding(crate::specs::Rasters::raster_of))]
fn raster(
    alloc: Global,
    width: u32,
    height: u32,
    standing: &SharedBytes,
    text: Option<Text>,
) -> Result<Settings, SettingFault>
    ensures value { Answers result (raster_of width height (pixels_of standing.now text)) }
{
    if area(width, height) > MOST_PIXELS {
        drop(text);
        return Err(bad(alloc, "height", OUT_OF_RANGE));
    }
    let pixels = pixels(alloc, standing, text)?;
    filled(alloc, width, height, pixels)
}

/// How many pixels there are.
fn area(width: u32, height: u32) -> u64
    ensures value { result ≡ width * height }
{
    u64::from(width) * u64::from(height)
}

/// A raster of as many bytes as it needs.
fn filled(
    alloc: Global,
    width: u32,
    height: u32,
    pixels: Option<SharedBytes>,
) -> Result<Settings, SettingFault>
    requires few { width * height ≤ 131072 }
    ensures value { Answers result (filled_with width height pixels) }
{
    let Some(pixels) = pixels else {
        return Err(bad(alloc, "pixels", INVALID_FIELD));
    };
    if pixels.bytes().len() as u64 == 4 * area(width, height) {
        Ok(Settings::Raster {
            pixels,
            width,
            height,
        })
    } else {
        drop(pixels);
        Err(bad(alloc, "pixels", INVALID_FIELD))
    }
}

/// The bytes of a text, or those that stand where there is none.
fn pixels(
    alloc: Global,
    standing: &SharedBytes,
    text: Option<Text>,
) -> Result<Option<SharedBytes>, NoMemory>
    ensures value { IfOk result (λ pixels. pixels ≡ pixels_of standing.now text) }
{
    match text {
        None => Ok(Some(standing.share()?)),
        Some(text) => {
            let bytes = decoded(alloc, &text);
            drop(text);
            bytes
        }
    }
}

/// The bytes that a text stands for in base64.
#[tactic(auto, unfolding(crate::specs::Rasters::bytes_in))]
fn decoded(alloc: Global, text: &Text) -> Result<Option<SharedBytes>, NoMemory>
    ensures value { IfOk result (λ bytes. bytes ≡ bytes_in text.now) }
{
    match STANDARD.decode(alloc, text.bytes()) {
        Ok(bytes) => Ok(Some(SharedBytes::read(alloc, bytes.as_slice())?)),
        Err(DecodeAllocError::DecodeError(_)) => Ok(None),
        Err(DecodeAllocError::OutOfMemory) => Err(NoMemory),
    }
}
