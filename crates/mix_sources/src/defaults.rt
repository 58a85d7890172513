//! The settings that an input has where none are given.
ghost use Rattle.std.specs.Prelude.{◌≡◌, IfOk};
ghost use Rattle.mix_sources.specs.Defaults.{default_of};

use mix_base::{NoMemory, SharedBytes};
use mix_model::{Kind, Settings};
use std::alloc::Global;

/// Opaque black.
const BLACK: u32 = 0xFF00_0000;

/// Opaque white.
const WHITE: u32 = 0xFFFF_FFFF;

/// The settings of a new input.
#[tactic(auto, unfolding(crate::specs::Defaults::default_of))]
pub fn default_of(alloc: Global, kind: Kind, canvas: (u32, u32)) -> Result<Settings, NoMemory>
    ensures value { IfOk result (λ settings. settings ≡ default_of kind canvas) }
{
    let (width, height) = canvas;
    match kind {
        Kind::Scene | Kind::Group => Ok(Settings::None),
        Kind::Color => Ok(Settings::Color {
            color: WHITE,
            width,
            height,
        }),
        Kind::Checker => Ok(Settings::Checker {
            color_a: BLACK,
            color_b: WHITE,
            cell: 8,
            width,
            height,
        }),
        Kind::Scroll => Ok(Settings::Scroll {
            color_a: BLACK,
            color_b: WHITE,
            bar: 8,
            speed: 1,
            width,
            height,
        }),
        Kind::Raster => Ok(Settings::Raster {
            pixels: SharedBytes::read(alloc, &[255, 255, 255, 255])?,
            width: 1,
            height: 1,
        }),
        Kind::Tone => Ok(Settings::Tone {
            level: 8192,
            half: 54,
        }),
    }
}
