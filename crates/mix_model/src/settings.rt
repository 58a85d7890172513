//! The settings of a source.
ghost use Rattle.std.specs.Prelude.{◌≡◌, IfOk};
ghost use Rattle.mix_model.specs.Sizes.{size_of};

use mix_base::{NoMemory, SharedBytes};

/// The settings of a source. A colour is alpha · 2^24 + blue · 2^16 + green · 2^8 + red; a width and
/// a height are 1 to 4096 pixels.
#[derive(Drop)]
pub enum Settings {
    /// Of scenes and groups.
    None,
    Color {
        color: u32,
        width: u32,
        height: u32,
    },
    Checker {
        color_a: u32,
        color_b: u32,
        /// The side of a square, 1 to 4096 pixels.
        cell: u32,
        width: u32,
        height: u32,
    },
    Scroll {
        color_a: u32,
        color_b: u32,
        /// The width of a bar, 1 to 4096 pixels.
        bar: u32,
        /// Pixels to the left in a frame, −64 to 64.
        speed: i32,
        width: u32,
        height: u32,
    },
    Raster {
        /// Red, green, blue and alpha of each pixel, row by row: 4 · width · height bytes.
        pixels: SharedBytes,
        width: u32,
        height: u32,
    },
    Tone {
        /// The absolute value of each sample, 0 to 32767.
        level: u32,
        /// Samples in half a period, 1 to 48000.
        half: u32,
    },
}

impl Settings {
    /// Width and height of the picture in pixels: the canvas for scenes and groups, 0 by 0 for a tone.
    pub fn size(&self, canvas: (u32, u32)) -> (u32, u32)
        ensures value { result ≡ size_of self.now canvas }
    {
        match self {
            Settings::None => canvas,
            Settings::Color { width, height, .. } => (*width, *height),
            Settings::Checker { width, height, .. } => (*width, *height),
            Settings::Scroll { width, height, .. } => (*width, *height),
            Settings::Raster { width, height, .. } => (*width, *height),
            Settings::Tone { .. } => (0, 0),
        }
    }

    /// The same settings once more: no pixel is copied.
    pub fn copy(&self) -> Result<Settings, NoMemory>
        ensures value { IfOk result (λ copy. copy ≡ self.now) }
    {
        let copy = match self {
            Settings::None => Settings::None,
            Settings::Color {
                color,
                width,
                height,
            } => Settings::Color {
                color: *color,
                width: *width,
                height: *height,
            },
            Settings::Checker {
                color_a,
                color_b,
                cell,
                width,
                height,
            } => Settings::Checker {
                color_a: *color_a,
                color_b: *color_b,
                cell: *cell,
                width: *width,
                height: *height,
            },
            Settings::Scroll {
                color_a,
                color_b,
                bar,
                speed,
                width,
                height,
            } => Settings::Scroll {
                color_a: *color_a,
                color_b: *color_b,
                bar: *bar,
                speed: *speed,
                width: *width,
                height: *height,
            },
            Settings::Raster {
                pixels,
                width,
                height,
            } => Settings::Raster {
                pixels: pixels.share()?,
                width: *width,
                height: *height,
            },
            Settings::Tone { level, half } => Settings::Tone {
                level: *level,
                half: *half,
            },
        };
        Ok(copy)
    }
}
