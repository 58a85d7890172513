//! Plain data of the model from which tests make larger ones, and sizes.
use crate::tests::have::have;
use mix_base::SharedBytes;
use mix_model::{Place, Settings, Sound};
use std::alloc::Global;
use std::process::Abort;

/// An item as it is without options.
pub fn corner() -> Place {
    Place {
        x: 0,
        y: 0,
        scale_x: 1,
        scale_y: 1,
        quarter: 0,
        align: 5,
        crop_left: 0,
        crop_top: 0,
        crop_right: 0,
        crop_bottom: 0,
    }
}

/// Whether it is that of an item without options.
pub fn is_corner(place: &Place) -> bool {
    let corner = corner();
    let turned = place.quarter == corner.quarter && place.align == corner.align;
    let scaled = place.scale_x == corner.scale_x && place.scale_y == corner.scale_y;
    let moved = place.x == corner.x && place.y == corner.y;
    let wide = place.crop_left == corner.crop_left && place.crop_right == corner.crop_right;
    let high = place.crop_top == corner.crop_top && place.crop_bottom == corner.crop_bottom;
    turned && scaled && moved && wide && high
}

/// The sound of a new source.
pub fn new_sound() -> Sound {
    Sound {
        volume: 1000,
        muted: false,
        tracks: 63,
        offset: 0,
    }
}

/// One white pixel.
pub fn white(rt: &impl Abort, alloc: Global) -> Settings {
    Settings::Raster {
        pixels: have(rt, SharedBytes::read(alloc, &[255; 4])),
        width: 1,
        height: 1,
    }
}

/// Whether the settings are those of one white pixel.
pub fn is_white(settings: &Settings) -> bool {
    match settings {
        Settings::Raster {
            pixels,
            width,
            height,
        } => pixels.bytes() == [255; 4].as_slice() && *width == 1 && *height == 1,
        _ => false,
    }
}

#[test]
fn a_source_is_as_large_as_its_settings_say(rt: HostRuntime) {
    let canvas = (320, 180);
    let color = Settings::Color {
        color: 0,
        width: 4,
        height: 3,
    };
    let tone = Settings::Tone {
        level: 8192,
        half: 54,
    };
    let white = white(&rt, rt.alloc());
    let sizes = [
        Settings::None.size(canvas),
        color.size(canvas),
        white.size(canvas),
        tone.size(canvas),
    ];
    drop(color);
    drop(tone);
    drop(white);
    assert!(rt; sizes == [(320, 180), (4, 3), (1, 1), (0, 0)]);
}
