//! What an input shows at one pixel.
ghost use Rattle.std.specs.Prelude.{◌≡◌, ◌<◌, ◌≤◌, ◌+◌, ◌*◌, ◌^◌, IsTrue, length};
ghost use Rattle.std.specs.Prelude.{int_lt, negsuc, pos, ◌+ℤ◌, ◌*ℤ◌, ◌≤ℤ◌};
ghost use Rattle.std.specs.Int.{int_rem_euclid};
ghost use Rattle.mix_model.specs.Colours.{bytes_of, colour_at, colour_of_number};
ghost use Rattle.mix_model.specs.Drawing.{is_inside};
ghost use Rattle.mix_model.specs.Kinds.{checker_even, pixel_of, scroll_even, striped};
ghost use Rattle.mix_model.specs.Sizes.{size_of};
ghost use Rattle.mix_model.specs.Values.{are_valid};

use mix_model::Settings;

/// Red, green, blue and alpha of an input at column `u` of row `v` at a tick, where the input is
/// active since the tick `since`. Scenes, groups and tones have no pixel.
pub fn pixel(settings: &Settings, since: u64, tick: u64, u: u32, v: u32) -> [u8; 4]
    requires valid { IsTrue (are_valid settings.now) }
    requires inside { IsTrue (is_inside (size_of settings.now (0, 0)) u v) }
    requires begun { since ≤ tick }
    ensures value { result ≡ bytes_of (pixel_of settings.now since tick u v) }
{
    match settings {
        Settings::None | Settings::Tone { .. } => [0, 0, 0, 0],
        Settings::Color { color, .. } => color_bytes(*color),
        Settings::Checker {
            color_a,
            color_b,
            cell,
            ..
        } => color_bytes(striped(is_first_square(*cell, u, v), *color_a, *color_b)),
        Settings::Scroll {
            color_a,
            color_b,
            bar,
            speed,
            ..
        } => color_bytes(striped(
            is_first_bar(*bar, *speed, tick - since, u),
            *color_a,
            *color_b,
        )),
        Settings::Raster { pixels, width, .. } => four_bytes(pixels.bytes(), *width, u, v),
    }
}

fn color_bytes(color: u32) -> [u8; 4]
    ensures value { result ≡ bytes_of (colour_of_number color) }
{
    color.to_le_bytes()
}

fn striped(even: bool, color_a: u32, color_b: u32) -> u32
    ensures value { result ≡ striped even color_a color_b }
{
    if even { color_a } else { color_b }
}

fn is_first_square(cell: u32, u: u32, v: u32) -> bool
    requires some { 0 < cell }
    requires small { (u < 4096) × (v < 4096) }
    ensures value { result ≡ checker_even cell u v }
{
    (u / cell + v / cell) % 2 == 0
}

/// The bars come again after two, so that only the frames and the place within two bars count.
fn is_first_bar(bar: u32, speed: i32, age: u64, u: u32) -> bool
    requires some { 0 < bar }
    requires slow { (negsuc 63 ≤ℤ speed) × (speed ≤ℤ pos 64) }
    ensures value { result ≡ scroll_even bar speed age u }
{
    is_in_first_half(moved(u, speed, age % two_bars(bar)), bar)
}

fn two_bars(bar: u32) -> u64
    ensures value { result ≡ 2 * bar }
{
    2 * u64::from(bar)
}

/// A place that has moved by the speed in each of so many frames.
fn moved(u: u32, speed: i32, age: u64) -> i64
    requires slow { (negsuc 63 ≤ℤ speed) × (speed ≤ℤ pos 64) }
    requires few { age < 2 ^ 33 }
    ensures value { result ≡ pos u +ℤ speed *ℤ pos age }
{
    i64::from(u) + way(speed, age)
}

/// How far the speed leads in so many frames.
fn way(speed: i32, age: u64) -> i64
    requires slow { (negsuc 63 ≤ℤ speed) × (speed ≤ℤ pos 64) }
    requires few { age < 2 ^ 33 }
    ensures value { result ≡ speed *ℤ pos age }
    ensures near { (negsuc (2 ^ 40) ≤ℤ result) × (result ≤ℤ pos (2 ^ 40)) }
{
    i64::from(speed) * (age as i64)
}

fn is_in_first_half(place: i64, bar: u32) -> bool
    requires some { 0 < bar }
    ensures value { result ≡ int_lt (int_rem_euclid place (pos (2 * bar))) (pos bar) }
{
    place.rem_euclid(2 * i64::from(bar)) < i64::from(bar)
}

/// The bytes of one pixel of a raster.
fn four_bytes(pixels: &[u8], width: u32, u: u32, v: u32) -> [u8; 4]
    requires small { (u < 4096) × (v < 4096) × (width ≤ 4096) }
    requires inside { 4 * (v * width + u) + 4 ≤ length pixels.now }
    ensures value { result ≡ bytes_of (colour_at pixels.now (4 * (v * width + u))) }
{
    let at = 4 * (v as usize * width as usize + u as usize);
    [pixels[at], pixels[at + 1], pixels[at + 2], pixels[at + 3]]
}
