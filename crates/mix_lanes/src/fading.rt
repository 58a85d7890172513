//! A row of bytes on the way to another.
ghost use Rattle.std.specs.Prelude.{◌≡◌, ◌<◌, ◌≤◌, length};
ghost use Rattle.mix_model.specs.Blending.{bytes_faded, faded};
ghost use Rattle.mix_lanes.specs.Fades.{IsFadedTo};

use crate::quotients::{fade_sixteen, reciprocal};

/// t parts of n of a byte, and the rest of another, to the nearest.
fn fade(from: u8, to: u8, t: u32, n: u32) -> u8
    requires { t < n }
    ensures { result ≡ faded t n from to }
{
    let whole = u64::from(n);
    let part = u64::from(t);
    (((whole - part) * u64::from(from) + part * u64::from(to) + whole / 2) / whole) as u8
}

/// Fades as many bytes as go by sixteen, and says how many these are.
fn fade_sixteens(bytes: &mut [u8], to: &[u8], t: u16, n: u16) -> usize
    requires weights { t < n }
    requires few { n ≤ 256 }
    requires same { length bytes.old ≡ length to.now }
    ensures { IsFadedTo t n bytes.old to.now result bytes.new }
{
    let part = reciprocal(n);
    let mut at = 0;
    'sixteens: while bytes.len() - at >= 16 {
        fade_sixteen(bytes, to, at, t, n, part);
        at += 16;
    }
    at
}

/// The same, where a fade has few enough frames, and none where it has more.
fn fade_front(bytes: &mut [u8], to: &[u8], t: u32, n: u32) -> usize
    requires weights { t < n }
    requires same { length bytes.old ≡ length to.now }
    ensures { IsFadedTo t n bytes.old to.now result bytes.new }
{
    if n > 256 {
        return 0;
    }
    fade_sixteens(bytes, to, t as u16, n as u16)
}

/// Fades bytes to others, t parts of n, to the nearest.
pub fn fade_onto(bytes: &mut [u8], to: &[u8], t: u32, n: u32)
    requires weights { t < n }
    requires same { length bytes.old ≡ length to.now }
    ensures value { bytes.new ≡ bytes_faded t n bytes.old to.now }
{
    let front = fade_front(bytes, to, t, n);
    for at in front..bytes.len() {
        bytes[at] = fade(bytes[at], to[at], t, n);
    }
}

/// Writes a row on the way from one to another, t parts of n of the second, to the nearest.
pub fn fade_row(into: &mut [u8], from: &[u8], to: &[u8], t: u32, n: u32)
    requires weights { t < n }
    requires same { length into.old ≡ length from.now }
    requires same_to { length from.now ≡ length to.now }
    ensures value { into.new ≡ bytes_faded t n from.now to.now }
{
    into.copy_from_slice(from);
    fade_onto(into, to, t, n);
}
