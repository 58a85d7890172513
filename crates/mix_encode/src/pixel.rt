//! The brightness and the two colours of a pixel, as BT.601 has them in the studio's range.
ghost use Rattle.std.specs.Prelude.{◌≡◌, ◌+◌, ◌≤◌, length, negsuc, pos, ◌-ℤ◌, ◌≤ℤ◌};
ghost use Rattle.mix_model.specs.Colours.{bytes_of, colour_at};
ghost use Rattle.mix_model.specs.Encoding.{chroma, chroma_blue, chroma_red, luma, mean};
ghost use Rattle.mix_model.specs.Encoding.{mean_colour};

/// Red, green, blue and alpha of the pixel whose bytes begin at a place.
pub(crate) fn pixel_at(row: &[u8], at: usize) -> [u8; 4]
    requires { at + 4 ≤ length row.now }
    ensures { result ≡ bytes_of (colour_at row.now at) }
{
    [row[at], row[at + 1], row[at + 2], row[at + 3]]
}

/// How bright a pixel is, from 16 to 235.
pub(crate) fn luma(pixel: [u8; 4]) -> u8
    ensures { result ≡ luma (colour_at pixel 0) }
{
    let red = u32::from(pixel[0]);
    let green = u32::from(pixel[1]);
    let blue = u32::from(pixel[2]);
    ((66 * red + 129 * green + 25 * blue + 128) / 256 + 16) as u8
}

fn mean(a: u8, b: u8, c: u8, d: u8) -> u8
    ensures { result ≡ mean a b c d }
{
    let sum = u32::from(a) + u32::from(b) + u32::from(c) + u32::from(d);
    ((sum + 2) / 4) as u8
}

/// The mean of four pixels, channel by channel.
pub(crate) fn mean_pixel(a: [u8; 4], b: [u8; 4], c: [u8; 4], d: [u8; 4]) -> [u8; 4]
    ensures { result ≡ bytes_of (mean_colour
        (colour_at a 0) (colour_at b 0) (colour_at c 0) (colour_at d 0)) }
{
    [
        mean(a[0], b[0], c[0], d[0]),
        mean(a[1], b[1], c[1], d[1]),
        mean(a[2], b[2], c[2], d[2]),
        mean(a[3], b[3], c[3], d[3]),
    ]
}

/// By how much one weighted sum is more than another, each of them at most 112 times 255.
fn difference(more: u32, less: u32) -> i32
    requires more { more ≤ 28560 }
    requires less { less ≤ 28560 }
    ensures value { result ≡ pos more -ℤ pos less }
    ensures low { negsuc 28559 ≤ℤ result }
    ensures high { result ≤ℤ pos 28560 }
{
    more as i32 - less as i32
}

/// A weighted sum as a byte, from 16 to 240.
fn chroma(sum: i32) -> u8
    requires low { negsuc 28559 ≤ℤ sum }
    requires high { sum ≤ℤ pos 28560 }
    ensures { result ≡ chroma sum }
{
    ((sum + 128).div_euclid(256) + 128) as u8
}

/// How blue a pixel is beside its brightness, from 16 to 240.
pub(crate) fn chroma_blue(pixel: [u8; 4]) -> u8
    ensures { result ≡ chroma_blue (colour_at pixel 0) }
{
    let red = u32::from(pixel[0]);
    let green = u32::from(pixel[1]);
    let blue = u32::from(pixel[2]);
    chroma(difference(112 * blue, 38 * red + 74 * green))
}

/// How red a pixel is beside its brightness, from 16 to 240.
pub(crate) fn chroma_red(pixel: [u8; 4]) -> u8
    ensures { result ≡ chroma_red (colour_at pixel 0) }
{
    let red = u32::from(pixel[0]);
    let green = u32::from(pixel[1]);
    let blue = u32::from(pixel[2]);
    chroma(difference(112 * red, 94 * green + 18 * blue))
}
