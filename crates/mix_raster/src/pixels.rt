//! Single pixels in rows of bytes.
ghost use Rattle.std.specs.Prelude.{◌≡◌, ◌+◌, ◌≤◌, ℕ, length};
ghost use Rattle.mix_model.specs.Colours.{bytes_of, colour_at};

/// Writes the four bytes of a pixel.
#[inline(always)]
pub(crate) fn put(row: &mut [u8], at: usize, pixel: [u8; 4])
    requires { at + 4 ≤ length row.old }
    ensures here { bytes_of (colour_at row.new at) ≡ pixel }
    ensures before { (k : ℕ) → k + 4 ≤ at → colour_at row.new k ≡ colour_at row.old k }
{
    row[at] = pixel[0];
    row[at + 1] = pixel[1];
    row[at + 2] = pixel[2];
    row[at + 3] = pixel[3];
}

/// The four bytes of a pixel.
#[inline(always)]
pub(crate) fn four_at(pixels: &[u8], at: usize) -> [u8; 4]
    requires { at + 4 ≤ length pixels.now }
    ensures { result ≡ bytes_of (colour_at pixels.now at) }
{
    [pixels[at], pixels[at + 1], pixels[at + 2], pixels[at + 3]]
}
