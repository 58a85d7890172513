//! One pixel of a row over one of another.
ghost use Rattle.std.specs.Prelude.{◌≡◌, ◌+◌, ◌≤◌, length};
ghost use Rattle.std.specs.Simd.Lanes.{chunk, put_chunk};
ghost use Rattle.mix_model.specs.Blending.{channel_over, pixels_over};

use crate::mode::{Mode, cover};

/// A channel of this alpha over the one below it.
#[inline(always)]
fn over_channel<M: Mode>(s: u8, alpha: u8, d: u8) -> u8
    ensures { result ≡ channel_over M.blend s alpha d }
{
    cover(M::meet(s, d), alpha, d)
}

/// Lays a pixel of a row over that of another, which keeps its alpha.
#[inline(always)]
pub(crate) fn over_pixel<M: Mode>(below: &mut [u8], above: &[u8], at: usize)
    requires below { at + 4 ≤ length below.old }
    requires above { at + 4 ≤ length above.now }
    ensures { below.new ≡ put_chunk at below.old
        (pixels_over M.blend (chunk at 4 above.now) (chunk at 4 below.old)) }
{
    let alpha = above[at + 3];
    let red = over_channel::<M>(above[at], alpha, below[at]);
    let green = over_channel::<M>(above[at + 1], alpha, below[at + 1]);
    let blue = over_channel::<M>(above[at + 2], alpha, below[at + 2]);
    below[at] = red;
    below[at + 1] = green;
    below[at + 2] = blue;
}
