//! Sixteen channels of a fade of at most 256 frames.
ghost use Rattle.std.specs.Prelude.{◌≡◌, ◌+◌, ◌-◌, ◌*◌, ◌/◌, ◌≤◌, ◌<◌, length, map};
ghost use Rattle.std.specs.Simd.Lanes.{chunk, put_chunk, zip2, Each1};
ghost use Rattle.mix_model.specs.Blending.{faded};
ghost use Rattle.mix_lanes.specs.Channels.{AreChannels};
ghost use Rattle.mix_lanes.specs.Quotients.{weighted, AreFadeSums};

use std::simd::prelude::*;

/// By what a sum is multiplied to be divided by n, in parts of 2^24.
pub(crate) fn reciprocal(n: u16) -> u32
    requires some { 0 < n }
    ensures value { result ≡ 16777216 / n + 1 }
{
    16_777_216 / u32::from(n) + 1
}

/// So many parts of the one as remain of n, t of the other, and a half.
#[inline(always)]
fn weigh(from: u16x16, to: u16x16, t: u16, n: u16) -> u16x16
    requires weights { t < n }
    requires few { n ≤ 256 }
    requires channels { AreChannels from }
    requires others { AreChannels to }
    ensures value { result ≡ zip2 (weighted t n) from to }
    ensures sums { AreFadeSums n result }
{
    u16x16::splat(n - t) * from + u16x16::splat(t) * to + u16x16::splat(n / 2)
}

/// Sums divided by n.
#[inline(always)]
fn divide(sums: u16x16, n: u16, reciprocal: u32) -> u8x16
    requires some { 0 < n }
    requires few { n ≤ 256 }
    requires reciprocal { reciprocal ≡ 16777216 / n + 1 }
    requires sums { AreFadeSums n sums }
    ensures { result ≡ map (λ x. x / n) sums }
{
    let parts = sums.cast::<u32>() * u32x16::splat(reciprocal);
    (parts >> 24).cast::<u8>()
}

/// Fades sixteen bytes to others, t parts of n.
#[inline(always)]
pub(crate) fn fade_sixteen(bytes: &mut [u8], to: &[u8], at: usize, t: u16, n: u16, reciprocal: u32)
    requires weights { t < n }
    requires few { n ≤ 256 }
    requires reciprocal { reciprocal ≡ 16777216 / n + 1 }
    requires bytes { at + 16 ≤ length bytes.old }
    requires to { at + 16 ≤ length to.now }
    ensures { bytes.new ≡ put_chunk at bytes.old
        (zip2 (faded t n) (chunk at 16 bytes.old) (chunk at 16 to.now)) }
{
    let one = u8x16::from_slice(&bytes[at..]).cast::<u16>();
    let other = u8x16::from_slice(&to[at..]).cast::<u16>();
    divide(weigh(one, other, t, n), n, reciprocal).copy_to_slice(&mut bytes[at..]);
}
