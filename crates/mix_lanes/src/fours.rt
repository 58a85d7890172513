//! Four pixels over those below them.
ghost use Rattle.std.specs.Prelude.{◌≡◌, ◌+◌, ◌≤◌, length};
ghost use Rattle.std.specs.Simd.Lanes.{chunk, put_chunk, Each1};
ghost use Rattle.mix_model.specs.Blending.{pixels_over};
ghost use Rattle.mix_lanes.specs.Channels.{AreChannels, AreSums, weighed, weights_of};

use crate::lanes::nearest;
use crate::mode::Mode;
use std::simd::prelude::*;

/// How much each channel of four pixels counts: as the alpha of its pixel says, and an alpha not at
/// all.
#[inline(always)]
fn weights(s: u16x16) -> u16x16
    requires { length s ≡ 16 }
    ensures { result ≡ weights_of s }
{
    s.shuffle(
        u16x16::splat(0),
        [3, 3, 3, 16, 7, 7, 7, 16, 11, 11, 11, 16, 15, 15, 15, 16],
    )
}

/// So much of each channel as its weight says, and of the one below it the rest.
#[inline(always)]
fn weigh(f: u16x16, w: u16x16, d: u16x16) -> u16x16
    requires above { AreChannels f }
    requires weights { AreChannels w }
    requires below { AreChannels d }
    ensures value { result ≡ weighed f w d }
    ensures sums { AreSums result }
{
    f * w + d * (u16x16::splat(255) - w)
}

/// Four pixels over those below them.
#[inline(always)]
fn cover<M: Mode>(s: u16x16, d: u16x16) -> u16x16
    requires above { AreChannels s }
    requires below { AreChannels d }
    ensures value { result ≡ pixels_over M.blend s d }
    ensures small { Each1 (λ x. x ≤ 255) result }
{
    nearest(weigh(M::meet_lanes(s, d), weights(s), d))
}

/// Lays four pixels of a row over those of another.
#[inline(always)]
pub(crate) fn over_four<M: Mode>(below: &mut [u8], above: &[u8], at: usize)
    requires below { at + 16 ≤ length below.old }
    requires above { at + 16 ≤ length above.now }
    ensures { below.new ≡ put_chunk at below.old
        (pixels_over M.blend (chunk at 16 above.now) (chunk at 16 below.old)) }
{
    let s = u8x16::from_slice(&above[at..]).cast::<u16>();
    let d = u8x16::from_slice(&below[at..]).cast::<u16>();
    cover::<M>(s, d)
        .cast::<u8>()
        .copy_to_slice(&mut below[at..]);
}
