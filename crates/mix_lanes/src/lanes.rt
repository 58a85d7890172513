//! Sixteen lanes of channels.
ghost use Rattle.std.specs.Prelude.{◌≡◌, length, map, max, min};
ghost use Rattle.std.specs.Simd.Lanes.{zip2};
ghost use Rattle.mix_model.specs.Blending.{product_of};
ghost use Rattle.mix_lanes.specs.Channels.{AreChannels, AreSums, nearest_of};

use std::simd::prelude::*;

/// Sums of products of channels, divided by the whole of a channel, to the nearest.
#[inline(always)]
pub(crate) fn nearest(sums: u16x16) -> u16x16
    requires { AreSums sums }
    ensures { result ≡ map nearest_of sums }
{
    let raised = (sums + u16x16::splat(128)).cast::<u32>();
    (raised * u32x16::splat(257) >> 16).cast::<u16>()
}

/// The products of channels, the whole of a channel being 1.
#[inline(always)]
pub(crate) fn products(s: u16x16, d: u16x16) -> u16x16
    requires above { AreChannels s }
    requires below { AreChannels d }
    ensures value { result ≡ zip2 product_of s d }
{
    nearest(s * d)
}

#[inline(always)]
pub(crate) fn least(s: u16x16, d: u16x16) -> u16x16
    requires { length s ≡ length d }
    ensures { result ≡ zip2 min s d }
{
    s.simd_min(d)
}

#[inline(always)]
pub(crate) fn greatest(s: u16x16, d: u16x16) -> u16x16
    requires { length s ≡ length d }
    ensures { result ≡ zip2 max s d }
{
    s.simd_max(d)
}
