//! How a channel meets the one below it, in each blend mode.
ghost use Rattle.std.specs.Prelude.{◌≡◌};
ghost use Rattle.std.specs.Simd.Lanes.{zip2};
ghost use Rattle.mix_model.specs.declared.kind.Blend.{Blend};
ghost use Rattle.mix_model.specs.declared.kind.Blend.TheVariants.{Normal as NormalMode};
ghost use Rattle.mix_model.specs.declared.kind.Blend.TheVariants.{Additive as AdditiveMode};
ghost use Rattle.mix_model.specs.declared.kind.Blend.TheVariants.{Subtract as SubtractMode};
ghost use Rattle.mix_model.specs.declared.kind.Blend.TheVariants.{Screen as ScreenMode};
ghost use Rattle.mix_model.specs.declared.kind.Blend.TheVariants.{Multiply as MultiplyMode};
ghost use Rattle.mix_model.specs.declared.kind.Blend.TheVariants.{Lighten as LightenMode};
ghost use Rattle.mix_model.specs.declared.kind.Blend.TheVariants.{Darken as DarkenMode};
ghost use Rattle.mix_model.specs.Blending.{product_of, mode_over, covering};
ghost use Rattle.mix_lanes.specs.Channels.{AreChannels};

use crate::lanes::{greatest, least, products};
use std::simd::prelude::*;

/// A blend mode, known where the loop over pixels is compiled.
pub(crate) trait Mode {
    /// Which one it is.
    ghost blend: { Blend };

    /// What it makes of the channel s over d, before the alpha of s counts.
    fn meet(s: u8, d: u8) -> u8
        ensures { result ≡ mode_over blend s d };

    /// The same of sixteen channels.
    fn meet_lanes(s: u16x16, d: u16x16) -> u16x16
        requires above { AreChannels s }
        requires below { AreChannels d }
        ensures { result ≡ zip2 (mode_over blend) s d };
}

pub(crate) struct Normal;

pub(crate) struct Additive;

pub(crate) struct Subtract;

pub(crate) struct Screen;

pub(crate) struct Multiply;

pub(crate) struct Lighten;

pub(crate) struct Darken;

/// The product of two channels, the whole of a channel being 1.
fn product(s: u8, d: u8) -> u8
    ensures { result ≡ product_of s d }
{
    ((u32::from(s) * u32::from(d) + 127) / 255) as u8
}

impl Mode for Normal {
    ghost blend = { NormalMode };

    #[inline(always)]
    fn meet(s: u8, _d: u8) -> u8 {
        s
    }

    #[inline(always)]
    fn meet_lanes(s: u16x16, _d: u16x16) -> u16x16 {
        s
    }
}

impl Mode for Additive {
    ghost blend = { AdditiveMode };

    #[inline(always)]
    fn meet(s: u8, d: u8) -> u8 {
        s.saturating_add(d)
    }

    #[inline(always)]
    fn meet_lanes(s: u16x16, d: u16x16) -> u16x16 {
        least(u16x16::splat(255), s + d)
    }
}

impl Mode for Subtract {
    ghost blend = { SubtractMode };

    #[inline(always)]
    fn meet(s: u8, d: u8) -> u8 {
        d.saturating_sub(s)
    }

    #[inline(always)]
    fn meet_lanes(s: u16x16, d: u16x16) -> u16x16 {
        d - least(d, s)
    }
}

impl Mode for Screen {
    ghost blend = { ScreenMode };

    #[inline(always)]
    fn meet(s: u8, d: u8) -> u8 {
        (u32::from(s) + u32::from(d) - u32::from(product(s, d))) as u8
    }

    #[inline(always)]
    fn meet_lanes(s: u16x16, d: u16x16) -> u16x16 {
        s + d - products(s, d)
    }
}

impl Mode for Multiply {
    ghost blend = { MultiplyMode };

    #[inline(always)]
    fn meet(s: u8, d: u8) -> u8 {
        product(s, d)
    }

    #[inline(always)]
    fn meet_lanes(s: u16x16, d: u16x16) -> u16x16 {
        products(s, d)
    }
}

impl Mode for Lighten {
    ghost blend = { LightenMode };

    #[inline(always)]
    fn meet(s: u8, d: u8) -> u8 {
        s.max(d)
    }

    #[inline(always)]
    fn meet_lanes(s: u16x16, d: u16x16) -> u16x16 {
        greatest(s, d)
    }
}

impl Mode for Darken {
    ghost blend = { DarkenMode };

    #[inline(always)]
    fn meet(s: u8, d: u8) -> u8 {
        s.min(d)
    }

    #[inline(always)]
    fn meet_lanes(s: u16x16, d: u16x16) -> u16x16 {
        least(s, d)
    }
}

/// The channel f of this alpha over d, to the nearest.
pub(crate) fn cover(f: u8, alpha: u8, d: u8) -> u8
    ensures { result ≡ covering f alpha d }
{
    if alpha == 255 {
        return f;
    }
    ((u32::from(f) * u32::from(alpha) + u32::from(d) * (255 - u32::from(alpha)) + 127) / 255) as u8
}
