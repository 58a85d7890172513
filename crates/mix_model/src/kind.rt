//! What a source is, and how an item's pixels meet those below.

/// What a source is: a scene, a group, or one of the kinds of input.
#[derive(Clone, Copy, PartialEq, Eq)]
pub enum Kind {
    Scene,
    Group,
    /// One colour.
    Color,
    /// Two colours in squares.
    Checker,
    /// Two colours in upright bars that move.
    Scroll,
    /// Given pixels.
    Raster,
    /// A square wave, without a picture.
    Tone,
}

/// How the pixels of an item meet those below.
#[derive(Clone, Copy, PartialEq, Eq)]
pub enum Blend {
    Normal,
    Additive,
    Subtract,
    Screen,
    Multiply,
    Lighten,
    Darken,
}
