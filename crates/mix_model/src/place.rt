//! Where an item stands in its picture, and how an input sounds.

/// Where an item stands in the picture of its scene or group.
#[derive(Clone, Copy)]
pub struct Place {
    /// Pixels to the right, −90000 to 90000.
    pub x: i32,
    /// Pixels down, −90000 to 90000.
    pub y: i32,
    /// How often a pixel is repeated to the right, 1 to 16.
    pub scale_x: u8,
    /// How often a pixel is repeated downwards, 1 to 16.
    pub scale_y: u8,
    /// Quarter turns to the right, 0 to 3.
    pub quarter: u8,
    /// The sum of left 1, right 2, top 4 and bottom 8, without opposites; else the middle.
    pub align: u8,
    /// Pixels cut off on the left, 0 to 100000.
    pub crop_left: u32,
    /// Pixels cut off at the top, 0 to 100000.
    pub crop_top: u32,
    /// Pixels cut off on the right, 0 to 100000.
    pub crop_right: u32,
    /// Pixels cut off at the bottom, 0 to 100000.
    pub crop_bottom: u32,
}

/// How an input sounds.
#[derive(Clone, Copy)]
pub struct Sound {
    /// Thousandths, 0 to 20000.
    pub volume: u32,
    pub muted: bool,
    /// A bit for each of the tracks 1 to 6, the lowest for track 1.
    pub tracks: u8,
    /// Milliseconds by which it is heard later, −950 to 20000.
    pub offset: i32,
}
