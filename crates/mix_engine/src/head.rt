//! The head of a recording's record.
use mix_base::Rate;

/// The head of a recording's record: what its pictures and its sound are.
#[derive(Clone, Copy)]
pub struct Head {
    /// Whether pictures are recorded as I420, else as RGBA.
    pub i420: bool,
    /// The tracks that are recorded, a bit for each.
    pub tracks: u8,
    /// Width and height of a picture in pixels.
    pub width: u32,
    pub height: u32,
    pub rate: Rate,
    /// The number of the recording.
    pub recording: u64,
}
