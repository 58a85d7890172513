//! The payloads of a record: the bytes of a picture, and those of a block of sound.
#![tactic(auto)]

mod chroma;
mod luma;
mod pcm;
mod pixel;
mod raw;
mod row;

pub use pcm::pcm_s16le;
pub use raw::{raw_i420, raw_rgba};
