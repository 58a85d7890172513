//! A picture and a block of sound.
ghost use Rattle.std.specs.Prelude.{◌≡◌, IfOk};

use crate::SampleList;
use crate::copies::copy_items;
use mix_base::{Bytes, NoMemory};
use std::alloc::Global;

/// A picture: red, green, blue and alpha of each pixel, row by row.
#[derive(Drop)]
pub struct Picture {
    pub width: u32,
    pub height: u32,
    pub rgba: Bytes,
}

/// A block of sound: 1024 stereo frames of each of six tracks, samples from −32768 to 32767.
#[derive(Drop)]
pub struct Block {
    pub tracks: SampleList,
}

impl Picture {
    pub fn copy(&self, alloc: Global) -> Result<Picture, NoMemory>
        ensures value { IfOk result (λ copy. copy ≡ self.now) }
    {
        Ok(Picture {
            width: self.width,
            height: self.height,
            rgba: copy_items(alloc, &self.rgba)?,
        })
    }
}

impl Block {
    pub fn copy(&self, alloc: Global) -> Result<Block, NoMemory>
        ensures value { IfOk result (λ copy. copy ≡ self.now) }
    {
        Ok(Block {
            tracks: copy_items(alloc, &self.tracks)?,
        })
    }
}
