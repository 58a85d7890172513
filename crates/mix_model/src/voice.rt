//! An input that is heard.
ghost use Rattle.std.specs.Prelude.{◌≡◌, IfOk};

use crate::{Settings, Sound, VoiceList};
use mix_base::{ListOf, NoMemory};
use std::alloc::Global;

/// An input that is heard, with the weight `w` of `n`.
#[derive(Drop)]
pub struct Voice {
    pub settings: Settings,
    pub sound: Sound,
    pub w: u32,
    pub n: u32,
}

impl Voice {
    pub fn copy(&self) -> Result<Voice, NoMemory>
        ensures value { IfOk result (λ copy. copy ≡ self.now) }
    {
        Ok(Voice {
            settings: self.settings.copy()?,
            sound: self.sound,
            w: self.w,
            n: self.n,
        })
    }
}

/// The same voices once more.
pub fn copy_voices(alloc: Global, voices: &VoiceList) -> Result<VoiceList, NoMemory>
    ensures value { IfOk result (λ copy. copy ≡ voices.now) }
{
    let voices = voices.as_slice();
    let mut copies = Vec::with_capacity(alloc, voices.len())?;
    for voice in voices {
        let Ok(copy) = voice.copy() else {
            drop(copies);
            return Err(NoMemory);
        };
        copies.push_reserved(copy);
    }
    Ok(ListOf::from_vec(copies))
}
