//! What a studio knows of its recording.
use std::marker::Model;

/// How many recordings began, whether one runs and is paused, and what it has: video ticks, audio
/// ticks, and the bytes of their payloads.
#[derive(Drop)]
pub struct Recording {
    count: u64,
    running: bool,
    paused: bool,
    video: u64,
    audio: u64,
    bytes: u64,
}

impl Model for Recording {
    ghost use Rattle.mix_model.specs.State.{Recording as Recorded};

    ghost Value = { Recorded };

    ghost view = { λ r. record {
      count = r.count;
      running = r.running;
      paused = r.paused;
      video = r.video;
      audio = r.audio;
      bytes = r.bytes;
    } };
}

impl Recording {
    ghost use Rattle.std.specs.Prelude.{◌≡◌};
    ghost use Rattle.mix_model.specs.Recordings.{no_recording, recording_of};

    /// None began.
    pub fn none() -> Recording
        ensures value { result ≡ no_recording }
    {
        Recording {
            count: 0,
            running: false,
            paused: false,
            video: 0,
            audio: 0,
            bytes: 0,
        }
    }

    /// The recording that a tick belongs to now.
    pub fn of_tick(&self) -> Option<u64>
        ensures value { result ≡ recording_of self.now }
    {
        if self.running && !self.paused {
            Some(self.count)
        } else {
            None
        }
    }
}
