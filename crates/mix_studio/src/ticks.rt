//! Pictures that are taken.
ghost use Rattle.std.specs.Prelude.{◌≡◌, ◌<◌, IfOk, IsTrue, OnErr, OnOk};
ghost use Rattle.mix_model.specs.WholeShape.{StudioShape};

use crate::{Studio, Ticked};
use mix_base::NoMemory;
use std::alloc::Global;

/// The most frames in flight.
const MOST_FRAMES: usize = 4;

impl Studio {
    ghost use Rattle.mix_studio.specs.Studios.{keeps_activity, tick_done};
    ghost use Rattle.mix_studio.specs.Ticks.{Ticks};

    /// Takes a picture of the studio as it is, where few enough frames are in flight: the frame
    /// holds what is active, the clock rises, and a fade goes on by one frame. The action began
    /// with this call, or nothing became active or inactive since.
    pub fn video_tick(&mut self, alloc: Global) -> Result<Ticked, NoMemory>
        requires shape { StudioShape self.old.present }
        requires settled { IsTrue (keeps_activity self.old) }
        requires clock { self.old.present.graph.clock < 4294967295 }
        ensures reply { IfOk result (λ ticked. Ticks self.old.present ticked) }
        ensures state { OnOk result (self.new ≡ tick_done self.old) }
        ensures shape { StudioShape self.new.present }
        ensures err { OnErr result (self.new ≡ self.old) }
    {
        if self.graph.frames() >= MOST_FRAMES {
            return Ok(Ticked::NoFrame);
        }
        let shot = self.shot(alloc)?;
        let number = self.graph.clock();
        let recording = self.recording.of_tick();
        let Ok(()) = self.graph.hold_frame(number) else {
            drop(shot);
            return Err(NoMemory);
        };
        self.graph.set_clock(number + 1);
        self.graph.has_shape();
        let change = self.bus.advance();
        self.show_program();
        Ok(Ticked::Frame {
            number,
            shot,
            recording,
            ended: change.ended,
        })
    }
}
