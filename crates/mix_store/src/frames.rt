//! Frames in flight.
ghost use Rattle.std.specs.Prelude.{◌≡◌, IfOk, OnOk, OnErr};
ghost use Rattle.mix_model.specs.Walks.{active_rows};
ghost use Rattle.mix_model.specs.Causes.{frame_cause};
ghost use Rattle.mix_model.specs.Edits.{frame_held};
ghost use Rattle.mix_shape.specs.Refused.{RefusedBy};

use crate::kept::InFlight;
use crate::settle::push_flagged;
use crate::sources::Sources;
use mix_base::{NoMemory, Serial};
use mix_model::GraphFault;
use std::alloc::Global;

impl Sources {
    /// The serials of the active rows.
    fn active_rows(&self, alloc: Global) -> Result<Vec<Serial>, NoMemory>
        ensures value { IfOk result (λ serials. serials.items ≡ active_rows self.now) }
    {
        let mut serials = Vec::new(alloc);
        serials.reserve(self.rows.len())?;
        let mut flags = vec![in alloc; false; self.rows.len()]?;
        self.flag_active(flags.as_mut_slice());
        push_flagged(self.rows.as_slice(), flags.as_slice(), &mut serials);
        Ok(serials)
    }

    /// Lists the active rows, for a frame that is taken.
    #[tactic(auto, unfolding(mix_model::specs::Causes::frame_cause, mix_model::specs::Edits::frame_held))]
    pub fn hold_frame(&mut self, alloc: Global, number: u64) -> Result<(), GraphFault>
        ensures ok { OnOk result (self.new ≡ frame_held number self.old) }
        ensures err { OnErr result (self.new ≡ self.old) }
        ensures refused { RefusedBy (frame_cause self.old) result }
    {
        if self.frames.len() >= 4 {
            return Err(GraphFault::TooMany { limit: 4 });
        }
        let Ok(serials) = self.active_rows(alloc) else {
            return Err(GraphFault::NoMemory);
        };
        if self.frames.push(InFlight { number, serials }).is_err() {
            return Err(GraphFault::NoMemory);
        }
        Ok(())
    }
}
