//! Frames in flight of a graph.
ghost use Rattle.std.specs.Prelude.{◌≡◌, ◌==◌, IsTrue, OnOk, OnErr, not};
ghost use Rattle.std.specs.List.{list_any};
ghost use Rattle.mix_model.specs.Marks.{edited};
ghost use Rattle.mix_model.specs.Causes.{frame_cause};
ghost use Rattle.mix_model.specs.Edits.{frame_held};
ghost use Rattle.mix_shape.specs.Refused.{RefusedBy};

use crate::Graph;
use mix_model::GraphFault;

impl Graph {
    /// Holds the rows that are active, for a frame that isn't in flight.
    pub fn hold_frame(&mut self, number: u64) -> Result<(), GraphFault>
        requires fresh { IsTrue
            (not (list_any (λ f. f.number == number) self.old.present.frames)) }
        ensures ok { OnOk result (self.new ≡ edited (frame_held number) self.old) }
        ensures err { OnErr result (self.new ≡ self.old) }
        ensures refused { RefusedBy (frame_cause self.old.present) result }
    {
        match self.sources.hold_frame(self.alloc, number) {
            Err(fault) => Err(fault),
            Ok(()) => {
                self.tally.settle(&mut self.sources);
                Ok(())
            }
        }
    }
}
