//! The row that is destroyed next.
ghost use Rattle.std.specs.Prelude.{◌≡◌, slice_get};
ghost use Rattle.mix_model.specs.Marks.{edited};
ghost use Rattle.mix_model.specs.Edits.{next_destroyed};

use crate::Graph;
use mix_base::Serial;

impl Graph {
    /// Destroys the first row that dies, with its items, and no other; none where nothing dies.
    pub fn destroy_next(&mut self) -> Option<Serial>
        ensures reply { result ≡ slice_get self.old.present.dying 0 }
        ensures state { self.new ≡ edited next_destroyed self.old }
    {
        let destroyed = self.sources.destroy_next();
        self.tally.cut(self.sources.rows().len());
        self.tally.settle(&mut self.sources);
        destroyed
    }
}
