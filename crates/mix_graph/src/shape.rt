//! The shape that the sources of every mixer have.
ghost use Rattle.mix_model.specs.Shape.{GraphShape};

use crate::Graph;

impl Graph {
    /// Each graph has the shape of the sources of every mixer, between any two calls. It does nothing.
    pub fn has_shape(&self)
        ensures shape { GraphShape self.now.present }
    {
        let _ = self.sources.rows();
    }
}
