//! Scenes that are removed, frames that are given back, and rows that are destroyed.
ghost use Rattle.std.specs.Prelude.{◌≡◌, ◌≤◌, ◌==◌, IsTrue, None, false, is_some, length};
ghost use Rattle.std.specs.Prelude.{slice_get, true};
ghost use Rattle.std.specs.List.{list_any};
ghost use Rattle.mix_model.specs.Lookups.{registry};
ghost use Rattle.mix_model.specs.Program.{forget_scene};
ghost use Rattle.mix_model.specs.Sets.{has, is_distinct};
ghost use Rattle.mix_model.specs.Studio.{frame_ended, other_scene, row_destroyed, scene_removed};
ghost use Rattle.mix_model.specs.WholeShape.{StudioShape};

use crate::Studio;
use mix_base::Serial;
use mix_graph::Graph;
use mix_transition::BusChange;

impl Studio {
    ghost use Rattle.mix_studio.specs.Studios.{studio_edited};

    /// Removes a scene of the registry, one of two or more: the program comes off it first. Its row
    /// stays, with its items, until it is destroyed.
    pub fn remove_scene(&mut self, scene: Serial) -> BusChange
        requires shape { StudioShape self.old.present }
        requires scene { IsTrue (has scene self.old.present.graph.scenes) }
        requires two { 2 ≤ length self.old.present.graph.scenes }
        ensures reply { result ≡ (forget_scene self.old.present.program scene
            (other_scene scene self.old.present.graph)).change }
        ensures state { self.new ≡ studio_edited (scene_removed scene) self.old }
        ensures shape { StudioShape self.new.present }
    {
        let other = other_scene(&self.graph, scene);
        let change = self.bus.forget(scene, other);
        self.show_program();
        let _ = self.graph.remove_source(scene);
        self.graph.has_shape();
        change
    }

    /// Ends a frame in flight. Whether there was one of this number.
    pub fn frame_done(&mut self, number: u64) -> bool
        requires shape { StudioShape self.old.present }
        ensures reply { result
            ≡ list_any (λ f. f.number == number) self.old.present.graph.frames }
        ensures ok { result ≡ true → self.new ≡ studio_edited (frame_ended number) self.old }
        ensures err { result ≡ false → self.new ≡ self.old }
        ensures shape { StudioShape self.new.present }
    {
        let ended = self.graph.release_frame(number).is_ok();
        self.graph.has_shape();
        ended
    }

    /// Destroys the first row that dies, with its items, and no other; none where nothing dies.
    pub fn destroy(&mut self) -> Option<Serial>
        requires shape { StudioShape self.old.present }
        ensures reply { result ≡ slice_get self.old.present.graph.dying 0 }
        ensures ok { is_some result ≡ true → self.new ≡ studio_edited row_destroyed self.old }
        ensures err { result ≡ None → self.new ≡ self.old }
        ensures shape { StudioShape self.new.present }
    {
        if self.graph.dying() == 0 {
            return None;
        }
        let destroyed = self.graph.destroy_next();
        self.graph.has_shape();
        destroyed
    }
}

/// The first other scene of the registry, which has two or more. Each is there once, so that it is
/// one of the first two.
fn other_scene(graph: &Graph, scene: Serial) -> Serial
    requires two { 2 ≤ length graph.now.present.scenes }
    requires once { IsTrue (is_distinct (registry graph.now.present)) }
    ensures value { result ≡ other_scene scene graph.now.present }
{
    let first = graph.scene_at(0).unwrap_or(Serial(0));
    if first.0 != scene.0 {
        return first;
    }
    graph.scene_at(1).unwrap_or(Serial(0))
}
