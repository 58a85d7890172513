//! What a studio is asked before a call.
ghost use Rattle.std.specs.Prelude.{◌≤◌, IsTrue, length};
ghost use Rattle.mix_model.specs.Sets.{has};

use mix_base::Serial;
use mix_studio::Studio;

/// Whether the scene is that of the registry at this index.
fn lists_at(studio: &Studio, index: u32, scene: Serial) -> bool
    ensures { IsTrue result → IsTrue (has scene studio.now.present.graph.scenes) }
{
    match studio.graph().scene_at(index) {
        Some(listed) => listed == scene,
        None => false,
    }
}

/// Whether the scene is one of the first two of the registry.
pub fn lists(studio: &Studio, scene: Serial) -> bool
    ensures { IsTrue result → IsTrue (has scene studio.now.present.graph.scenes) }
{
    lists_at(studio, 0, scene) || lists_at(studio, 1, scene)
}

/// Whether the registry has two scenes or more.
pub fn has_two(studio: &Studio) -> bool
    ensures { IsTrue result → 2 ≤ length studio.now.present.graph.scenes }
{
    studio.graph().scene_at(1).is_some()
}
