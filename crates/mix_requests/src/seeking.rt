//! Sources that requests name, and the statuses of those that aren't found.
ghost use Rattle.std.specs.Prelude.{◌≡◌, IfOk, true};
ghost use Rattle.mix_model.specs.Rows.{is_scene};
ghost use Rattle.mix_model.specs.Sets.{has};
ghost use Rattle.mix_requests.specs.Sought.{scene_sought};

use mix_base::{Serial, Text};
use mix_graph::Graph;
use mix_model::Kind;

/// The scene of a name: 600 where no source has it, 602 where it is no scene.
#[tactic(auto, unfolding(crate::specs::Sought::scene_sought))]
pub fn scene_sought(graph: &Graph, name: &Text) -> Result<Serial, u16>
    ensures value { result ≡ scene_sought graph.now.present name.now }
    ensures registered { IfOk result (λ x. has x graph.now.present.scenes ≡ true) }
{
    graph.has_shape();
    let Some(serial) = graph.find(name) else {
        return Err(600);
    };
    let Some(row) = graph.row(serial) else {
        unreachable!();
    };
    if is_scene(row.kind) {
        Ok(serial)
    } else {
        Err(602)
    }
}

/// Whether a source of this kind is a scene.
fn is_scene(kind: Kind) -> bool
    ensures value { result ≡ is_scene kind }
{
    match kind {
        Kind::Scene => true,
        Kind::Group | Kind::Color | Kind::Checker | Kind::Scroll | Kind::Raster | Kind::Tone =>
            false,
    }
}
