//! New sources, each made in an action of its own.
ghost use Rattle.std.specs.Prelude.{◌≡◌, ◌&&◌, IsTrue, false, true};
ghost use Rattle.mix_model.specs.Causes.{late_cause, scene_cause};
ghost use Rattle.mix_model.specs.Edits.{scene_created, shown_input_created};
ghost use Rattle.mix_model.specs.Holders.{has_name};
ghost use Rattle.mix_model.specs.Rows.{is_input};
ghost use Rattle.mix_model.specs.Sets.{has};
ghost use Rattle.mix_model.specs.Values.{are_settings, is_place};
ghost use Rattle.mix_model.specs.WholeShape.{StudioShape};
ghost use Rattle.mix_requests.specs.Ready.{MayMake};
ghost use Rattle.mix_requests.specs.Refusals.{refused_by};
ghost use Rattle.mix_requests.specs.Sources.{Edits, edited_alone};

use crate::Refused;
use mix_base::{Name, Serial};
use mix_model::{ItemSpec, Kind, Settings};
use mix_studio::Studio;

/// A scene more, last in the registry: 601 where a named source has the name, 603 where there would be
/// too much.
pub fn make_scene(studio: &mut Studio, name: Name) -> Result<(), Refused>
    requires ready { MayMake studio.old }
    ensures edits { Edits result studio.old studio.new
        (refused_by (scene_cause studio.old.present.graph name
        (scene_created name studio.old.present.graph)))
        (edited_alone (scene_created name) studio.old.present) }
    ensures shape { StudioShape studio.new.present }
{
    let graph = studio.graph_mut();
    let made = graph.create_scene(name);
    graph.has_shape();
    match made {
        Ok(_) => Ok(()),
        Err(fault) => Err(Refused::from(fault)),
    }
}

/// An input more, last in the registry, with an item on top of a scene: 603 where there would be too
/// much.
pub fn make_input(
    studio: &mut Studio,
    name: Name,
    kind: Kind,
    settings: Settings,
    parent: Serial,
    spec: ItemSpec,
) -> Result<(), Refused>
    requires ready { MayMake studio.old }
    requires input { IsTrue (is_input kind && are_settings kind settings) }
    requires place { IsTrue (is_place spec.place) }
    requires parent { has parent studio.old.present.graph.scenes ≡ true }
    requires free { has_name studio.old.present.graph name ≡ false }
    ensures edits { Edits result studio.old studio.new
        (refused_by (late_cause
        (shown_input_created name kind settings parent spec studio.old.present.graph)))
        (edited_alone (shown_input_created name kind settings parent spec) studio.old.present) }
    ensures shape { StudioShape studio.new.present }
{
    let graph = studio.graph_mut();
    let made = graph.create_input(name, kind, settings, Some((parent, spec)));
    graph.has_shape();
    match made {
        Ok(_) => Ok(()),
        Err(fault) => Err(Refused::from(fault)),
    }
}
