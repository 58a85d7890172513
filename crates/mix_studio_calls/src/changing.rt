//! Calls that change the program, the preview, studio mode and the sources.
ghost use Rattle.mix_model.specs.WholeShape.{StudioShape};

use crate::room::{has_two, lists};
use crate::words::{number, say, say_change, say_truth, serial};
use mix_base::{ItemId, NoMemory, Serial};
use mix_studio::Studio;

pub fn set(found: &mut String, studio: &mut Studio, scene: Serial) -> Result<(), NoMemory>
    requires shape { StudioShape studio.old.present }
    ensures shape { StudioShape studio.new.present }
{
    if !lists(studio, scene) {
        return say(found, "no scene");
    }
    let change = studio.set_program(scene);
    say_change(found, change)
}

pub fn remove(found: &mut String, studio: &mut Studio, scene: Serial) -> Result<(), NoMemory>
    requires shape { StudioShape studio.old.present }
    ensures shape { StudioShape studio.new.present }
{
    if !lists(studio, scene) || !has_two(studio) {
        return say(found, "no scene");
    }
    let change = studio.remove_scene(scene);
    say_change(found, change)
}

pub fn preview(found: &mut String, studio: &mut Studio, scene: Serial) -> Result<(), NoMemory>
    requires shape { StudioShape studio.old.present }
    ensures shape { StudioShape studio.new.present }
{
    if !lists(studio, scene) || !studio.studio_mode() {
        return say(found, "no scene");
    }
    studio.set_preview(scene);
    say(found, "set")
}

pub fn mode(found: &mut String, studio: &mut Studio, enabled: bool) -> Result<(), NoMemory>
    requires shape { StudioShape studio.old.present }
    ensures shape { StudioShape studio.new.present }
{
    studio.set_studio_mode(enabled);
    say(found, "set")
}

/// `fade 100` or `cut 100`.
#[tactic(auto, unfolding(mix_model::specs::Values::is_duration))]
pub fn choose(found: &mut String, studio: &mut Studio, given: &str) -> Result<(), NoMemory>
    requires shape { StudioShape studio.old.present }
    ensures shape { StudioShape studio.new.present }
{
    let (word, ms) = given.split_once(' ').unwrap_or((given, ""));
    let ms = number(ms);
    if ms < 50 || 20_000 < ms {
        return say(found, "out of range");
    }
    studio.choose_transition(word == "fade", ms);
    say(found, "chosen")
}

/// `ITEM of SOURCE`: the item is hidden, through the sources that the studio lends.
pub fn hide(found: &mut String, studio: &mut Studio, given: &str) -> Result<(), NoMemory>
    requires shape { StudioShape studio.old.present }
    ensures shape { StudioShape studio.new.present }
{
    let (item, parent) = given.split_once(" of ").unwrap_or((given, ""));
    let hidden = hide_item(studio, ItemId(number(item)), serial(parent));
    say_truth(found, hidden)
}

fn hide_item(studio: &mut Studio, item: ItemId, parent: Serial) -> bool
    requires shape { StudioShape studio.old.present }
    ensures shape { StudioShape studio.new.present }
{
    let graph = studio.graph_mut();
    let hidden = graph.set_enabled(parent, item, false).is_ok();
    graph.has_shape();
    hidden
}
