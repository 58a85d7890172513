//! The studio on which the calls are made.
ghost use Rattle.std.specs.Prelude.{◌≡◌, IfOk, IsTrue, pos, false, true};
ghost use Rattle.mix_base.specs.Names.{is_name};
ghost use Rattle.mix_model.specs.Collections.{IsCollection};
ghost use Rattle.mix_model.specs.Values.{new_place};
ghost use Rattle.mix_model.specs.WholeShape.{StudioShape};
ghost use Rattle.mix_studio_calls.specs.Stage.{AreStageNames, stage_lines};

use mix_base::{Limits, ListOf, Name, NoMemory, Rate};
use mix_model::{Blend, Collection, Kind, Line, LineList, Place, Settings, Sound};
use mix_studio::{Setup, Studio};
use std::alloc::Global;

const CORNER: Place = Place {
    x: 0,
    y: 0,
    scale_x: 1,
    scale_y: 1,
    quarter: 0,
    align: 5,
    crop_left: 0,
    crop_top: 0,
    crop_right: 0,
    crop_bottom: 0,
};

/// The names of the sources: two scenes, a group, a colour and a tone.
#[derive(Drop)]
pub struct Names {
    pub first: Name,
    pub second: Name,
    pub group: Name,
    pub color: Name,
    pub tone: Name,
}

/// A name that is one.
fn name(text: &[u8]) -> Name
    requires named { IsTrue (is_name text.now) }
    ensures value { result ≡ text.now }
{
    match Name::read(text) {
        Ok(name) => name,
        Err(_) => unreachable!(),
    }
}

fn stage_names() -> Names
    ensures value { AreStageNames result }
{
    Names {
        first: name(b"A"),
        second: name(b"B"),
        group: name(b"G"),
        color: name(b"C"),
        tone: name(b"T"),
    }
}

fn scene(name: &Name) -> Line
    ensures value { result ≡ Line.Scene name.now }
{
    Line::Scene { name: name.share() }
}

#[tactic(auto, unfolding(mix_model::specs::Values::new_place))]
fn group(name: &Name, parent: &Name) -> Line
    ensures value { result ≡ Line.Group name.now parent.now true false new_place Blend.Normal }
{
    Line::Group {
        name: name.share(),
        parent: parent.share(),
        enabled: true,
        locked: false,
        place: CORNER,
        blend: Blend::Normal,
    }
}

#[tactic(auto, unfolding(mix_model::specs::Values::new_place))]
fn item(parent: &Name, child: &Name) -> Line
    ensures value { result ≡ Line.Item parent.now child.now true false new_place Blend.Normal }
{
    Line::Item {
        parent: parent.share(),
        child: child.share(),
        enabled: true,
        locked: false,
        place: CORNER,
        blend: Blend::Normal,
    }
}

/// A colour of one pixel.
fn color(name: &Name) -> Line
    ensures value { result ≡ Line.Input Kind.Color name.now (Settings.Color 0 1 1) }
{
    Line::Input {
        kind: Kind::Color,
        name: name.share(),
        settings: Settings::Color {
            color: 0,
            width: 1,
            height: 1,
        },
    }
}

fn tone(name: &Name) -> Line
    ensures value { result ≡ Line.Input Kind.Tone name.now (Settings.Tone 1000 24) }
{
    Line::Input {
        kind: Kind::Tone,
        name: name.share(),
        settings: Settings::Tone {
            level: 1000,
            half: 24,
        },
    }
}

/// Half as loud as it could be, in the first track alone.
fn sound(name: &Name) -> Line
    ensures value { result ≡ Line.Sound name.now
        (record { volume = 500; muted = false; tracks = 1; offset = pos 0 }) }
{
    Line::Sound {
        name: name.share(),
        sound: Sound {
            volume: 500,
            muted: false,
            tracks: 1,
            offset: 0,
        },
    }
}

fn channel(name: &Name) -> Line
    ensures value { result ≡ Line.Channel 5 name.now }
{
    Line::Channel {
        channel: 5,
        name: name.share(),
    }
}

/// A has the group G, and that the colour and the tone. B has the colour twice. Channel 5 names the
/// colour.
fn lines(alloc: Global, names: &Names) -> Result<LineList, NoMemory>
    ensures value { IfOk result (λ lines. lines ≡ stage_lines names.now.first names.now.second
        names.now.group names.now.color names.now.tone) }
{
    let lines = [
        scene(&names.first),
        scene(&names.second),
        group(&names.group, &names.first),
        color(&names.color),
        tone(&names.tone),
        item(&names.group, &names.color),
        item(&names.group, &names.tone),
        item(&names.second, &names.color),
        item(&names.second, &names.color),
        sound(&names.tone),
        channel(&names.color),
    ];
    match Vec::from_array(alloc, lines) {
        Ok(lines) => Ok(ListOf::from_vec(lines)),
        Err(_) => Err(NoMemory),
    }
}

/// A is on program and B on preview. A fade of 100 milliseconds is chosen, which are four frames.
fn stage(names: Names, lines: LineList) -> Collection
    requires named { AreStageNames names }
    requires lines { lines ≡ stage_lines names.first names.second names.group names.color
        names.tone }
    ensures opens { IsCollection result }
{
    Collection {
        canvas: (4, 2),
        rate: Rate { num: 40, den: 1 },
        i420: false,
        tracks: 1,
        secret: None,
        lines,
        fade: true,
        ms: 100,
        studio: Some(names.second),
        program: names.first,
    }
}

/// A studio that opened so.
pub fn opened(alloc: Global) -> Result<Studio, NoMemory>
    ensures shape { IfOk result (λ studio. StudioShape studio.present) }
{
    let names = stage_names();
    let Ok(lines) = lines(alloc, &names) else {
        drop(names);
        return Err(NoMemory);
    };
    let setup = Setup {
        collection: stage(names, lines),
        limits: Limits::standard(),
    };
    Studio::new(alloc, setup)
}
