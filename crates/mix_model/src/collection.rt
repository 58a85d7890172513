//! What a studio opens with.
ghost use Rattle.std.specs.Prelude.{◌≡◌, IfOk};

use crate::{Blend, Kind, LineList, Place, Settings, Sound};
use mix_base::{Bytes32, ListOf, Name, NoMemory, Rate, Text};
use std::alloc::Global;

/// A line of a collection, with all defaults filled in.
#[derive(Drop)]
pub enum Line {
    Scene {
        name: Name,
    },
    Input {
        kind: Kind,
        name: Name,
        settings: Settings,
    },
    /// A group, and an item on top of its parent that shows it.
    Group {
        name: Name,
        parent: Name,
        enabled: bool,
        locked: bool,
        place: Place,
        blend: Blend,
    },
    /// An item on top of its parent.
    Item {
        parent: Name,
        child: Name,
        enabled: bool,
        locked: bool,
        place: Place,
        blend: Blend,
    },
    Sound {
        name: Name,
        sound: Sound,
    },
    /// One of the channels 1 to 63.
    Channel {
        channel: u32,
        name: Name,
    },
}

/// What a studio opens with.
#[derive(Drop)]
pub struct Collection {
    /// Width and height in pixels.
    pub canvas: (u32, u32),
    pub rate: Rate,
    /// Whether pictures are recorded as I420, else as RGBA.
    pub i420: bool,
    /// The tracks that are recorded, a bit for each.
    pub tracks: u8,
    /// The password and the salt of a login.
    pub secret: Option<(Text, Bytes32)>,
    pub lines: LineList,
    /// Whether the program changes by a fade, else by a cut.
    pub fade: bool,
    /// The length of a fade in milliseconds.
    pub ms: u32,
    /// The preview, where the studio opens in studio mode.
    pub studio: Option<Name>,
    pub program: Name,
}

impl Line {
    pub fn copy(&self) -> Result<Line, NoMemory>
        ensures value { IfOk result (λ copy. copy ≡ self.now) }
    {
        let copy = match self {
            Line::Scene { name } => Line::Scene { name: name.share() },
            Line::Input {
                kind,
                name,
                settings,
            } => Line::Input {
                kind: *kind,
                name: name.share(),
                settings: settings.copy()?,
            },
            Line::Group {
                name,
                parent,
                enabled,
                locked,
                place,
                blend,
            } => Line::Group {
                name: name.share(),
                parent: parent.share(),
                enabled: *enabled,
                locked: *locked,
                place: *place,
                blend: *blend,
            },
            Line::Item {
                parent,
                child,
                enabled,
                locked,
                place,
                blend,
            } => Line::Item {
                parent: parent.share(),
                child: child.share(),
                enabled: *enabled,
                locked: *locked,
                place: *place,
                blend: *blend,
            },
            Line::Sound { name, sound } => Line::Sound {
                name: name.share(),
                sound: *sound,
            },
            Line::Channel { channel, name } => Line::Channel {
                channel: *channel,
                name: name.share(),
            },
        };
        Ok(copy)
    }
}

/// The same lines once more.
fn copy_lines(alloc: Global, lines: &LineList) -> Result<LineList, NoMemory>
    ensures value { IfOk result (λ copy. copy ≡ lines.now) }
{
    let mut copies = Vec::new(alloc);
    for line in lines.as_slice() {
        copies.push(line.copy()?)?;
    }
    Ok(ListOf::from_vec(copies))
}

impl Collection {
    pub fn copy(&self, alloc: Global) -> Result<Collection, NoMemory>
        ensures value { IfOk result (λ copy. copy ≡ self.now) }
    {
        let secret = match &self.secret {
            Some((password, salt)) => Some((password.share()?, *salt)),
            None => None,
        };
        let studio = match &self.studio {
            Some(name) => Some(name.share()),
            None => None,
        };
        Ok(Collection {
            canvas: self.canvas,
            rate: self.rate,
            i420: self.i420,
            tracks: self.tracks,
            secret,
            lines: copy_lines(alloc, &self.lines)?,
            fade: self.fade,
            ms: self.ms,
            studio,
            program: self.program.share(),
        })
    }
}
