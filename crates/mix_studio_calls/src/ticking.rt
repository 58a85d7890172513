//! Frames that are taken and given back, and sources that are destroyed.
ghost use Rattle.mix_model.specs.WholeShape.{StudioShape};

use crate::words::{say, say_maybe, say_truth};
use mix_base::NoMemory;
use mix_model::Shot;
use mix_studio::{Studio, Ticked};
use std::alloc::Global;
use std::fmt::Write;

/// A frame is taken, in an action of its own.
pub fn tick(alloc: Global, found: &mut String, studio: &mut Studio) -> Result<(), NoMemory>
    requires shape { StudioShape studio.old.present }
    ensures shape { StudioShape studio.new.present }
{
    studio.begin_changes();
    if studio.clocks().0 >= 1000 {
        return say(found, "too late");
    }
    match studio.video_tick(alloc)? {
        Ticked::NoFrame => say(found, "no frame"),
        Ticked::Frame {
            number,
            shot,
            recording,
            ended,
        } => {
            let said = say_frame(found, number, &shot);
            drop(shot);
            said?;
            say_rest(found, recording, ended)
        }
    }
}

/// Writes how far the fade of a frame is, and how many draws it has of each scene and over them.
fn say_frame(found: &mut String, number: u64, shot: &Shot) -> Result<(), NoMemory> {
    let from = shot.from.as_slice().len();
    write!(
        found,
        "frame {number} at {} of {} draws {from}",
        shot.t, shot.n
    )?;
    if let Some(to) = &shot.to {
        write!(found, " to {}", to.as_slice().len())?;
    }
    Ok(write!(found, " over {}", shot.over.as_slice().len())?)
}

/// Writes which recording a frame belongs to, and whether a fade ended.
fn say_rest(found: &mut String, recording: Option<u64>, ended: bool) -> Result<(), NoMemory> {
    if let Some(recording) = recording {
        write!(found, " in {recording}")?;
    }
    say(found, if ended { " ended" } else { "" })
}

pub fn done(found: &mut String, studio: &mut Studio, frame: u64) -> Result<(), NoMemory>
    requires shape { StudioShape studio.old.present }
    ensures shape { StudioShape studio.new.present }
{
    let was = studio.frame_done(frame);
    say_truth(found, was)
}

pub fn destroy(found: &mut String, studio: &mut Studio) -> Result<(), NoMemory>
    requires shape { StudioShape studio.old.present }
    ensures shape { StudioShape studio.new.present }
{
    let destroyed = studio.destroy();
    say_maybe(found, destroyed)
}
