//! What is drawn in one frame.
ghost use Rattle.std.specs.Prelude.{◌≡◌, ◌++◌, IfOk, take};

use crate::copies::copy_items;
use crate::{Blend, DrawList, Place, Settings, StepList};
use mix_base::{ListOf, NoMemory};
use std::alloc::Global;

/// One place that a draw goes through, and the size of what stands there.
#[derive(Clone, Copy)]
pub struct Step {
    pub place: Place,
    pub width: u32,
    pub height: u32,
}

/// An input that is drawn through the places of the items that lead to it, from the outside in.
#[derive(Drop)]
pub struct Draw {
    pub settings: Settings,
    pub since: u64,
    pub steps: StepList,
    pub blend: Blend,
}

/// What a frame shows: one list of draws, or in a fade two at `t` of `n`, and what lies over them.
#[derive(Drop)]
pub struct Shot {
    pub from: DrawList,
    pub to: Option<DrawList>,
    pub t: u32,
    pub n: u32,
    pub over: DrawList,
}

impl Draw {
    pub fn copy(&self, alloc: Global) -> Result<Draw, NoMemory>
        ensures value { IfOk result (λ copy. copy ≡ self.now) }
    {
        Ok(Draw {
            settings: self.settings.copy()?,
            since: self.since,
            steps: copy_items(alloc, &self.steps)?,
            blend: self.blend,
        })
    }
}

/// The same draws once more.
fn copy_draws(alloc: Global, draws: &DrawList) -> Result<DrawList, NoMemory>
    ensures value { IfOk result (λ copy. copy ≡ draws.now) }
{
    let mut copies = Vec::new(alloc);
    for draw in draws.as_slice() {
        copies.push(draw.copy(alloc)?)?;
    }
    Ok(ListOf::from_vec(copies))
}

impl Shot {
    pub fn copy(&self, alloc: Global) -> Result<Shot, NoMemory>
        ensures value { IfOk result (λ copy. copy ≡ self.now) }
    {
        let to = match &self.to {
            Some(draws) => Some(copy_draws(alloc, draws)?),
            None => None,
        };
        Ok(Shot {
            from: copy_draws(alloc, &self.from)?,
            to,
            t: self.t,
            n: self.n,
            over: copy_draws(alloc, &self.over)?,
        })
    }
}
