//! The scene, layer by layer.
ghost use Rattle.std.specs.Prelude.{◌≡◌, ◌<◌, ◌≤◌, ◌++◌, ◌∷◌, [], IfOk, IsTrue};
ghost use Rattle.mix_model.specs.Plans.{is_draw, is_shot};

use crate::layers::layer;
use mix_base::{ListOf, NoMemory};
use mix_model::{Draw, DrawList, Shot};
use std::alloc::Global;

/// A shot of nothing.
#[tactic(auto, unfolding(mix_model::specs::Plans::is_shot))]
fn nothing(alloc: Global) -> Shot
    ensures { IsTrue (is_shot 0 result) }
{
    Shot {
        from: ListOf::from_vec(Vec::new(alloc)),
        to: None,
        t: 0,
        n: 1,
        over: ListOf::from_vec(Vec::new(alloc)),
    }
}

/// The draws with one more at the end.
fn pushed(draws: DrawList, draw: Draw) -> Result<DrawList, NoMemory>
    ensures { IfOk result (λ all. all ≡ draws ++ draw ∷ []) }
{
    let mut draws = draws.into_vec();
    match draws.push(draw) {
        Ok(()) => Ok(ListOf::from_vec(draws)),
        Err(failed) => {
            drop(failed);
            drop(draws);
            Err(NoMemory)
        }
    }
}

/// The shot with one draw more on top.
#[tactic(auto, unfolding(mix_model::specs::Plans::is_shot))]
fn with(shot: Shot, draw: Draw) -> Result<Shot, NoMemory>
    requires shot { IsTrue (is_shot 0 shot) }
    requires draw { IsTrue (is_draw draw) }
    requires since { draw.since ≡ 0 }
    ensures { IfOk result (λ shot. IsTrue (is_shot 0 shot)) }
{
    let Shot {
        from,
        to,
        t,
        n,
        over,
    } = shot;
    let Ok(from) = pushed(from, draw) else {
        drop(to);
        drop(over);
        return Err(NoMemory);
    };
    Ok(Shot {
        from,
        to,
        t,
        n,
        over,
    })
}

/// The shot with the layer of this number on top.
fn with_layer(alloc: Global, shot: Shot, number: u8) -> Result<Shot, NoMemory>
    requires shot { IsTrue (is_shot 0 shot) }
    requires number { number < 12 }
    ensures { IfOk result (λ shot. IsTrue (is_shot 0 shot)) }
{
    match layer(alloc, number) {
        Ok(draw) => with(shot, draw),
        Err(NoMemory) => {
            drop(shot);
            Err(NoMemory)
        }
    }
}

/// So many layers of the scene, from the lowest on.
pub fn scene(alloc: Global, layers: u32) -> Result<Shot, NoMemory>
    requires { layers ≤ 12 }
    ensures { IfOk result (λ shot. IsTrue (is_shot 0 shot)) }
{
    let mut shot = nothing(alloc);
    for number in 0..layers {
        shot = with_layer(alloc, shot, number as u8)?;
    }
    Ok(shot)
}
