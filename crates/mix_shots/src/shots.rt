//! Shots that the lines of a table give.
ghost use Rattle.std.specs.Prelude.{◌≡◌, ◌<◌, ◌++◌, ◌∷◌, [], IfOk, IsTrue};
ghost use Rattle.mix_model.specs.Plans.{are_paintable, are_paintable_or_none, is_draw, is_shot};

use crate::draws::draw_of;
use mix_base::{JsonObj, ListOf, NoMemory};
use mix_json::need_text;
use mix_model::{Draw, DrawList, Shot};
use mix_tables::object;
use std::alloc::Global;

/// The shot at `t` of `n` of the draws that the cells from a place on say. The `list` of a draw says
/// whether it belongs `to` what is faded to, or `over` all.
pub fn shot_of(alloc: Global, line: &str, place: usize, t: u32, n: u32) -> Result<Shot, NoMemory>
    requires weights { t < n }
    ensures { IfOk result (λ shot. IsTrue (is_shot 0 shot)) }
{
    let mut shot = nothing(alloc, t, n);
    for text in line.split('\t').skip(place) {
        shot = with_cell(alloc, shot, text)?;
    }
    Ok(shot)
}

/// A shot of nothing.
#[tactic(auto, unfolding(mix_model::specs::Plans::is_shot))]
fn nothing(alloc: Global, t: u32, n: u32) -> Shot
    requires weights { t < n }
    ensures { IsTrue (is_shot 0 result) }
{
    Shot {
        from: ListOf::from_vec(Vec::new(alloc)),
        to: None,
        t,
        n,
        over: ListOf::from_vec(Vec::new(alloc)),
    }
}

/// The shot with the draw of a cell; the same where the cell has none.
fn with_cell(alloc: Global, shot: Shot, text: &str) -> Result<Shot, NoMemory>
    requires { IsTrue (is_shot 0 shot) }
    ensures { IfOk result (λ shot. IsTrue (is_shot 0 shot)) }
{
    match object(alloc, text) {
        Ok(Some(fields)) => {
            let shot = with_object(alloc, shot, &fields);
            drop(fields);
            shot
        }
        Ok(None) => Ok(shot),
        Err(NoMemory) => {
            drop(shot);
            Err(NoMemory)
        }
    }
}

fn with_object(alloc: Global, shot: Shot, fields: &JsonObj) -> Result<Shot, NoMemory>
    requires { IsTrue (is_shot 0 shot) }
    ensures { IfOk result (λ shot. IsTrue (is_shot 0 shot)) }
{
    match draw_of(alloc, fields) {
        Ok(Some(draw)) => with_draw(alloc, shot, draw, fields),
        Ok(None) => Ok(shot),
        Err(NoMemory) => {
            drop(shot);
            Err(NoMemory)
        }
    }
}

fn with_draw(alloc: Global, shot: Shot, draw: Draw, fields: &JsonObj) -> Result<Shot, NoMemory>
    requires shot { IsTrue (is_shot 0 shot) }
    requires draw { IsTrue (is_draw draw) }
    requires since { draw.since ≡ 0 }
    ensures { IfOk result (λ shot. IsTrue (is_shot 0 shot)) }
{
    if is_in(fields, "to") {
        with_to(alloc, shot, draw)
    } else if is_in(fields, "over") {
        with_over(shot, draw)
    } else {
        with(shot, draw)
    }
}

fn is_in(fields: &JsonObj, list: &str) -> bool {
    match need_text(fields, "list") {
        Ok(word) => word.as_str() == list,
        Err(_) => false,
    }
}

/// The shot with one draw more, on top of its first list.
#[tactic(auto, unfolding(mix_model::specs::Plans::is_shot))]
fn with(shot: Shot, draw: Draw) -> Result<Shot, NoMemory>
    requires shot { IsTrue (is_shot 0 shot) }
    requires draw { IsTrue (is_draw draw) }
    requires since { draw.since ≡ 0 }
    ensures { IfOk result (λ shot. IsTrue (is_shot 0 shot)) }
{
    let Shot {
        from,
        to,
        t,
        n,
        over,
    } = shot;
    let Ok(from) = pushed(from, draw) else {
        drop(to);
        drop(over);
        return Err(NoMemory);
    };
    Ok(Shot {
        from,
        to,
        t,
        n,
        over,
    })
}

/// The shot with one draw more over all.
#[tactic(auto, unfolding(mix_model::specs::Plans::is_shot))]
fn with_over(shot: Shot, draw: Draw) -> Result<Shot, NoMemory>
    requires shot { IsTrue (is_shot 0 shot) }
    requires draw { IsTrue (is_draw draw) }
    requires since { draw.since ≡ 0 }
    ensures { IfOk result (λ shot. IsTrue (is_shot 0 shot)) }
{
    let Shot {
        from,
        to,
        t,
        n,
        over,
    } = shot;
    let Ok(over) = pushed(over, draw) else {
        drop(from);
        drop(to);
        return Err(NoMemory);
    };
    Ok(Shot {
        from,
        to,
        t,
        n,
        over,
    })
}

/// The shot with one draw more in the list that it fades to.
#[tactic(auto, unfolding(mix_model::specs::Plans::is_shot))]
fn with_to(alloc: Global, shot: Shot, draw: Draw) -> Result<Shot, NoMemory>
    requires shot { IsTrue (is_shot 0 shot) }
    requires draw { IsTrue (is_draw draw) }
    requires since { draw.since ≡ 0 }
    ensures { IfOk result (λ shot. IsTrue (is_shot 0 shot)) }
{
    let Shot {
        from,
        to,
        t,
        n,
        over,
    } = shot;
    let Ok(to) = pushed(list_or_empty(alloc, to), draw) else {
        drop(from);
        drop(over);
        return Err(NoMemory);
    };
    Ok(Shot {
        from,
        to: Some(to),
        t,
        n,
        over,
    })
}

fn list_or_empty(alloc: Global, draws: Option<DrawList>) -> DrawList
    requires { IsTrue (are_paintable_or_none 0 draws) }
    ensures { IsTrue (are_paintable 0 result) }
{
    match draws {
        Some(draws) => draws,
        None => ListOf::from_vec(Vec::new(alloc)),
    }
}

/// The draws with one more at the end.
fn pushed(draws: DrawList, draw: Draw) -> Result<DrawList, NoMemory>
    ensures { IfOk result (λ all. all ≡ draws ++ draw ∷ []) }
{
    let mut draws = draws.into_vec();
    match draws.push(draw) {
        Ok(()) => Ok(ListOf::from_vec(draws)),
        Err(failed) => {
            drop(failed);
            drop(draws);
            Err(NoMemory)
        }
    }
}
