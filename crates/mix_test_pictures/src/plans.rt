//! What no clause says: that there is memory for a plan, and that the plan of a small tree is the one
//! that the rules work out by hand.
use crate::small::{Small, build};
use crate::trouble::Trouble;
use mix_base::Serial;
use mix_model::{Blend, Draw, DrawList, Settings};
use mix_plan::plan;
use std::alloc::Global;
use std::test::Fail;

/// The plan of these sources of the small tree.
fn planned(alloc: Global, roots: &[Serial]) -> Result<DrawList, Trouble> {
    let tree = build(alloc)?;
    let plan = plan_in(alloc, &tree, roots);
    drop(tree);
    plan
}

/// The plan of these sources of a tree.
#[tactic(auto, unfolding(mix_model::specs::Values::is_canvas))]
fn plan_in(alloc: Global, tree: &Small, roots: &[Serial]) -> Result<DrawList, Trouble> {
    if !tree.are_rows(roots) {
        return Err(Trouble::Wrong);
    }
    Ok(plan(alloc, tree, roots, (320, 180))?)
}

fn color_of(draw: &Draw) -> u32 {
    match &draw.settings {
        Settings::Color { color, .. } => *color,
        _ => 0,
    }
}

/// Of each step how far to the right it goes, and the size of what stands there.
fn steps_of(alloc: Global, draw: &Draw) -> Result<Vec<(i32, u32, u32)>, Trouble> {
    let mut steps = Vec::new(alloc);
    for step in draw.steps.as_slice() {
        steps.push((step.place.x, step.width, step.height))?;
    }
    Ok(steps)
}

/// A draw: its colour, the tick since when its input is active, how it meets what is below, and its
/// steps.
type Wanted = (u32, u64, Blend, &'static [(i32, u32, u32)]);

/// The draws of the top scene and of the red source.
static DRAWS: [Wanted; 5] = [
    (255, 5, Blend::Normal, &[(0, 2, 1)]),
    (65535, 6, Blend::Darken, &[(10, 320, 180), (3, 1, 1)]),
    (255, 5, Blend::Multiply, &[(20, 320, 180), (1, 2, 1)]),
    (255, 5, Blend::Normal, &[(20, 320, 180), (2, 2, 1)]),
    (255, 5, Blend::Normal, &[]),
];

fn is_so(alloc: Global, draw: &Draw, wanted: &Wanted) -> Result<bool, Trouble> {
    let (color, since, blend, steps) = *wanted;
    let found = steps_of(alloc, draw)?;
    let same = found.as_slice() == steps;
    drop(found);
    Ok(same && color_of(draw) == color && draw.since == since && draw.blend == blend)
}

/// Whether the draws are those, one for one.
fn are_so(alloc: Global, draws: &[Draw]) -> Result<bool, Trouble> {
    for (draw, wanted) in draws.iter().zip(DRAWS.iter()) {
        if !is_so(alloc, draw, wanted)? {
            return Ok(false);
        }
    }
    Ok(draws.len() == DRAWS.len())
}

#[test]
fn each_way_down_to_an_input_is_one_draw(rt: HostRuntime) -> Result<(), Fail> {
    let plan = planned(rt.alloc(), &[Serial(1), Serial(5)])?;
    let same = are_so(rt.alloc(), plan.as_slice());
    drop(plan);
    assert!(rt; same?);
    Ok(())
}

#[test]
fn nothing_is_drawn_of_a_tone_and_of_an_empty_scene(rt: HostRuntime) -> Result<(), Fail> {
    let plan = planned(rt.alloc(), &[Serial(7), Serial(4)])?;
    let count = plan.as_slice().len();
    drop(plan);
    assert_eq!(rt; count, 0);
    Ok(())
}
