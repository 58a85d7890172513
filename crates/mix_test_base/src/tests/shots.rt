//! Copies of what a picture and its sound are made of.
use crate::tests::have::have;
use crate::tests::places::{corner, is_corner, is_white, new_sound, white};
use mix_base::ListOf;
use mix_model::{Blend, Block, Draw, DrawList, Picture, Shot, Step, Voice};
use std::alloc::Global;
use std::process::Abort;

/// A white pixel in one step.
fn white_draw(rt: &impl Abort, alloc: Global) -> Draw {
    let step = Step {
        place: corner(),
        width: 1,
        height: 1,
    };
    Draw {
        settings: white(rt, alloc),
        since: 0,
        steps: ListOf::from_vec(have(rt, Vec::from_slice(alloc, &[step]))),
        blend: Blend::Screen,
    }
}

fn one_draw(rt: &impl Abort, alloc: Global) -> DrawList {
    let mut draws = Vec::new(alloc);
    have(rt, draws.push(white_draw(rt, alloc)));
    ListOf::from_vec(draws)
}

/// Whether it is the one step of a white draw.
fn is_step(step: &Step) -> bool {
    is_corner(&step.place) && step.width == 1 && step.height == 1
}

fn expect_white_draw(rt: &impl Abort, draw: &Draw) {
    assert!(rt; is_white(&draw.settings));
    assert!(rt; draw.steps.as_slice().len() == 1);
    for step in draw.steps.as_slice() {
        assert!(rt; is_step(step));
    }
    assert!(rt; draw.blend == Blend::Screen);
}

#[test]
fn a_copied_shot_has_its_draws(rt: HostRuntime) {
    let alloc = rt.alloc();
    let shot = Shot {
        from: one_draw(&rt, alloc),
        to: Some(one_draw(&rt, alloc)),
        t: 1,
        n: 4,
        over: ListOf::from_vec(Vec::new(alloc)),
    };
    let copy = have(&rt, shot.copy(alloc));
    drop(shot);
    assert!(rt; copy.from.as_slice().len() == 1);
    for draw in copy.from.as_slice() {
        expect_white_draw(&rt, draw);
    }
    assert!(rt; copy.to.is_some());
    assert!(rt; copy.t == 1 && copy.n == 4);
    drop(copy);
}

#[test]
fn a_copied_draw_is_equal(rt: HostRuntime) {
    let alloc = rt.alloc();
    let draw = white_draw(&rt, alloc);
    let copy = have(&rt, draw.copy(alloc));
    drop(draw);
    expect_white_draw(&rt, &copy);
    drop(copy);
}

#[test]
fn a_copied_picture_is_equal(rt: HostRuntime) {
    let alloc = rt.alloc();
    let picture = Picture {
        width: 1,
        height: 1,
        rgba: ListOf::from_vec(have(&rt, Vec::from_slice(alloc, &[1, 2, 3, 255]))),
    };
    let copy = have(&rt, picture.copy(alloc));
    drop(picture);
    assert!(rt; copy.rgba.as_slice() == [1, 2, 3, 255].as_slice());
    drop(copy);
}

#[test]
fn a_copied_block_is_equal(rt: HostRuntime) {
    let alloc = rt.alloc();
    let block = Block {
        tracks: ListOf::from_vec(have(&rt, Vec::from_slice(alloc, &[-5, 5]))),
    };
    let copy = have(&rt, block.copy(alloc));
    drop(block);
    assert!(rt; copy.tracks.as_slice() == [-5, 5].as_slice());
    drop(copy);
}

#[test]
fn a_copied_voice_is_equal(rt: HostRuntime) {
    let voice = Voice {
        settings: white(&rt, rt.alloc()),
        sound: new_sound(),
        w: 1,
        n: 4,
    };
    let copy = have(&rt, voice.copy());
    drop(voice);
    assert!(rt; is_white(&copy.settings));
    drop(copy);
}
