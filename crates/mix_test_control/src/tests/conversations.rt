//! What actions are answered where there is memory.
use crate::tests::engines::{ARRIVE, FROM, engine, expect, expect_journal, text};
use crate::tests::have::have;
use mix_base::Rate;
use mix_engine::{Engine, Head};
use mix_model::Action;
use std::alloc::Global;
use std::process::Abort;

const IDENTIFY: &str = r#"{"op":1,"d":{"rpcVersion":1,"eventSubscriptions":0}}"#;

const CREATE: &str =
    r#"{"op":6,"d":{"requestType":"CreateScene","requestId":"a","requestData":{"sceneName":"B"}}}"#;

const LIST: &str = r#"{"op":6,"d":{"requestType":"GetSceneList","requestId":"b"}}"#;

/// Connection 1 comes, and identifies.
pub fn arrive(rt: &impl Abort, alloc: Global, engine: &mut Engine) {
    expect(rt, alloc, engine, ARRIVE, 1);
    expect(rt, alloc, engine, text(rt, alloc, IDENTIFY), 2);
}

#[test]
fn a_first_conversation_is_answered_and_kept(rt: HostRuntime) {
    let alloc = rt.alloc();
    let mut engine = engine(&rt, alloc, 100);
    arrive(&rt, alloc, &mut engine);
    for (message, status) in [(CREATE, 100), (CREATE, 601), (LIST, 100)] {
        expect(&rt, alloc, &mut engine, text(&rt, alloc, message), status);
    }
    expect_journal(&rt, &engine, 5);
    assert!(rt; engine.dying() == 0);
    assert!(rt; engine.canvas() == (64, 36));
    assert!(rt; engine.full().is_none());
    drop(engine);
}

#[test]
fn an_action_that_is_not_built_changes_nothing(rt: HostRuntime) {
    let alloc = rt.alloc();
    let mut engine = engine(&rt, alloc, 2);
    let answer = have(&rt, engine.act(alloc, FROM, Action::AudioTick));
    let built = answer.is_some();
    drop(answer);
    assert!(rt; !built);
    expect_journal(&rt, &engine, 0);
    expect(&rt, alloc, &mut engine, ARRIVE, 1);
    drop(engine);
}

/// Whether a head is that of pictures of 64 by 36 at 60 frames a second, and of the tracks 1 and 2.
fn is_head(head: &Head, recording: u64) -> bool {
    let Rate { num, den } = head.rate;
    let sound = head.tracks == 3;
    let picture = head.i420 && head.width == 64 && head.height == 36 && num == 60 && den == 1;
    sound && picture && head.recording == recording
}

#[test]
fn a_record_begins_with_the_format_of_the_studio(rt: HostRuntime) {
    let engine = engine(&rt, rt.alloc(), 2);
    engine.has_shape();
    let head = engine.head(7);
    drop(engine);
    assert!(rt; is_head(&head, 7));
}
