//! How a history gets full.
use crate::tests::conversations::arrive;
use crate::tests::engines::{ARRIVE, FROM, ONE, engine, expect_journal};
use mix_engine::{ActFault, Engine, Full};
use mix_model::Action;
use std::alloc::Global;
use std::process::Abort;

/// An action finds no room in a history of 2 actions and 59 bytes.
fn expect_full(rt: &impl Abort, alloc: Global, engine: &mut Engine, action: Action) {
    let answer = engine.act(alloc, FROM, action);
    let full = matches!(
        &answer,
        Err(ActFault::HistoryFull {
            turns: 2,
            bytes: 59,
        })
    );
    drop(answer);
    assert!(rt; full);
}

#[test]
fn a_full_history_refuses_and_remembers_the_first_refusal(rt: HostRuntime) {
    let alloc = rt.alloc();
    let mut engine = engine(&rt, alloc, 2);
    arrive(&rt, alloc, &mut engine);
    expect_full(&rt, alloc, &mut engine, Action::Leave { conn: ONE });
    expect_full(&rt, alloc, &mut engine, ARRIVE);
    let first = engine.full();
    expect_journal(&rt, &engine, 2);
    drop(engine);
    let remembered = matches!(
        first,
        Some(Full {
            turns: 2,
            bytes: 59,
            line: 4,
        })
    );
    assert!(rt; remembered);
}
