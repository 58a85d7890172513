//! Passes that are split again and again, and joined.
use crate::tests::numbers::Numbers;
use crate::tests::passes::{is_next, open_turnstile, take};
use std::process::Abort;

/// The passes 0 to 4 have these counts of entries, and there is no other entry.
fn expect_counts(rt: &impl Abort, value: &Numbers) {
    for (pass, count) in [(0, 3), (1, 2), (2, 5), (3, 1), (4, 0)] {
        let found = value.in_order(pass);
        assert!(rt; found == Some(count), "pass {pass}");
    }
    assert!(rt; value.all.len() == 11);
}

#[test]
fn a_tree_of_passes_comes_back_into_one(rt: HostRuntime) {
    let (turnstile, mut first) = open_turnstile(&rt, rt.alloc(), 0);
    let Ok(mut left) = turnstile.split(&mut first) else {
        panic!(rt; "no number for a second pass")
    };
    take(&rt, &turnstile, &mut first, 3);
    let Ok(mut leaf) = turnstile.split(&mut left) else {
        panic!(rt; "no number for a third pass")
    };
    take(&rt, &turnstile, &mut left, 2);
    take(&rt, &turnstile, &mut leaf, 4);
    turnstile.join(&mut leaf, left);
    let Ok(mut right) = turnstile.split(&mut first) else {
        panic!(rt; "no number for a fourth pass")
    };
    take(&rt, &turnstile, &mut right, 1);
    turnstile.join(&mut first, right);
    take(&rt, &turnstile, &mut leaf, 1);
    turnstile.join(&mut first, leaf);
    assert!(rt; is_next(first.next(), 0, 3));
    let value = turnstile.close(first);
    expect_counts(&rt, &value);
    drop(value);
}
