//! Sources and sinks that fail, at each call and at each byte.
use crate::tests::conversation::{ANSWERS, COLLECTION, SCRIPT, first};
use crate::tests::running::{Given, expect, expect_front, repeated, replay_of};
use std::alloc::Global;
use std::test::Fail;

/// A run of the first conversation whose collection fails at one read.
fn expect_unread(alloc: Global, call: u64, output: &[u8], status: u8) -> Result<(), Fail> {
    let unread = [call];
    let given = Given {
        unread: &unread,
        ..first()
    };
    expect(alloc, given, output, status, "a read of the collection")
}

/// The collection has 88 bytes, which come by 7, and its end.
#[test]
fn a_collection_that_fails_at_any_read_gives_nothing(rt: HostRuntime) -> Result<(), Fail> {
    for call in 0u64..14 {
        expect_unread(rt.alloc(), call, b"", 5)?;
    }
    expect_unread(rt.alloc(), 14, ANSWERS, 0)
}

/// How much of the output a run of the first conversation leaves whose script fails at one read.
fn count_unheard(alloc: Global, call: u64, status: u8) -> Result<usize, Fail> {
    let unheard = [call];
    let given = Given {
        unheard: &unheard,
        ..first()
    };
    expect_front(alloc, given, ANSWERS, status, "a read of the script")
}

/// The script has 313 bytes, which come by 7, and its end. What a later failure leaves is no less
/// than what an earlier one does, and the last one leaves all.
#[test]
fn a_script_that_fails_at_any_read_leaves_a_front(rt: HostRuntime) -> Result<(), Fail> {
    let mut most = 0usize;
    for call in 0u64..46 {
        let count = count_unheard(rt.alloc(), call, 5)?;
        if count < most {
            return Err(Fail::new("a later read leaves less"));
        }
        most = count;
    }
    let count = count_unheard(rt.alloc(), 46, 0)?;
    if most == ANSWERS.len() && count == ANSWERS.len() {
        Ok(())
    } else {
        Err(Fail::new("the last read leaves less than all"))
    }
}

/// What stands in the output before a line, counted from 0.
fn lines_before(number: u64) -> &'static [u8] {
    let mut feeds = 0u64;
    for at in 0..ANSWERS.len() {
        if feeds == number {
            return &ANSWERS[..at];
        }
        if ANSWERS[at] == b'\n' {
            feeds = feeds.saturating_add(1);
        }
    }
    ANSWERS
}

/// A run of the first conversation whose output fails at one write.
fn expect_unwritten(alloc: Global, call: u64, status: u8) -> Result<(), Fail> {
    let unwritten = [call];
    let given = Given {
        unwritten: &unwritten,
        ..first()
    };
    expect(alloc, given, lines_before(call), status, "a write")
}

/// The output has five lines, each of one write.
#[test]
fn an_output_that_fails_at_any_write_keeps_what_was_written(rt: HostRuntime) -> Result<(), Fail> {
    for call in 0u64..5 {
        expect_unwritten(rt.alloc(), call, 6)?;
    }
    expect_unwritten(rt.alloc(), 5, 0)
}

/// A run whose output has room for so many bytes leaves these.
fn expect_within(
    alloc: Global,
    room: usize,
    given: Given,
    output: &[u8],
    status: u8,
) -> Result<(), Fail> {
    let given = Given { room, ..given };
    let count = expect_front(alloc, given, output, status, "an output with little room")?;
    if count == room {
        Ok(())
    } else {
        Err(Fail::new("the room isn't used"))
    }
}

#[test]
fn an_output_with_room_for_some_bytes_holds_these(rt: HostRuntime) -> Result<(), Fail> {
    for room in 0..ANSWERS.len() {
        expect_within(rt.alloc(), room, first(), ANSWERS, 6)?;
    }
    expect_within(rt.alloc(), ANSWERS.len(), first(), ANSWERS, 0)
}

/// The lines that greet two controllers, and three.
static TWO: &[u8] = br#">c1 {"d":{"obsWebSocketVersion":"5.0.0","rpcVersion":1},"op":0}
>c2 {"d":{"obsWebSocketVersion":"5.0.0","rpcVersion":1},"op":0}
"#;

static THREE: &[u8] = br#">c1 {"d":{"obsWebSocketVersion":"5.0.0","rpcVersion":1},"op":0}
>c2 {"d":{"obsWebSocketVersion":"5.0.0","rpcVersion":1},"op":0}
>c3 {"d":{"obsWebSocketVersion":"5.0.0","rpcVersion":1},"op":0}
"#;

/// Three controllers come, and the first read or the third write fails, or the output has room for
/// 150 bytes.
#[test]
fn a_failure_ends_a_run(rt: HostRuntime) -> Result<(), Fail> {
    let one = Given {
        unheard: &[0],
        ..replay_of(COLLECTION, b"+\n")
    };
    expect(rt.alloc(), one, b"", 5, "the first read")?;
    let three = replay_of(COLLECTION, b"+\n+\n+\n");
    let failing = Given {
        unwritten: &[2],
        ..three
    };
    expect(rt.alloc(), failing, TWO, 6, "the third write")?;
    expect_within(rt.alloc(), 150, three, THREE, 6)
}

/// The line that says what isn't built is written as any other, and may fail as one.
#[test]
fn a_last_line_may_fail_too(rt: HostRuntime) -> Result<(), Fail> {
    let script = repeated(rt.alloc(), SCRIPT, b"a\n", 1, b"")?;
    let given = Given {
        unwritten: &[5],
        ..replay_of(COLLECTION, script.as_slice())
    };
    let result = expect(rt.alloc(), given, ANSWERS, 6, "line 6");
    drop(script);
    result?;
    let none = Given {
        unwritten: &[0],
        ..replay_of(b"", b"")
    };
    expect(rt.alloc(), none, b"", 6, "the collection")
}
