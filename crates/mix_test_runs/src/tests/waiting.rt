//! Events that wait for a connection that doesn't come for them, and when it is cut.
use crate::tests::conversation::COLLECTION;
use crate::tests::running::{Given, expect, repeated, replay_of};
use std::alloc::{AllocError, Global};
use std::test::Fail;

/// Two controllers come, and the second one wants events.
static OPENS: &[u8] = br#"+
+
<c1 {"op":1,"d":{"rpcVersion":1,"eventSubscriptions":0}}
<c2 {"op":1,"d":{"rpcVersion":1,"eventSubscriptions":1}}
"#;

static OPENED: &[u8] = br#">c1 {"d":{"obsWebSocketVersion":"5.0.0","rpcVersion":1},"op":0}
>c2 {"d":{"obsWebSocketVersion":"5.0.0","rpcVersion":1},"op":0}
>c1 {"d":{"negotiatedRpcVersion":1},"op":2}
>c2 {"d":{"negotiatedRpcVersion":1},"op":2}
"#;

/// The first one sends an event, and is answered.
static SEND: &[u8] =
    br#"<c1 {"op":6,"d":{"requestType":"BroadcastCustomEvent","requestId":"r","requestData":{"eventData":{}}}}
"#;

static SENT: &[u8] =
    br#">c1 {"d":{"requestId":"r","requestStatus":{"code":100,"result":true},"requestType":"BroadcastCustomEvent"},"op":7}
"#;

/// What the second one is told of an event.
static EVENT: &[u8] =
    br#">c2 {"d":{"eventData":{},"eventIntent":1,"eventType":"CustomEvent"},"op":5}
"#;

/// The answers to the first one, what the second one is told, and then these lines.
fn output_of(alloc: Global, events: usize, last: &[u8]) -> Result<Vec<u8>, AllocError> {
    let answers = repeated(alloc, OPENED, SENT, events, b"")?;
    let output = repeated(alloc, answers.as_slice(), EVENT, events, last);
    drop(answers);
    output
}

/// The first one sends so many events, and then these lines come. After the answers, the second one
/// is told the events, and then these lines are written.
fn expect_waiting(alloc: Global, events: usize, lines: &[u8], last: &[u8]) -> Result<(), Fail> {
    let script = repeated(alloc, OPENS, SEND, events, lines)?;
    let output = match output_of(alloc, events, last) {
        Ok(output) => output,
        Err(error) => {
            drop(script);
            return Err(Fail::from(error));
        }
    };
    let given = Given {
        piece: 65_536,
        room: 4_000_000,
        ..replay_of(COLLECTION, script.as_slice())
    };
    let result = expect(alloc, given, output.as_slice(), 0, "waiting texts");
    drop(output);
    drop(script);
    result
}

/// With 4,096 waiting texts a connection is cut: it is told them, and closed. The one that sent
/// them stays.
#[test]
fn four_thousand_waiting_texts(rt: HostRuntime) -> Result<(), Fail> {
    let lines = b"?c2\n?c1\n?c2\n";
    expect_waiting(rt.alloc(), 4096, lines, b"!c2 4011\n!c2 gone\n")
}

#[test]
fn one_text_fewer(rt: HostRuntime) -> Result<(), Fail> {
    expect_waiting(rt.alloc(), 4095, b"?c2\n?c1\n?c2\n-c2\n", b"-c2\n")
}

/// What a connection says that is cut.
static MESSAGE: &[u8] = br#"<c2 {"op":3,"d":{"eventSubscriptions":0}}
"#;

/// Nothing more is queued for who is cut, and its next action does nothing else, be it a leave or a
/// message.
#[test]
fn who_is_cut_does_nothing_else(rt: HostRuntime) -> Result<(), Fail> {
    expect_waiting(rt.alloc(), 4096, b"-c2\n-c2\n", b"!c2 4011\n!c2 gone\n")?;
    expect_waiting(rt.alloc(), 4096, MESSAGE, b"!c2 4011\n")
}
