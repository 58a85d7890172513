//! Messages as long as they may be, and longer.
use crate::tests::conversation::COLLECTION;
use crate::tests::running::{expect, repeated, replay_of};
use std::alloc::Global;
use std::test::Fail;

/// A connection that comes and identifies, as far as blanks may follow.
static IDENTIFY: &[u8] = br#"+
<c1 {"op":1,"d":{"rpcVersion":1,"eventSubscriptions":0}}"#;

static IDENTIFIED: &[u8] = br#">c1 {"d":{"obsWebSocketVersion":"5.0.0","rpcVersion":1},"op":0}
>c1 {"d":{"negotiatedRpcVersion":1},"op":2}
"#;

static TOO_LONG: &[u8] = br#">c1 {"d":{"obsWebSocketVersion":"5.0.0","rpcVersion":1},"op":0}
!c1 4002
"#;

/// The connection says Identify and so many blanks.
fn expect_blanks(alloc: Global, blanks: usize, output: &[u8]) -> Result<(), Fail> {
    let script = repeated(alloc, IDENTIFY, b" ", blanks, b"\n")?;
    let given = replay_of(COLLECTION, script.as_slice());
    let result = expect(alloc, given, output, 0, "a long text");
    drop(script);
    result
}

/// A text of 1,048,576 bytes is heard, and one of a byte more closes the connection.
#[test]
fn long_texts(rt: HostRuntime) -> Result<(), Fail> {
    expect_blanks(rt.alloc(), 1_048_524, IDENTIFIED)?;
    expect_blanks(rt.alloc(), 1_048_525, TOO_LONG)
}
