//! Words that are no command.
use crate::tests::conversation::first;
use crate::tests::running::{Given, expect};
use std::test::Fail;

static WORDS: [&[&str]; 8] = [
    &["replay", "a", "b"],
    &[],
    &["make", "07", "1"],
    &["--help"],
    &["replay"],
    &["replay", "a", "b", "c", "d"],
    &["Replay", "a", "b", "c"],
    &["", "a", "b", "c"],
];

#[test]
fn faulty_words_give_nothing(rt: HostRuntime) -> Result<(), Fail> {
    for words in WORDS {
        let given = Given { words, ..first() };
        expect(rt.alloc(), given, b"", 2, "words")?;
    }
    Ok(())
}
