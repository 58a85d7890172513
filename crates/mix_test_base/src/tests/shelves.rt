//! Texts that stand on a shelf.
use crate::tests::have::{are_letters, have, letters};
use mix_base::{Shelf, Text};
use std::alloc::Global;
use std::process::Abort;

/// A text of so many letters, as the shelf keeps it.
fn kept(rt: &impl Abort, alloc: Global, shelf: &mut Shelf, letter: u8, length: usize) -> Text {
    let bytes = letters(rt, alloc, letter, length);
    let text = have(rt, Text::read(alloc, bytes.as_slice()));
    drop(bytes);
    shelf.keep(text)
}

fn letter_of(number: usize) -> u8 {
    b'a' + (number % 26) as u8
}

fn length_of(number: u16) -> usize {
    number as usize * 37 % 501
}

/// 300 texts of 0 to 500 bytes.
fn fill(rt: &impl Abort, alloc: Global, shelf: &mut Shelf, texts: &mut Vec<Text>) {
    for number in 0..300_u16 {
        let letter = letter_of(number as usize);
        let text = kept(rt, alloc, shelf, letter, length_of(number));
        have(rt, texts.push(text));
    }
}

fn expect_texts(rt: &impl Abort, texts: &[Text]) {
    assert!(rt; texts.len() == 300);
    for number in 0..300_u16 {
        let bytes = match texts.get(number as usize) {
            Some(text) => text.bytes(),
            None => b"missing".as_slice(),
        };
        let letter = letter_of(number as usize);
        assert!(rt;
            are_letters(bytes, letter, length_of(number)),
            "text {number}"
        );
    }
}

#[test]
fn texts_on_a_shelf_are_what_they_were(rt: HostRuntime) {
    let alloc = rt.alloc();
    let mut shelf = Shelf::new(alloc);
    let mut texts = Vec::new(alloc);
    fill(&rt, alloc, &mut shelf, &mut texts);
    let long = kept(&rt, alloc, &mut shelf, b'z', 5000);
    assert!(rt; are_letters(long.bytes(), b'z', 5000));
    drop(long);
    expect_texts(&rt, texts.as_slice());
    drop(texts);
    drop(shelf);
}
