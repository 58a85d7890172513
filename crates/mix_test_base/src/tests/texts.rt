//! Texts and bytes that are kept and shared.
use crate::tests::have::{have, letters};
use mix_base::{Serial, SharedBytes, Text, TextFault, uuid_text};
use std::alloc::Global;
use std::process::Abort;

/// A text of these bytes has them once more where it is shared.
fn expect_text(rt: &impl Abort, alloc: Global, bytes: &[u8]) {
    let text = have(rt, Text::read(alloc, bytes));
    let same = have(rt, text.share());
    let length = bytes.len();
    assert!(rt; same.bytes() == bytes, "{length} bytes");
    drop(same);
    drop(text);
}

/// So does one that took over a string.
fn expect_string(rt: &impl Abort, alloc: Global, bytes: &[u8]) {
    let text = have(rt, Text::read(alloc, bytes));
    let string = have(rt, String::from_str(alloc, text.as_str()));
    drop(text);
    let text = have(rt, Text::from_string(string));
    let same = have(rt, text.share());
    let length = bytes.len();
    assert!(rt; same.bytes() == bytes, "{length} bytes");
    drop(same);
    drop(text);
}

/// So do bytes.
fn expect_bytes(rt: &impl Abort, alloc: Global, bytes: &[u8]) {
    let kept = have(rt, SharedBytes::read(alloc, bytes));
    let same = have(rt, kept.share());
    assert!(rt; same.bytes() == bytes);
    drop(same);
    drop(kept);
}

#[test]
fn texts_and_bytes_are_kept_and_shared(rt: HostRuntime) {
    let alloc = rt.alloc();
    expect_text(&rt, alloc, "Größe".as_bytes());
    expect_bytes(&rt, alloc, "Größe".as_bytes());
}

#[test]
fn bytes_that_are_not_utf8_are_no_text(rt: HostRuntime) {
    let read = Text::read(rt.alloc(), &[0xC3]);
    let refused = matches!(&read, Err(TextFault::NotUtf8));
    drop(read);
    assert!(rt; refused);
}

#[test]
fn a_serial_is_the_end_of_its_uuid(rt: HostRuntime) {
    let text = have(&rt, uuid_text(rt.alloc(), Serial(0xAB12)));
    assert!(rt; text.as_str() == "00000000-0000-8000-8000-00000000ab12");
    drop(text);
}

#[test]
fn a_text_that_is_too_long_for_its_value_is_shared(rt: HostRuntime) {
    for length in [0, 40, 41, 500] {
        let bytes = letters(&rt, rt.alloc(), b'n', length);
        expect_text(&rt, rt.alloc(), bytes.as_slice());
        expect_string(&rt, rt.alloc(), bytes.as_slice());
        drop(bytes);
    }
}
