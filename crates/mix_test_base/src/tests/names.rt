//! Names at their bounds, and frames that are counted whole.
use mix_base::{Name, NameFault, Rate, frames_of};

fn is_taken(bytes: &[u8]) -> bool {
    let name = Name::read(bytes);
    let taken = name.is_ok();
    drop(name);
    taken
}

#[test]
fn a_name_has_1_to_256_bytes(rt: HostRuntime) {
    let bytes = [b'n'; 257];
    for (length, taken) in [(0, false), (1, true), (256, true), (257, false)] {
        assert!(rt; is_taken(&bytes[..length]) == taken, "{length} bytes");
    }
}

#[test]
fn a_name_has_no_control_byte(rt: HostRuntime) {
    let name = Name::read("a\u{7f}".as_bytes());
    let refused = matches!(&name, Err(NameFault::Control));
    drop(name);
    assert!(rt; refused);
}

#[test]
fn a_begun_frame_counts_whole(rt: HostRuntime) {
    for (ms, num, den, frames) in [
        (0, 30, 1, 0),
        (1, 30, 1, 1),
        (1000, 30, 1, 30),
        (1001, 60000, 1001, 60),
    ] {
        let counted = frames_of(ms, Rate { num, den });
        assert!(rt; counted == frames, "{ms} ms at {num}/{den}");
    }
}
