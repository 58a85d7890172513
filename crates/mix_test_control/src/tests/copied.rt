//! What is copied of that which waits.
ghost use Rattle.mix_events.specs.Sayable.{IsSayableEvent};

use crate::tests::fanouts::{ONE, TWO, come, copied, expect, tell, tell_duration, two};
use crate::tests::have::have;
use mix_base::{ItemId, Json, JsonObj, Name, Serial, Text};
use mix_events::{Said, intent};
use mix_fanout::Fanout;
use mix_model::{Event, IdList};
use std::alloc::Global;
use std::process::Abort;

const ALL: u32 = 4_294_967_295;

/// Room for two texts more takes them.
fn expect_room(rt: &impl Abort, alloc: Global, fanout: &Fanout) {
    assert!(rt; fanout.has(ONE), "not joined");
    let mut waiting = have(rt, fanout.copy(alloc, ONE, 2));
    waiting.said.push_reserved(Said::Identified);
    waiting.said.push_reserved(Said::Identified);
    let (cut, count) = (waiting.cut, waiting.said.len());
    drop(waiting);
    assert!(rt; !cut && count == 3);
}

#[test]
fn what_is_copied_waits_until_it_is_cleared(rt: HostRuntime) {
    let alloc = rt.alloc();
    let mut fanout = two(&rt, alloc);
    tell_duration(&rt, alloc, &mut fanout, 300, None);
    expect_room(&rt, alloc, &fanout);
    expect(&rt, alloc, &fanout, ONE, &[300]);
    if fanout.has(ONE) {
        fanout.clear(ONE);
    }
    expect(&rt, alloc, &fanout, ONE, &[]);
    expect(&rt, alloc, &fanout, TWO, &[300]);
    drop(fanout);
}

fn custom(rt: &impl Abort, alloc: Global) -> Event
    ensures { IsSayableEvent result }
{
    let mut fields = JsonObj::new(alloc);
    let key = have(rt, Text::from_str(alloc, "key"));
    have(rt, fields.put(key, Json::Int(7)));
    assert!(rt; !fields.has_frac());
    Event::CustomEvent { fields }
}

fn reindexed(rt: &impl Abort, alloc: Global, scene: Name) -> Event
    ensures { IsSayableEvent result }
{
    let ids = have(rt, Vec::from_slice(alloc, &[ItemId(2), ItemId(1)]));
    Event::SceneItemListReindexed {
        items: IdList::from_vec(ids),
        scene,
        serial: Serial(1),
    }
}

/// The bit of an event, 0 of all else that is said.
fn bit_of(said: &Said) -> u32 {
    match said {
        Said::Event(told) => intent(told.event()),
        _ => 0,
    }
}

fn expect_bits(rt: &impl Abort, alloc: Global, fanout: &Fanout, wanted: &[u32]) {
    let waiting = copied(rt, alloc, fanout, ONE);
    assert!(rt; waiting.said.len() == wanted.len());
    for (said, bit) in waiting.said.iter().zip(wanted) {
        assert!(rt; bit_of(said) == *bit, "no event of the bit {bit}");
    }
    drop(waiting);
}

#[test]
fn events_with_lists_and_objects_are_copied(rt: HostRuntime) {
    let alloc = rt.alloc();
    let mut fanout = two(&rt, alloc);
    come(&rt, alloc, &mut fanout, ONE, ALL);
    let scene = have(&rt, Name::read(b"Stage"));
    let serial = Serial(1);
    tell(&rt, alloc, &mut fanout, custom(&rt, alloc), None);
    tell(
        &rt,
        alloc,
        &mut fanout,
        reindexed(&rt, alloc, scene.share()),
        None,
    );
    tell(
        &rt,
        alloc,
        &mut fanout,
        Event::SceneCreated { scene, serial },
        None,
    );
    expect_bits(&rt, alloc, &fanout, &[1, 128, 4]);
    drop(fanout);
}
