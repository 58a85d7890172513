//! Puts and copies of JSON objects.
use crate::tests::have::have;
use mix_base::{Json, JsonList, JsonObj, Text};
use std::alloc::Global;
use std::process::Abort;

fn put(rt: &impl Abort, alloc: Global, obj: &mut JsonObj, key: &str, number: i64) {
    let key = have(rt, Text::from_str(alloc, key));
    have(rt, obj.put(key, Json::Int(number)));
}

/// An object into which b 1, a 2, c 3 and b 4 were put.
fn four_puts(rt: &impl Abort, alloc: Global) -> JsonObj {
    let mut obj = JsonObj::new(alloc);
    for (key, number) in [("b", 1), ("a", 2), ("c", 3), ("b", 4)] {
        put(rt, alloc, &mut obj, key, number);
    }
    obj
}

/// Whether the member at the index is this key with this number.
fn is_pair(obj: &JsonObj, index: usize, key: &str, number: i64) -> bool {
    match obj.pair(index) {
        Some((found, Json::Int(value))) => found.as_str() == key && *value == number,
        _ => false,
    }
}

#[test]
fn of_equal_keys_the_last_value_stands(rt: HostRuntime) {
    let alloc = rt.alloc();
    let obj = four_puts(&rt, alloc);
    let copy = have(&rt, obj.copy(alloc));
    drop(obj);
    for (index, key, number) in [(0, "a", 2), (1, "b", 4), (2, "c", 3)] {
        assert!(rt; is_pair(&copy, index, key, number), "at {index}");
    }
    assert!(rt; copy.pair(3).is_none());
    assert!(rt; copy.get("bb").is_none());
    drop(copy);
}

#[test]
fn a_copied_list_has_its_fraction(rt: HostRuntime) {
    let alloc = rt.alloc();
    let obj = four_puts(&rt, alloc);
    let mut values = Vec::new(alloc);
    have(&rt, values.push(Json::Obj(obj)));
    have(&rt, values.push(Json::Frac));
    let list = Json::List(JsonList::from_vec(values));
    let copy = have(&rt, list.copy(alloc));
    drop(list);
    assert!(rt; copy.has_frac());
    drop(copy);
}
