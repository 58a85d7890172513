//! From the members of a text to an object: the keys come in byte order, and of equal keys the last
//! one stands.
ghost use Rattle.std.specs.Prelude.{◌≡◌, [], IfOk};
ghost use Rattle.mix_base.specs.Members.{is_before, is_rising};
ghost use Rattle.mix_json.specs.Tokens.{members_of, put_members};

use mix_base::{Json, JsonObj, Member, Members, NoMemory, Text};
use std::alloc::Global;
use std::cmp::Ordering;
use std::collections::BTreeMap;

/// Up to so many members are put in one by one; more go through a map.
const FEW: usize = 32;

/// The object of members in any order. Where their keys rise already, they are taken over.
pub(crate) fn arranged(alloc: Global, members: Vec<Member<Json>>) -> Result<JsonObj, NoMemory>
    ensures value { IfOk result (λ obj. obj ≡ put_members members.items []) }
{
    if is_rising(members.as_slice()) {
        return Ok(Members::from_rising(members));
    }
    if members.len() <= FEW {
        put_one_by_one(alloc, members)
    } else {
        put_by_map(alloc, members)
    }
}

/// Whether each key stands before the next one.
fn is_rising(members: &[Member<Json>]) -> bool
    ensures value { result ≡ is_rising members.now }
{
    for (place, member) in members.iter().enumerate() {
        if !is_before(member.key.as_str(), &members[place + 1..]) {
            return false;
        }
    }
    true
}

/// Whether the key stands before the first of these members.
fn is_before(key: &str, members: &[Member<Json>]) -> bool
    ensures value { result ≡ is_before key.now members.now }
{
    match members.first() {
        None => true,
        Some(next) => match key.cmp(next.key.as_str()) {
            Ordering::Less => true,
            Ordering::Equal | Ordering::Greater => false,
        },
    }
}

/// The object of few members.
fn put_one_by_one(alloc: Global, members: Vec<Member<Json>>) -> Result<JsonObj, NoMemory>
    ensures value { IfOk result (λ obj. obj ≡ put_members members.items []) }
{
    let mut obj = JsonObj::new(alloc);
    for member in members {
        let Member { key, value } = member;
        let Ok(()) = obj.put(key, value) else {
            drop(obj);
            return Err(NoMemory);
        };
    }
    Ok(obj)
}

/// The object of many members.
fn put_by_map(alloc: Global, members: Vec<Member<Json>>) -> Result<JsonObj, NoMemory>
    ensures value { IfOk result (λ obj. obj ≡ put_members members.items []) }
{
    let map = map_of(alloc, members)?;
    out_of_map(alloc, map)
}

/// The members in a map.
fn map_of(alloc: Global, members: Vec<Member<Json>>) -> Result<BTreeMap<String, Json>, NoMemory>
    ensures value { IfOk result (λ map. members_of map.entries ≡ put_members members.items []) }
{
    let mut map = BTreeMap::new(alloc);
    for member in members {
        let Member { key, value } = member;
        let name = String::from_str(alloc, key.as_str());
        drop(key);
        let Ok(name) = name else {
            drop(value);
            drop(map);
            return Err(NoMemory);
        };
        let Ok(before) = map.insert(name, value) else {
            drop(map);
            return Err(NoMemory);
        };
        drop(before);
    }
    Ok(map)
}

/// The entries of a map as members.
fn out_of_map(alloc: Global, map: BTreeMap<String, Json>) -> Result<JsonObj, NoMemory>
    ensures value { IfOk result (λ obj. obj ≡ members_of map.entries) }
{
    let Ok(mut members) = Vec::with_capacity(alloc, map.len()) else {
        drop(map);
        return Err(NoMemory);
    };
    for (name, value) in map {
        let Ok(key) = Text::from_string(name) else {
            drop(value);
            drop(members);
            return Err(NoMemory);
        };
        members.push_reserved(Member { key, value });
    }
    Ok(Members::from_rising(members))
}
