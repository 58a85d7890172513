//! Values under distinct keys, in rising byte order of the keys.
ghost use Rattle.std.specs.Prelude.{◌≡◌, ◌≢◌, ◌↔◌, ◌≤◌, ◌<◌, [], ℕ, List, true, false};
ghost use Rattle.std.specs.Prelude.{length, slice_set, Some, None, option_map};
ghost use Rattle.std.specs.Prelude.{IfErr, IfOk, OnErr, OnOk};
ghost use Rattle.std.specs.List.{insert, slice_get};
ghost use Rattle.std.specs.Option.{option_copied};
ghost use Rattle.mix_base.specs.Members.{get_of, has_key, is_rising, member, put_of};

use crate::{NoMemory, Text};
use std::alloc::Global;
use std::cmp::Ordering;
use std::marker::Model;

/// A value under its key.
#[derive(Drop)]
pub struct Member<V> {
    pub key: Text,
    pub value: V,
}

/// Values under distinct keys, in rising byte order of the keys. A value may hold the type that
/// holds it.
#[derive(Drop)]
pub struct Members<V> {
    members: Vec<Member<V>>,
}

impl<V> Model for Members<V> {
    ghost use Rattle.std.specs.Prelude.{List, ◌≡◌, true};
    ghost use Rattle.mix_base.specs.declared.members.Member.{Member};
    ghost use Rattle.mix_base.specs.Members.{is_rising};

    ghost Value = { List (Member V) };

    ghost view = { λ members. members.members.items };

    ghost invariant = { λ members. is_rising members.members.items ≡ true };
}

impl<V> Members<V> {
    pub fn new(alloc: Global) -> Members<V>
        ensures value { result ≡ [] }
    {
        Members {
            members: Vec::new(alloc),
        }
    }

    /// Takes over members that rise already. It takes no memory.
    pub fn from_rising(members: Vec<Member<V>>) -> Members<V>
        requires { is_rising members.items ≡ true }
        ensures value { result ≡ members.items }
    {
        Members { members }
    }

    pub fn len(&self) -> usize
        ensures value { result ≡ length self.now }
    {
        self.members.len()
    }

    /// The members in rising byte order of the keys.
    pub fn as_slice(&self) -> &[Member<V>]
        ensures value { result.now ≡ self.now }
        ensures rising { is_rising self.now ≡ true }
    {
        self.members.as_slice()
    }

    pub fn get(&self, key: &str) -> Option<&V>
        ensures value { option_copied result ≡ get_of key.now self.now }
        ensures missing { option_copied result ≡ None ↔ has_key key.now self.now ≡ false }
    {
        get_in(self.members.as_slice(), key)
    }

    /// The member at a place, counted from 0 in rising byte order of the keys.
    pub fn pair(&self, index: usize) -> Option<(&Text, &V)>
        ensures value { option_map (λ p. member p.0.now p.1.now) result ≡ slice_get self.now index }
        ensures missing { option_map (λ p. p.0.now) result ≡ None ↔ length self.now ≤ index }
    {
        let member = self.members.get(index)?;
        Some((&member.key, &member.value))
    }
}

/// The value of the member with this key.
fn get_in<'a, V>(members: &'a [Member<V>], key: &str) -> Option<&'a V>
    ensures value { option_copied result ≡ get_of key.now members.now }
{
    for member in members {
        if key == member.key.as_str() {
            return Some(&member.value);
        }
    }
    None
}

impl<V: Drop> Members<V> {
    /// Takes the value of one key, and lets the others go.
    pub fn into_value(self, key: &str) -> Option<V>
        ensures value { result ≡ get_of key.now self }
    {
        let Members { members } = self;
        for member in members {
            let Member { key: own, value } = member;
            let found = key == own.as_str();
            drop(own);
            if found {
                return Some(value);
            }
            drop(value);
        }
        None
    }

    /// Sets the value of one key.
    pub fn put(&mut self, key: Text, value: V) -> Result<(), NoMemory>
        ensures ok { OnOk result (self.new ≡ put_of key value self.old) }
        ensures value { OnOk result (get_of key self.new ≡ Some value) }
        ensures others { OnOk result
            ((other : List ℕ) → other ≢ key → get_of other self.new ≡ get_of other self.old) }
        ensures err { OnErr result (self.new ≡ self.old) }
    {
        put_in(&mut self.members, key, value)?;
        Ok(())
    }
}

/// Sets the value of one key.
fn put_in<V: Drop>(members: &mut Vec<Member<V>>, key: Text, value: V) -> Result<(), NoMemory>
    ensures ok { OnOk result (members.new.items ≡ put_of key value members.old.items) }
    ensures err { OnErr result (members.new.items ≡ members.old.items) }
{
    match place_of(members.as_slice(), key.as_str()) {
        Ok(place) => members[place] = Member { key, value },
        Err(place) => members.insert(place, Member { key, value })?,
    }
    Ok(())
}

/// Where the member with this key stands, or else where one has to go in.
fn place_of<V>(members: &[Member<V>], key: &str) -> Result<usize, usize>
    ensures found { IfOk result (λ place. place < length members.now) }
    ensures set { IfOk result (λ place. (value : V) →
        put_of key.now value members.now ≡ slice_set members.now place (member key.now value)) }
    ensures missing { IfErr result (λ place. place ≤ length members.now) }
    ensures inserted { IfErr result (λ place. (value : V) →
        put_of key.now value members.now ≡ insert members.now place (member key.now value)) }
{
    for (place, member) in members.iter().enumerate() {
        match key.cmp(member.key.as_str()) {
            Ordering::Less => return Err(place),
            Ordering::Equal => return Ok(place),
            Ordering::Greater => {}
        }
    }
    Err(members.len())
}
