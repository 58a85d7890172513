//! A JSON value.
ghost use Rattle.std.specs.Prelude.{◌≡◌, IfOk};
ghost use Rattle.mix_base.specs.Json.{has_frac, list_has_frac, obj_has_frac};

use crate::{JsonList, JsonObj, ListOf, Member, Members, NoMemory, Text};
use std::alloc::Global;

/// A JSON value.
#[derive(Drop)]
#[cycle(json)]
pub enum Json {
    Null,
    Bool(bool),
    /// A whole number from -2^63 to 2^63 - 1.
    Int(i64),
    /// Any other number; nothing is known of it.
    Frac,
    Text(Text),
    List(ListOf<Json>),
    Obj(Members<Json>),
}

impl Json {
    /// Whether a fractional number occurs.
    #[cycle(frac)]
    #[tactic(auto, using(crate::proofs::JsonLemmas::frac_in_list, crate::proofs::JsonLemmas::frac_in_obj))]
    pub fn has_frac(&self) -> bool
        ensures value { result ≡ has_frac self.now }
    {
        match self {
            Json::Null | Json::Bool(_) | Json::Int(_) | Json::Text(_) => false,
            Json::Frac => true,
            Json::List(items) => list_has_frac(items.as_slice()),
            Json::Obj(members) => members.has_frac(),
        }
    }

    /// An equal value. The bytes of its texts are shared.
    #[cycle(copy)]
    pub fn copy(&self, alloc: Global) -> Result<Json, NoMemory>
        ensures value { IfOk result (λ copy. copy ≡ self.now) }
    {
        match self {
            Json::Null => Ok(Json::Null),
            Json::Bool(truth) => Ok(Json::Bool(*truth)),
            Json::Int(number) => Ok(Json::Int(*number)),
            Json::Frac => Ok(Json::Frac),
            Json::Text(text) => Ok(Json::Text(text.share()?)),
            Json::List(items) => Ok(Json::List(copy_list(alloc, items.as_slice())?)),
            Json::Obj(members) => Ok(Json::Obj(members.copy(alloc)?)),
        }
    }
}

#[cycle(frac)]
fn list_has_frac(items: &[Json]) -> bool
    ensures { result ≡ list_has_frac items.now }
{
    for item in items {
        if item.has_frac() {
            return true;
        }
    }
    false
}

#[cycle(copy)]
fn copy_list(alloc: Global, items: &[Json]) -> Result<JsonList, NoMemory>
    ensures { IfOk result (λ copy. copy ≡ items.now) }
{
    let mut copy = Vec::with_capacity(alloc, items.len())?;
    for item in items {
        let Ok(item) = item.copy(alloc) else {
            drop(copy);
            return Err(NoMemory);
        };
        copy.push_reserved(item);
    }
    Ok(ListOf::from_vec(copy))
}

impl Members<Json> {
    /// Whether a fractional number occurs.
    #[cycle(frac)]
    pub fn has_frac(&self) -> bool
        ensures value { result ≡ obj_has_frac self.now }
    {
        for member in self.as_slice() {
            if member.value.has_frac() {
                return true;
            }
        }
        false
    }

    /// An equal object. The bytes of its texts are shared.
    #[cycle(copy)]
    pub fn copy(&self, alloc: Global) -> Result<JsonObj, NoMemory>
        ensures value { IfOk result (λ copy. copy ≡ self.now) }
    {
        let members = self.as_slice();
        let mut copy = Vec::with_capacity(alloc, members.len())?;
        for member in members {
            let Ok(key) = member.key.share() else {
                drop(copy);
                return Err(NoMemory);
            };
            let Ok(value) = member.value.copy(alloc) else {
                drop(key);
                drop(copy);
                return Err(NoMemory);
            };
            copy.push_reserved(Member { key, value });
        }
        Ok(Members::from_rising(copy))
    }
}
