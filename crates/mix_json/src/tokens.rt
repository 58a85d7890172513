//! From the tokens of a text to its value, in one pass.
ghost use Rattle.std.specs.Prelude.{◌≡◌, ◌<◌, ◌≤◌, ◌∷◌, length, option_map, Some, None, IfOk, IfSome, OnOk};
ghost use Rattle.json.specs.Reads.{token_of};
ghost use Rattle.serde_json.specs.Read.{read as read_text};
ghost use Rattle.mix_json.specs.Reading.{of_data};
ghost use Rattle.mix_json.specs.Tokens.{items_at, members_at, object_at, value_at};

use crate::number::{number, short_number, whole_or_frac};
use crate::object::arranged;
use crate::reading::JsonFault;
use json::{Reader, Scratch, Token};
use mix_base::{Json, JsonList, JsonObj, ListOf, Member, Text};
use std::alloc::Global;

/// How many lists and objects may stand within one another.
const MOST_OPEN: usize = 127;

/// The value that a whole text is.
pub(crate) fn whole(alloc: Global, text: &str, scratch: &mut Scratch) -> Result<Json, JsonFault>
    ensures value { IfOk result (λ v. option_map of_data (read_text text.now) ≡ Some v) }
    ensures not_json { result ≡ Err JsonFault.NotJson
        → option_map of_data (read_text text.now) ≡ None }
{
    let Ok(mut tokens) = Reader::new(text, scratch) else {
        return Err(JsonFault::NoMemory);
    };
    let value = value(alloc, &mut tokens, MOST_OPEN)?;
    match tokens.next() {
        None => Ok(value),
        Some(_) => {
            drop(value);
            Err(JsonFault::NotJson)
        }
    }
}

/// The next value; at most so many lists and objects stand within one another.
#[inline(always)]
#[cycle(value)]
fn value(alloc: Global, tokens: &mut Reader<'_>, depth: usize) -> Result<Json, JsonFault>
    ensures value { IfOk result (λ v. value_at depth tokens.old ≡ Some (v, tokens.new)) }
    ensures not_json { result ≡ Err JsonFault.NotJson → value_at depth tokens.old ≡ None }
    ensures shorter { OnOk result (length tokens.new < length tokens.old) }
{
    let Some(token) = tokens.next() else {
        return Err(JsonFault::NotJson);
    };
    match short_value(alloc, tokens, depth, token) {
        Some(value) => Ok(value),
        None => value_from(alloc, tokens, depth, token),
    }
}

/// The value that begins with a token, where it's a whole number of a few digits or an empty list:
/// long messages mostly hold such ones.
#[inline(always)]
fn short_value(
    alloc: Global,
    tokens: &mut Reader<'_>,
    depth: usize,
    token: Token<'_>,
) -> Option<Json>
    ensures value { IfSome result
        (λ v. value_at depth (token_of token.entry ∷ tokens.old) ≡ Some (v, tokens.new)) }
    ensures none { result ≡ None → tokens.new ≡ tokens.old }
    ensures no_longer { length tokens.new ≤ length tokens.old }
{
    match token {
        Token::Number(text) => match short_number(text) {
            Some(whole) => Some(Json::Int(whole)),
            None => None,
        },
        Token::BeginArray if depth > 0 => if tokens.take_end_array() {
            Some(Json::List(ListOf::from_vec(Vec::new(alloc))))
        } else {
            None
        },
        _ => None,
    }
}

/// The value that begins with a token.
#[cycle(value)]
fn value_from(
    alloc: Global,
    tokens: &mut Reader<'_>,
    depth: usize,
    token: Token<'_>,
) -> Result<Json, JsonFault>
    ensures value { IfOk result
        (λ v. value_at depth (token_of token.entry ∷ tokens.old) ≡ Some (v, tokens.new)) }
    ensures not_json { result ≡ Err JsonFault.NotJson
        → value_at depth (token_of token.entry ∷ tokens.old) ≡ None }
    ensures shorter { OnOk result (length tokens.new ≤ length tokens.old) }
{
    match token {
        Token::Null => Ok(Json::Null),
        Token::Bool(truth) => Ok(Json::Bool(truth)),
        Token::Number(text) => match number(text) {
            Some(whole) => Ok(whole_or_frac(whole)),
            None => Err(JsonFault::NotJson),
        },
        Token::String(text) => Ok(Json::Text(Text::from_str(alloc, text)?)),
        Token::BeginArray => {
            if depth == 0 {
                return Err(JsonFault::NotJson);
            }
            Ok(Json::List(list(alloc, tokens, depth - 1)?))
        }
        Token::BeginObject => {
            if depth == 0 {
                return Err(JsonFault::NotJson);
            }
            Ok(Json::Obj(object(alloc, tokens, depth - 1)?))
        }
        Token::EndObject | Token::EndArray | Token::Key(_) | Token::Bad => Err(JsonFault::NotJson),
    }
}

/// The items up to the bracket that closes their list.
#[cycle(value)]
fn list(alloc: Global, tokens: &mut Reader<'_>, depth: usize) -> Result<JsonList, JsonFault>
    ensures value { IfOk result (λ list. items_at depth tokens.old ≡ Some (list, tokens.new)) }
    ensures not_json { result ≡ Err JsonFault.NotJson → items_at depth tokens.old ≡ None }
    ensures shorter { OnOk result (length tokens.new < length tokens.old) }
{
    let mut found = Vec::new(alloc);
    'items: while !tokens.take_end_array() {
        let Ok(()) = found.reserve(1) else {
            drop(found);
            return Err(JsonFault::NoMemory);
        };
        let item = match value(alloc, tokens, depth) {
            Ok(item) => item,
            Err(fault) => {
                drop(found);
                return Err(fault);
            }
        };
        found.push_reserved(item);
    }
    Ok(ListOf::from_vec(found))
}

/// The object up to the brace that closes it.
#[cycle(value)]
fn object(alloc: Global, tokens: &mut Reader<'_>, depth: usize) -> Result<JsonObj, JsonFault>
    ensures value { IfOk result (λ obj. object_at depth tokens.old ≡ Some (obj, tokens.new)) }
    ensures not_json { result ≡ Err JsonFault.NotJson → object_at depth tokens.old ≡ None }
    ensures shorter { OnOk result (length tokens.new < length tokens.old) }
{
    let members = members(alloc, tokens, depth)?;
    Ok(arranged(alloc, members)?)
}

/// The members up to the brace that closes their object, in the order of the text.
#[cycle(value)]
fn members(
    alloc: Global,
    tokens: &mut Reader<'_>,
    depth: usize,
) -> Result<Vec<Member<Json>>, JsonFault>
    ensures value { IfOk result
        (λ found. members_at depth tokens.old ≡ Some (found.items, tokens.new)) }
    ensures not_json { result ≡ Err JsonFault.NotJson → members_at depth tokens.old ≡ None }
    ensures shorter { OnOk result (length tokens.new < length tokens.old) }
{
    let mut found = Vec::new(alloc);
    'members: loop {
        let key = match tokens.next_key() {
            Ok(Some(key)) => key,
            Ok(None) => return Ok(found),
            Err(_) => {
                drop(found);
                return Err(JsonFault::NotJson);
            }
        };
        let Ok(()) = found.reserve(1) else {
            drop(found);
            return Err(JsonFault::NoMemory);
        };
        let member = match member(alloc, tokens, depth, key) {
            Ok(member) => member,
            Err(fault) => {
                drop(found);
                return Err(fault);
            }
        };
        found.push_reserved(member);
    }
}

/// The member of a key: its value comes next.
#[cycle(value)]
fn member(
    alloc: Global,
    tokens: &mut Reader<'_>,
    depth: usize,
    key: &str,
) -> Result<Member<Json>, JsonFault>
    ensures key { IfOk result (λ m. m.key ≡ key.now) }
    ensures value { IfOk result (λ m. value_at depth tokens.old ≡ Some (m.value, tokens.new)) }
    ensures not_json { result ≡ Err JsonFault.NotJson → value_at depth tokens.old ≡ None }
    ensures shorter { OnOk result (length tokens.new < length tokens.old) }
{
    let value = value(alloc, tokens, depth)?;
    let Ok(key) = Text::from_str(alloc, key) else {
        drop(value);
        return Err(JsonFault::NoMemory);
    };
    Ok(Member { key, value })
}
