//! From a JSON value to its text.
ghost use Rattle.std.specs.Prelude.{◌≡◌, ◌≤◌, [], false, IfOk, IsUtf8, Some};
ghost use Rattle.json.specs.Lex.{tokens};
ghost use Rattle.serde_json.specs.Data.{depth};
ghost use Rattle.mix_base.specs.Json.{has_frac};
ghost use Rattle.mix_json.specs.Growing.{grown_text};
ghost use Rattle.mix_json.specs.Reading.{json_of};
ghost use Rattle.mix_json.specs.Writing.{data_of, json_text};

use crate::pieces::put;
use json::Writer;
use mix_base::{Json, NoMemory, Text};
use std::alloc::Global;

/// The bytes for which there is room at the start.
const ROOM: usize = 256;

/// The compact text of a value, the keys of its objects in byte order.
#[tactic(auto, using(crate::proofs::TextLemmas::whole))]
pub fn write(alloc: Global, value: &Json) -> Result<Text, NoMemory>
    requires whole { has_frac value.now ≡ false }
    ensures value { IfOk result (λ text. text ≡ json_text value.now) }
    ensures reads_back { IfOk result
        (λ text. depth (data_of value.now) ≤ 127 → json_of text ≡ Some value.now) }
{
    let mut out = empty(alloc)?;
    let Ok(()) = put(&mut out, value) else {
        drop(out);
        return Err(NoMemory);
    };
    finish(out)
}

/// A text in which nothing stands yet.
pub fn empty(alloc: Global) -> Result<Writer, NoMemory>
    ensures tokens { IfOk result (λ out. out.tokens ≡ []) }
    ensures before { IfOk result (λ out. out.before ≡ []) }
{
    Ok(Writer::new(Vec::with_capacity(alloc, ROOM)?))
}

/// The text of the tokens.
#[tactic(auto, unfolding(crate::specs::Growing::grown_text))]
pub fn finish(out: Writer) -> Result<Text, NoMemory>
    requires { out.before ≡ [] }
    ensures text { IfOk result (λ text. text ≡ grown_text out.tokens) }
    ensures again { tokens (grown_text out.tokens) ≡ out.tokens }
    ensures utf8 { IsUtf8 (grown_text out.tokens) }
{
    match String::from_utf8(out.into_inner()) {
        Ok(text) => Text::from_string(text),
        Err(_) => unreachable!(),
    }
}
