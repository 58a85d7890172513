//! Values put at the end of a text, token by token. At `Err` a part of the value may stand there.
ghost use Rattle.std.specs.Prelude.{◌≡◌, OnOk};
ghost use Rattle.mix_base.specs.declared.json.Json as json;
ghost use Rattle.mix_json.specs.Back.{ComesBack};
ghost use Rattle.mix_json.specs.Growing.{after_key, close_list, close_object, more_item};
ghost use Rattle.mix_json.specs.Growing.{open_list, open_object};

use json::Writer;
use mix_base::{Json, JsonObj, NoMemory};

#[tactic(auto, unfolding(crate::specs::Growing::after_key))]
pub fn put_key(out: &mut Writer, key: &str) -> Result<(), NoMemory>
    ensures tokens { OnOk result (out.new.tokens ≡ after_key key.now out.old.tokens) }
    ensures before { out.new.before ≡ out.old.before }
{
    out.key(key)?;
    Ok(())
}

#[tactic(auto, using(crate::proofs::TextLemmas::more_null))]
pub fn put_null(out: &mut Writer) -> Result<(), NoMemory>
    ensures tokens { OnOk result (out.new.tokens ≡ more_item json.Null out.old.tokens) }
    ensures before { out.new.before ≡ out.old.before }
{
    out.null()?;
    Ok(())
}

#[tactic(auto, using(crate::proofs::TextLemmas::more_truth))]
pub fn put_truth(out: &mut Writer, truth: bool) -> Result<(), NoMemory>
    ensures tokens { OnOk result (out.new.tokens ≡ more_item (json.Bool truth) out.old.tokens) }
    ensures before { out.new.before ≡ out.old.before }
{
    out.boolean(truth)?;
    Ok(())
}

#[tactic(auto, using(crate::proofs::TextLemmas::more_int))]
pub fn put_int(out: &mut Writer, number: i64) -> Result<(), NoMemory>
    ensures tokens { OnOk result (out.new.tokens ≡ more_item (json.Int number) out.old.tokens) }
    ensures before { out.new.before ≡ out.old.before }
    ensures back { ComesBack (json.Int number) }
{
    out.i64(number)?;
    Ok(())
}

#[tactic(auto, using(crate::proofs::TextLemmas::more_text))]
pub fn put_text(out: &mut Writer, text: &str) -> Result<(), NoMemory>
    ensures tokens { OnOk result (out.new.tokens ≡ more_item (json.Text text.now) out.old.tokens) }
    ensures before { out.new.before ≡ out.old.before }
{
    out.string(text)?;
    Ok(())
}

#[tactic(auto, unfolding(crate::specs::Growing::open_object))]
pub fn begin_object(out: &mut Writer) -> Result<(), NoMemory>
    ensures tokens { OnOk result (out.new.tokens ≡ open_object out.old.tokens) }
    ensures before { out.new.before ≡ out.old.before }
{
    out.begin_object()?;
    Ok(())
}

#[tactic(auto, unfolding(crate::specs::Growing::close_object))]
pub fn end_object(out: &mut Writer) -> Result<(), NoMemory>
    ensures tokens { OnOk result (out.new.tokens ≡ close_object out.old.tokens) }
    ensures before { out.new.before ≡ out.old.before }
{
    out.end_object()?;
    Ok(())
}

#[tactic(auto, unfolding(crate::specs::Growing::open_list))]
pub fn begin_list(out: &mut Writer) -> Result<(), NoMemory>
    ensures tokens { OnOk result (out.new.tokens ≡ open_list out.old.tokens) }
    ensures before { out.new.before ≡ out.old.before }
{
    out.begin_array()?;
    Ok(())
}

#[tactic(auto, unfolding(crate::specs::Growing::close_list))]
pub fn end_list(out: &mut Writer) -> Result<(), NoMemory>
    ensures tokens { OnOk result (out.new.tokens ≡ close_list out.old.tokens) }
    ensures before { out.new.before ≡ out.old.before }
{
    out.end_array()?;
    Ok(())
}

/// Any value; null in place of a fraction.
#[cycle(put)]
pub fn put(out: &mut Writer, value: &Json) -> Result<(), NoMemory>
    ensures tokens { OnOk result (out.new.tokens ≡ more_item value.now out.old.tokens) }
    ensures before { out.new.before ≡ out.old.before }
    ensures back { OnOk result (ComesBack value.now) }
{
    match value {
        Json::Null => put_null(out),
        Json::Bool(truth) => put_truth(out, *truth),
        Json::Int(number) => put_int(out, *number),
        Json::Frac => put_frac(out),
        Json::Text(text) => put_text(out, text.as_str()),
        Json::List(items) => put_items(out, items.as_slice()),
        Json::Obj(members) => put_members(out, members),
    }
}

#[tactic(auto, using(crate::proofs::TextLemmas::more_frac))]
fn put_frac(out: &mut Writer) -> Result<(), NoMemory>
    ensures tokens { OnOk result (out.new.tokens ≡ more_item json.Frac out.old.tokens) }
    ensures before { out.new.before ≡ out.old.before }
{
    out.null()?;
    Ok(())
}

#[cycle(put)]
fn put_items(out: &mut Writer, items: &[Json]) -> Result<(), NoMemory>
    ensures tokens { OnOk result (out.new.tokens ≡ more_item (json.List items.now) out.old.tokens) }
    ensures before { out.new.before ≡ out.old.before }
    ensures back { OnOk result (ComesBack (json.List items.now)) }
{
    begin_list(out)?;
    for item in items {
        put(out, item)?;
    }
    end_list(out)
}

#[cycle(put)]
pub fn put_members(out: &mut Writer, members: &JsonObj) -> Result<(), NoMemory>
    ensures tokens { OnOk result (out.new.tokens ≡ more_item (json.Obj members.now) out.old.tokens) }
    ensures before { out.new.before ≡ out.old.before }
    ensures back { OnOk result (ComesBack (json.Obj members.now)) }
{
    begin_object(out)?;
    for member in members.as_slice() {
        put_key(out, member.key.as_str())?;
        put(out, &member.value)?;
    }
    end_object(out)
}
