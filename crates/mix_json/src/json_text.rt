//! A JSON text that grows: its fields and items are written as they come, and no tree is made.
ghost use Rattle.std.specs.Prelude.{◌≡◌, [], false, IfOk, OnOk};
ghost use Rattle.std.specs.Option.{option_copied};
ghost use Rattle.mix_base.specs.Json.{has_frac, obj_has_frac};
ghost use Rattle.mix_base.specs.declared.json.Json as json;
ghost use Rattle.mix_json.specs.Growing.{after_key, close_list, close_object, grown_text};
ghost use Rattle.mix_json.specs.Growing.{more_field, more_item, open_list, open_object};
ghost use Rattle.mix_json.specs.Trees.{text_or_null};

use crate::pieces::{
    begin_list, begin_object, end_list, end_object, put, put_int, put_key, put_members, put_null,
    put_text, put_truth,
};
use crate::writing::{empty, finish};
use json::Writer;
use mix_base::{Json, JsonObj, NoMemory, Text};
use std::alloc::Global;
use std::marker::Model;

/// A JSON text that grows. Contracts see its tokens. Where objects and lists are closed as they
/// were opened, and the keys of each object rise in byte order, it is the text of the whole tree.
/// At `Err` a part of what was to be added may stand in it.
#[derive(Drop)]
pub struct JsonText {
    out: Writer,
}

impl Model for JsonText {
    ghost use Rattle.std.specs.Prelude.{◌≡◌, List, []};
    ghost use Rattle.json.specs.Token.{Token, tokens_code};
    ghost use Rattle.json.specs.Written.{Written};

    ghost Value = { List Token };

    ghost coded = { tokens_code };

    ghost view = { λ text. text.out.tokens };

    ghost invariant = { λ text. text.out.before ≡ [] };
}

impl JsonText {
    /// A text in which nothing stands yet.
    pub fn new(alloc: Global) -> Result<JsonText, NoMemory>
        ensures value { IfOk result (λ text. text ≡ []) }
    {
        Ok(JsonText { out: empty(alloc)? })
    }

    pub fn null(&mut self, key: &str) -> Result<(), NoMemory>
        ensures value { OnOk result (self.new ≡ more_field key.now json.Null self.old) }
    {
        null_field(&mut self.out, key)
    }

    pub fn truth(&mut self, key: &str, truth: bool) -> Result<(), NoMemory>
        ensures value { OnOk result (self.new ≡ more_field key.now (json.Bool truth) self.old) }
    {
        truth_field(&mut self.out, key, truth)
    }

    pub fn int(&mut self, key: &str, number: i64) -> Result<(), NoMemory>
        ensures value { OnOk result (self.new ≡ more_field key.now (json.Int number) self.old) }
    {
        int_field(&mut self.out, key, number)
    }

    pub fn text(&mut self, key: &str, text: &str) -> Result<(), NoMemory>
        ensures value { OnOk result (self.new ≡ more_field key.now (json.Text text.now) self.old) }
    {
        text_field(&mut self.out, key, text)
    }

    /// A text, and null where there is none.
    pub fn text_or_null(&mut self, key: &str, text: Option<&str>) -> Result<(), NoMemory>
        ensures value { OnOk result (self.new
            ≡ more_field key.now (text_or_null (option_copied text.entry)) self.old) }
    {
        match text {
            None => self.null(key),
            Some(text) => self.text(key, text),
        }
    }

    /// Any value without a fraction.
    pub fn value(&mut self, key: &str, value: &Json) -> Result<(), NoMemory>
        requires whole { has_frac value.now ≡ false }
        ensures value { OnOk result (self.new ≡ more_field key.now value.now self.old) }
    {
        value_field(&mut self.out, key, value)
    }

    /// An object that was heard, without a fraction.
    pub fn kept(&mut self, key: &str, obj: &JsonObj) -> Result<(), NoMemory>
        requires whole { obj_has_frac obj.now ≡ false }
        ensures value { OnOk result (self.new ≡ more_field key.now (json.Obj obj.now) self.old) }
    {
        obj_field(&mut self.out, key, obj)
    }

    /// A key, whose value comes next.
    pub fn key(&mut self, key: &str) -> Result<(), NoMemory>
        ensures value { OnOk result (self.new ≡ after_key key.now self.old) }
    {
        put_key(&mut self.out, key)
    }

    /// An object begins.
    pub fn open(&mut self) -> Result<(), NoMemory>
        ensures value { OnOk result (self.new ≡ open_object self.old) }
    {
        begin_object(&mut self.out)
    }

    /// The object ends that began last.
    pub fn close(&mut self) -> Result<(), NoMemory>
        ensures value { OnOk result (self.new ≡ close_object self.old) }
    {
        end_object(&mut self.out)
    }

    /// A list begins.
    pub fn open_list(&mut self) -> Result<(), NoMemory>
        ensures value { OnOk result (self.new ≡ open_list self.old) }
    {
        begin_list(&mut self.out)
    }

    /// The list ends that began last.
    pub fn close_list(&mut self) -> Result<(), NoMemory>
        ensures value { OnOk result (self.new ≡ close_list self.old) }
    {
        end_list(&mut self.out)
    }

    /// An item: any value without a fraction.
    pub fn push(&mut self, value: &Json) -> Result<(), NoMemory>
        requires whole { has_frac value.now ≡ false }
        ensures value { OnOk result (self.new ≡ more_item value.now self.old) }
    {
        put(&mut self.out, value)
    }

    /// An item: a text.
    pub fn push_text(&mut self, text: &str) -> Result<(), NoMemory>
        ensures value { OnOk result (self.new ≡ more_item (json.Text text.now) self.old) }
    {
        put_text(&mut self.out, text)
    }

    /// The text of what stands in it.
    pub fn write(self) -> Result<Text, NoMemory>
        ensures value { IfOk result (λ text. text ≡ grown_text self) }
    {
        let JsonText { out } = self;
        finish(out)
    }
}

#[tactic(auto, using(crate::proofs::TextLemmas::keyed))]
fn null_field(out: &mut Writer, key: &str) -> Result<(), NoMemory>
    ensures tokens { OnOk result (out.new.tokens ≡ more_field key.now json.Null out.old.tokens) }
    ensures before { out.new.before ≡ out.old.before }
{
    put_key(out, key)?;
    put_null(out)
}

#[tactic(auto, using(crate::proofs::TextLemmas::keyed))]
fn truth_field(out: &mut Writer, key: &str, truth: bool) -> Result<(), NoMemory>
    ensures tokens { OnOk result
        (out.new.tokens ≡ more_field key.now (json.Bool truth) out.old.tokens) }
    ensures before { out.new.before ≡ out.old.before }
{
    put_key(out, key)?;
    put_truth(out, truth)
}

#[tactic(auto, using(crate::proofs::TextLemmas::keyed))]
fn int_field(out: &mut Writer, key: &str, number: i64) -> Result<(), NoMemory>
    ensures tokens { OnOk result
        (out.new.tokens ≡ more_field key.now (json.Int number) out.old.tokens) }
    ensures before { out.new.before ≡ out.old.before }
{
    put_key(out, key)?;
    put_int(out, number)
}

#[tactic(auto, using(crate::proofs::TextLemmas::keyed))]
fn text_field(out: &mut Writer, key: &str, text: &str) -> Result<(), NoMemory>
    ensures tokens { OnOk result
        (out.new.tokens ≡ more_field key.now (json.Text text.now) out.old.tokens) }
    ensures before { out.new.before ≡ out.old.before }
{
    put_key(out, key)?;
    put_text(out, text)
}

#[tactic(auto, using(crate::proofs::TextLemmas::keyed))]
fn value_field(out: &mut Writer, key: &str, value: &Json) -> Result<(), NoMemory>
    ensures tokens { OnOk result (out.new.tokens ≡ more_field key.now value.now out.old.tokens) }
    ensures before { out.new.before ≡ out.old.before }
{
    put_key(out, key)?;
    put(out, value)
}

#[tactic(auto, using(crate::proofs::TextLemmas::keyed))]
fn obj_field(out: &mut Writer, key: &str, obj: &JsonObj) -> Result<(), NoMemory>
    ensures tokens { OnOk result
        (out.new.tokens ≡ more_field key.now (json.Obj obj.now) out.old.tokens) }
    ensures before { out.new.before ≡ out.old.before }
{
    put_key(out, key)?;
    put_members(out, obj)
}
