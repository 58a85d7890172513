//! Values on their way to a text: objects and lists that no fraction stands in.
ghost use Rattle.std.specs.Prelude.{◌≡◌, ◌++◌, ◌∷◌, [], false, IfOk, OnErr, OnOk};
ghost use Rattle.std.specs.Option.{option_copied};
ghost use Rattle.mix_base.specs.Json.{has_frac, obj_has_frac};
ghost use Rattle.mix_base.specs.declared.json.Json as json;
ghost use Rattle.mix_json.specs.Trees.{text_or_null, with_field};
ghost use Rattle.mix_json.specs.Writing.{json_text};

use crate::write;
use mix_base::{Json, JsonObj, ListOf, NoMemory, Text};
use std::alloc::Global;
use std::marker::Model;

/// The fields of an object that is to be written. They may be given in any order.
#[derive(Drop)]
pub struct Fields {
    alloc: Global,
    members: JsonObj,
}

impl Model for Fields {
    ghost use Rattle.std.specs.Prelude.{◌≡◌, false};
    ghost use Rattle.std.specs.Coded.{codes};
    ghost use Rattle.mix_base.specs.Json.{Object, obj_has_frac};
    ghost use Rattle.mix_base.specs.contracts.json.Json as json_contracts;

    ghost Value = { Object };

    ghost coded = { Prim.hlevel (codes, json_contracts.the_row.coded) };

    ghost view = { λ fields. fields.members };

    ghost invariant = { λ fields. obj_has_frac fields.members ≡ false };
}

impl Fields {
    pub fn new(alloc: Global) -> Fields
        ensures value { result ≡ [] }
    {
        Fields {
            alloc,
            members: JsonObj::new(alloc),
        }
    }

    /// The fields of an object without a fraction.
    pub fn from_obj(alloc: Global, members: JsonObj) -> Fields
        requires whole { obj_has_frac members ≡ false }
        ensures value { result ≡ members }
    {
        Fields { alloc, members }
    }

    /// Any value without a fraction.
    #[tactic(auto, using(crate::proofs::TreeLemmas::put_whole), unfolding(crate::specs::Trees::with_field))]
    pub fn value(self, key: &str, value: Json) -> Result<Fields, NoMemory>
        requires whole { has_frac value ≡ false }
        ensures value { IfOk result (λ all. all ≡ with_field key.now value self) }
    {
        let Fields { alloc, mut members } = self;
        let Ok(key) = Text::from_str(alloc, key) else {
            drop(value);
            drop(members);
            return Err(NoMemory);
        };
        let Ok(()) = members.put(key, value) else {
            drop(members);
            return Err(NoMemory);
        };
        Ok(Fields { alloc, members })
    }

    pub fn null(self, key: &str) -> Result<Fields, NoMemory>
        ensures value { IfOk result (λ all. all ≡ with_field key.now json.Null self) }
    {
        self.value(key, Json::Null)
    }

    pub fn truth(self, key: &str, truth: bool) -> Result<Fields, NoMemory>
        ensures value { IfOk result (λ all. all ≡ with_field key.now (json.Bool truth) self) }
    {
        self.value(key, Json::Bool(truth))
    }

    pub fn int(self, key: &str, number: i64) -> Result<Fields, NoMemory>
        ensures value { IfOk result (λ all. all ≡ with_field key.now (json.Int number) self) }
    {
        self.value(key, Json::Int(number))
    }

    pub fn text(self, key: &str, text: &str) -> Result<Fields, NoMemory>
        ensures value { IfOk result (λ all. all ≡ with_field key.now (json.Text text.now) self) }
    {
        let Ok(text) = Text::from_str(self.alloc, text) else {
            drop(self);
            return Err(NoMemory);
        };
        self.value(key, Json::Text(text))
    }

    /// A text, and null where there is none.
    pub fn text_or_null(self, key: &str, text: Option<&str>) -> Result<Fields, NoMemory>
        ensures value { IfOk result
            (λ all. all ≡ with_field key.now (text_or_null (option_copied text.entry)) self) }
    {
        match text {
            None => self.null(key),
            Some(text) => self.text(key, text),
        }
    }

    /// An object.
    #[tactic(auto, using(crate::proofs::TreeLemmas::obj_whole))]
    pub fn obj(self, key: &str, fields: Fields) -> Result<Fields, NoMemory>
        ensures value { IfOk result (λ all. all ≡ with_field key.now (json.Obj fields) self) }
    {
        self.value(key, Json::Obj(fields.into_obj()))
    }

    /// An object that was heard, without a fraction.
    #[tactic(auto, using(crate::proofs::TreeLemmas::obj_whole))]
    pub fn kept(self, key: &str, obj: &JsonObj) -> Result<Fields, NoMemory>
        requires whole { obj_has_frac obj.now ≡ false }
        ensures value { IfOk result (λ all. all ≡ with_field key.now (json.Obj obj.now) self) }
    {
        let Ok(obj) = obj.copy(self.alloc) else {
            drop(self);
            return Err(NoMemory);
        };
        self.value(key, Json::Obj(obj))
    }

    /// A list.
    #[tactic(auto, using(crate::proofs::TreeLemmas::list_whole))]
    pub fn list(self, key: &str, items: Items) -> Result<Fields, NoMemory>
        ensures value { IfOk result (λ all. all ≡ with_field key.now (json.List items) self) }
    {
        let Items { items } = items;
        self.value(key, Json::List(ListOf::from_vec(items)))
    }

    /// The object itself.
    pub fn into_obj(self) -> JsonObj
        ensures value { result ≡ self }
        ensures whole { obj_has_frac result ≡ false }
    {
        let Fields { members, .. } = self;
        members
    }

    /// The text of the object.
    #[tactic(auto, using(crate::proofs::TreeLemmas::obj_whole))]
    pub fn write(self) -> Result<Text, NoMemory>
        ensures value { IfOk result (λ text. text ≡ json_text (json.Obj self)) }
    {
        let alloc = self.alloc;
        let obj = Json::Obj(self.into_obj());
        let text = write(alloc, &obj);
        drop(obj);
        text
    }
}

/// The items of a list that is to be written.
#[derive(Drop)]
pub struct Items {
    items: Vec<Json>,
}

impl Model for Items {
    ghost use Rattle.std.specs.Prelude.{◌≡◌, List, false};
    ghost use Rattle.mix_base.specs.Json.{list_has_frac};
    ghost use Rattle.std.specs.Coded.{codes};
    ghost use Rattle.mix_base.specs.declared.json.Json.{Json};
    ghost use Rattle.mix_base.specs.contracts.json.Json as json_contracts;

    ghost Value = { List Json };

    ghost coded = { Prim.hlevel (codes, json_contracts.the_row.coded) };

    ghost view = { λ items. items.items.items };

    ghost invariant = { λ items. list_has_frac items.items.items ≡ false };
}

impl Items {
    pub fn new(alloc: Global) -> Items
        ensures value { result ≡ [] }
    {
        Items {
            items: Vec::new(alloc),
        }
    }

    /// Any value without a fraction, at the end.
    pub fn push(&mut self, value: Json) -> Result<(), NoMemory>
        requires whole { has_frac value ≡ false }
        ensures ok { OnOk result (self.new ≡ self.old ++ value ∷ []) }
        ensures err { OnErr result (self.new ≡ self.old) }
    {
        self.items.push(value)?;
        Ok(())
    }

    /// An object, at the end.
    #[tactic(auto, using(crate::proofs::TreeLemmas::obj_whole))]
    pub fn push_obj(&mut self, fields: Fields) -> Result<(), NoMemory>
        ensures ok { OnOk result (self.new ≡ self.old ++ json.Obj fields ∷ []) }
        ensures err { OnErr result (self.new ≡ self.old) }
    {
        self.push(Json::Obj(fields.into_obj()))
    }

    /// A text, at the end.
    pub fn push_text(&mut self, alloc: Global, text: &str) -> Result<(), NoMemory>
        ensures ok { OnOk result (self.new ≡ self.old ++ json.Text text.now ∷ []) }
        ensures err { OnErr result (self.new ≡ self.old) }
    {
        let text = Text::from_str(alloc, text)?;
        self.push(Json::Text(text))
    }
}
