//! JSON values, which contracts see as the texts that serde_json prints of them.

ghost use Rattle.std.specs.Prelude.{◌≡◌, [], ◌∷◌, ◌++◌, decimal, IfOk, OnOk};
ghost use Rattle.conf_json.specs.Json.{null, flag, quoted, list, with_member, braces};

use net_base::{NoMemory, Text};
use serde_json::{Map, Value};
use std::alloc::Global;
use std::marker::Model;

/// A value with no float in it, which contracts see as its text.
#[derive(Drop)]
pub(crate) struct Json {
    value: Value,
}

impl Model for Json {
    ghost use Rattle.std.specs.Prelude.{◌≡◌, List, ℕ, false};
    ghost use Rattle.serde_json.specs.View.{view as data_of};
    ghost use Rattle.serde_json.specs.Written.{compact_text, has_float};

    ghost Value = { List ℕ };

    ghost view = { λ j. compact_text (data_of j.value) };

    ghost invariant = { λ j. has_float (data_of j.value) ≡ false };
}

impl Json {
    pub(crate) fn null() -> Json
        ensures { result ≡ null }
    {
        Json { value: Value::Null }
    }

    pub(crate) fn flag(is_set: bool) -> Json
        ensures { result ≡ flag is_set }
    {
        Json {
            value: Value::Bool(is_set),
        }
    }

    pub(crate) fn number(number: u64) -> Json
        ensures { result ≡ decimal number }
    {
        Json {
            value: Value::from(number),
        }
    }

    #[tactic(auto, using(crate::proofs::Printed::quoted_is))]
    pub(crate) fn text(alloc: Global, text: &str) -> Result<Json, NoMemory>
        ensures { IfOk result (λ made. made ≡ quoted text.now) }
    {
        let value = Value::try_from_str(alloc, text)?;
        Ok(Json { value })
    }

    /// The text itself.
    pub(crate) fn print(&self, alloc: Global) -> Result<Text, NoMemory>
        ensures { IfOk result (λ printed. printed ≡ self.now) }
    {
        let printed = self.value.to_string(alloc)?;
        Text::from_str(alloc, printed.as_str())
    }
}

/// A list of values, which contracts see as the list of their texts.
#[derive(Drop)]
pub(crate) struct Array {
    values: Vec<Value>,
}

impl Model for Array {
    ghost use Rattle.std.specs.Prelude.{◌≡◌, List, ℕ, false};
    ghost use Rattle.serde_json.specs.View.{items_view};
    ghost use Rattle.serde_json.specs.Written.{items_have_float};
    ghost use Rattle.conf_json.specs.Values.{item_texts};

    ghost Value = { List (List ℕ) };

    ghost view = { λ a. item_texts (items_view a.values.items) };

    ghost invariant = { λ a. items_have_float (items_view a.values.items) ≡ false };
}

impl Array {
    pub(crate) fn new(alloc: Global) -> Array
        ensures { result ≡ [] }
    {
        Array {
            values: Vec::new(alloc),
        }
    }

    /// Adds a value at the end.
    #[tactic(auto, using(crate::proofs::Printed::pushed, crate::proofs::Printed::pushed_without))]
    pub(crate) fn push(&mut self, json: Json) -> Result<(), NoMemory>
        ensures { OnOk result (self.new ≡ self.old ++ json ∷ []) }
    {
        serde_json::push(&mut self.values, json.value)
    }

    pub(crate) fn into_json(self) -> Json
        ensures { result ≡ list self }
    {
        Json {
            value: Value::Array(self.values),
        }
    }
}

/// Members of an object, which contracts see as their names with the texts of their values, in the
/// order of the names' bytes.
#[derive(Drop)]
pub(crate) struct Object {
    members: Map<String, Value>,
}

impl Model for Object {
    ghost use Rattle.std.specs.Prelude.{◌≡◌, List, false};
    ghost use Rattle.serde_json.specs.View.{members_view};
    ghost use Rattle.serde_json.specs.Written.{members_have_float};
    ghost use Rattle.conf_json.specs.Json.{Member};
    ghost use Rattle.conf_json.specs.Values.{member_texts};

    ghost Value = { List Member };

    ghost view = { λ o. member_texts (members_view o.members.entries) };

    ghost invariant = { λ o. members_have_float (members_view o.members.entries) ≡ false };
}

impl Object {
    pub(crate) fn new(alloc: Global) -> Object
        ensures { result ≡ [] }
    {
        Object {
            members: Map::new(alloc),
        }
    }

    /// Puts a member in its place.
    #[tactic(auto, using(crate::proofs::Printed::put_text, crate::proofs::Printed::put_without))]
    pub(crate) fn put(&mut self, alloc: Global, name: &str, json: Json) -> Result<(), NoMemory>
        ensures { OnOk result (self.new ≡ with_member self.old (name.now, json)) }
    {
        serde_json::put(&mut self.members, alloc, name, json.value)
    }

    pub(crate) fn put_flag(
        &mut self,
        alloc: Global,
        name: &str,
        is_set: bool,
    ) -> Result<(), NoMemory>
        ensures { OnOk result (self.new ≡ with_member self.old (name.now, flag is_set)) }
    {
        self.put(alloc, name, Json::flag(is_set))
    }

    pub(crate) fn put_number(
        &mut self,
        alloc: Global,
        name: &str,
        number: u32,
    ) -> Result<(), NoMemory>
        ensures { OnOk result (self.new ≡ with_member self.old (name.now, decimal number)) }
    {
        self.put(alloc, name, Json::number(u64::from(number)))
    }

    pub(crate) fn put_text(
        &mut self,
        alloc: Global,
        name: &str,
        text: &Text,
    ) -> Result<(), NoMemory>
        ensures { OnOk result (self.new ≡ with_member self.old (name.now, quoted text.now)) }
    {
        self.put(alloc, name, Json::text(alloc, text.as_str())?)
    }

    pub(crate) fn into_json(self) -> Json
        ensures { result ≡ braces self }
    {
        Json {
            value: Value::Object(self.members),
        }
    }
}
