//! JSON values that are built field by field, and their text.
ghost use Rattle.std.specs.Prelude.{◌≡◌, List, [], ◌∷◌, ◌++◌, map, false, IfOk, OnOk, Some, option_map, string_bytes};
ghost use Rattle.std.specs.Str.{IsUtf8};
ghost use Rattle.serde_json.specs.Data.{Data, boolean, number, unsigned, string, array, object, no_members, null as null_value};
ghost use Rattle.serde_json.specs.Find.{of_integer};
ghost use Rattle.serde_json.specs.View.{view, members_view, items_of};
ghost use Rattle.serde_json.specs.Written.{compact_text, has_float, members_have_float, items_have_float};
ghost use Rattle.fly_writers.specs.Json.{with_field, unless_empty, optional_text, optional_list};

use fly_types::NoMemory;
use serde_json::{Map, Number, Value};
use std::alloc::Global;

/// A JSON value without a float, so that its text is known.
#[derive(Drop)]
pub struct Json {
    pub tree: Value,
    pub ghost plain: { has_float (view tree) ≡ false },
}

impl Json {
    ghost use Rattle.fly_writers.specs.Built.{data_of};

    pub fn null() -> Json
        ensures { data_of result ≡ null_value }
    {
        Json { tree: Value::Null }
    }

    pub fn flag(value: bool) -> Json
        ensures { data_of result ≡ boolean value }
    {
        Json {
            tree: Value::Bool(value),
        }
    }

    /// A whole number of a STRUCT.
    pub fn whole(value: i64) -> Json
        ensures { data_of result ≡ number (of_integer value) }
    {
        Json {
            tree: Value::Number(Number::from(value)),
        }
    }

    /// A number of 32 bits.
    pub fn number(value: u32) -> Json
        ensures { data_of result ≡ number (unsigned value) }
    {
        Json {
            tree: Value::Number(Number::from(value)),
        }
    }

    /// A text, without a copy.
    pub fn string(text: String) -> Json
        ensures { data_of result ≡ string (string_bytes text) }
    {
        Json {
            tree: Value::String(text),
        }
    }

    pub fn text(alloc: Global, text: &str) -> Result<Json, NoMemory>
        ensures { IfOk result (λ j. data_of j ≡ string text.now) }
    {
        Ok(Json::string(String::from_str(alloc, text)?))
    }

    /// The JSON with no space and with the keys of each object sorted by their bytes.
    pub fn to_vec(&self, alloc: Global) -> Result<Vec<u8>, NoMemory>
        ensures text { IfOk result (λ text. text.items ≡ compact_text (data_of self.now)) }
        ensures utf8 { IfOk result (λ text. IsUtf8 text.items) }
    {
        Ok(self.tree.to_vec(alloc)?)
    }
}

/// A message under construction: the fields that are there so far.
#[derive(Drop)]
pub struct Message {
    pub alloc: Global,
    pub fields: Map<String, Value>,
    pub ghost plain: { members_have_float (members_view fields.entries) ≡ false },
}

impl Message {
    ghost use Rattle.fly_writers.specs.Built.{data_of, members_of};

    pub fn new(alloc: Global) -> Message
        ensures { members_of result ≡ no_members }
    {
        Message {
            alloc,
            fields: Map::new(alloc),
        }
    }

    /// Adds a field.
    pub fn put(&mut self, name: &str, value: Json) -> Result<(), NoMemory>
        ensures { OnOk result (members_of self.new ≡ with_field (members_of self.old) name.now (Some (data_of value))) }
    {
        let alloc = self.alloc;
        serde_json::put(&mut self.fields, alloc, name, value.tree)?;
        Ok(())
    }

    /// Adds a field where it is there.
    pub fn add(&mut self, name: &str, value: Option<Json>) -> Result<(), NoMemory>
        ensures { OnOk result (members_of self.new ≡ with_field (members_of self.old) name.now (option_map data_of value)) }
    {
        match value {
            Some(value) => self.put(name, value),
            None => Ok(()),
        }
    }

    /// Adds a text, unless it is empty.
    pub fn optional_text(&mut self, name: &str, text: &str) -> Result<(), NoMemory>
        ensures { OnOk result (members_of self.new ≡ with_field (members_of self.old) name.now (optional_text text.now)) }
    {
        if text.is_empty() {
            Ok(())
        } else {
            self.text(name, text)
        }
    }

    /// Adds a text.
    pub fn text(&mut self, name: &str, text: &str) -> Result<(), NoMemory>
        ensures { OnOk result (members_of self.new ≡ with_field (members_of self.old) name.now (Some (string text.now))) }
    {
        let value = Json::text(self.alloc, text)?;
        self.put(name, value)
    }

    pub fn into_json(self) -> Json
        ensures { data_of result ≡ object (members_of self) }
    {
        Json {
            tree: Value::Object(self.fields),
        }
    }

    /// The message, unless it has no field.
    pub fn into_optional(self) -> Option<Json>
        ensures { option_map data_of result ≡ unless_empty (members_of self) }
    {
        if self.fields.is_empty() {
            None
        } else {
            Some(self.into_json())
        }
    }
}

/// A list under construction.
#[derive(Drop)]
pub struct Elements {
    pub values: Vec<Value>,
    pub ghost plain: { items_have_float (items_of (map view values.items)) ≡ false },
}

impl Elements {
    ghost use Rattle.fly_writers.specs.Built.{data_of, elements_of};

    pub fn with_capacity(alloc: Global, count: usize) -> Result<Elements, NoMemory>
        ensures { IfOk result (λ e. elements_of e ≡ []) }
    {
        Ok(Elements {
            values: Vec::with_capacity(alloc, count)?,
        })
    }

    pub fn push(&mut self, value: Json) -> Result<(), NoMemory>
        ensures { OnOk result (elements_of self.new ≡ elements_of self.old ++ data_of value ∷ []) }
    {
        self.values.push(value.tree)?;
        Ok(())
    }

    pub fn into_json(self) -> Json
        ensures { data_of result ≡ array (items_of (elements_of self)) }
    {
        Json {
            tree: Value::Array(self.values),
        }
    }

    /// The list, unless it is empty.
    pub fn into_optional(self) -> Option<Json>
        ensures { option_map data_of result ≡ optional_list (elements_of self) }
    {
        if self.values.is_empty() {
            None
        } else {
            Some(self.into_json())
        }
    }
}
