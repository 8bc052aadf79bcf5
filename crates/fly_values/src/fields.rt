ghost use Rattle.std.specs.Prelude.{◌≡◌, ℕ, List, true, option_map, map};
ghost use Rattle.serde_json.specs.View.{view, members_view};
ghost use Rattle.fly_values.specs.Fields as spec;
ghost use Rattle.fly_values.specs.Fields.{members_in, original_name, field, member_at, are_apart, text_value, truth_value, items_in};

use fly_types::Text;
use serde_json::{Map, Value};
use std::alloc::Global;

/// The fields of the message that a value is. What is no object has none.
pub fn fields_of(alloc: Global, value: Value) -> Map<String, Value>
    ensures { members_view result.entries ≡ members_in (view value) }
{
    match value {
        Value::Object(members) => members,
        _ => Map::new(alloc),
    }
}

/// Takes a field out, by its name in lowerCamelCase and its original one. An absent one is null.
pub fn take(fields: &mut Map<String, Value>, name: &str, original: &str) -> Value
    requires { original.now ≡ original_name name.now }
    ensures value { view result ≡ field name.now (members_view fields.old.entries) }
    ensures rest { (other : List ℕ) → are_apart other name.now ≡ true
        → field other (members_view fields.new.entries) ≡ field other (members_view fields.old.entries) }
{
    let under_name = fields.remove(name);
    let under_original = fields.remove(original);
    first_there(under_name, under_original)
}

/// Takes a field out where it is there; null reads as absent.
#[tactic(auto, unfolding(crate::specs::Fields::member_at), using(crate::proofs::FieldLemmas::member_same))]
pub fn take_member(fields: &mut Map<String, Value>, name: &str, original: &str) -> Option<Value>
    requires { original.now ≡ original_name name.now }
    ensures value { option_map view result ≡ member_at name.now (members_view fields.old.entries) }
    ensures rest { (other : List ℕ) → are_apart other name.now ≡ true
        → field other (members_view fields.new.entries) ≡ field other (members_view fields.old.entries) }
    ensures members { (other : List ℕ) → are_apart other name.now ≡ true
        → member_at other (members_view fields.new.entries) ≡ member_at other (members_view fields.old.entries) }
{
    unless_null(take(fields, name, original))
}

fn unless_null(value: Value) -> Option<Value>
    ensures { option_map view result ≡ spec.unless_null (view value) }
{
    match value {
        Value::Null => None,
        value => Some(value),
    }
}

fn first_there(value: Option<Value>, other: Option<Value>) -> Value
    ensures { view result ≡ spec.first_there (option_map view value) (option_map view other) }
{
    match value {
        Some(value) => value,
        None => match other {
            Some(value) => value,
            None => Value::Null,
        },
    }
}

pub fn text_from(alloc: Global, value: Value) -> Text
    ensures { result ≡ text_value (view value) }
{
    match value {
        Value::String(text) => Text::from_string(text),
        _ => Text::from_string(String::new(alloc)),
    }
}

pub fn truth_from(value: Value) -> bool
    ensures { result ≡ truth_value (view value) }
{
    match value {
        Value::Bool(truth) => truth,
        _ => false,
    }
}

/// Whether this is the value of an enum with the name and the number, under one of them.
pub fn is_called(value: &Value, name: &str, number: u64) -> bool
    ensures { result ≡ spec.is_called name.now number (view value.now) }
{
    match value {
        Value::String(text) => text.as_str() == name,
        Value::Number(given) => given.as_u64() == Some(number),
        _ => false,
    }
}

/// The items of an array. What is no array has none.
pub fn items_of(alloc: Global, value: Value) -> Vec<Value>
    ensures { map view result.items ≡ items_in (view value) }
{
    match value {
        Value::Array(items) => items,
        _ => Vec::new(alloc),
    }
}
