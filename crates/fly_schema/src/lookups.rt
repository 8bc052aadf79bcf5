ghost use Rattle.std.specs.Prelude.{◌≡◌, is_some, option_map, map};
ghost use Rattle.std.specs.List.{list_any};
ghost use Rattle.std.specs.Str.{bytes_eq};
ghost use Rattle.serde_json.specs.Data.{array, object};
ghost use Rattle.serde_json.specs.Find.{get_member};
ghost use Rattle.serde_json.specs.View.{view, items_view, members_view};
ghost use Rattle.fly_schema.specs.Lookups as spec;
ghost use Rattle.fly_schema.specs.Views.{name_of};

use crate::table::Name;
use serde_json::{Map, Value};

/// The value of a message's field: its lowerCamelCase spelling counts where both stand, and `null` reads as absent.
pub fn find_field<'v>(members: &'v Map<String, Value>, name: &Name) -> Option<&'v Value>
    ensures { option_map (λ v. view v.now) result
        ≡ spec.value_at (name_of name.now) (object (members_view members.now.entries)) }
{
    match member(members, name.camel) {
        Some(value) => unless_null(value),
        None => match member(members, name.original) {
            Some(value) => unless_null(value),
            None => None,
        },
    }
}

fn member<'v>(members: &'v Map<String, Value>, key: &str) -> Option<&'v Value>
    ensures { option_map (λ v. view v.now) result
        ≡ get_member key.now (members_view members.now.entries) }
{
    members.get(key)
}

fn unless_null(value: &Value) -> Option<&Value>
    ensures { option_map (λ v. view v.now) result ≡ spec.unless_null (view value.now) }
{
    match value {
        Value::Null => None,
        value => Some(value),
    }
}

/// Whether the field is there.
pub(crate) fn is_there(members: &Map<String, Value>, name: &Name) -> bool
    ensures { result
        ≡ spec.is_there (name_of name.now) (object (members_view members.now.entries)) }
{
    find_field(members, name).is_some()
}

/// Whether the field is there, and no empty list.
pub(crate) fn is_filled(members: &Map<String, Value>, name: &Name) -> bool
    ensures { result
        ≡ spec.is_filled (name_of name.now) (object (members_view members.now.entries)) }
{
    match find_field(members, name) {
        Some(value) => !is_empty_list(value),
        None => false,
    }
}

fn is_empty_list(value: &Value) -> bool
    ensures { result ≡ spec.is_empty_list (view value.now) }
{
    match value {
        Value::Array(items) => has_no_items(items.as_slice()),
        _ => false,
    }
}

fn has_no_items(items: &[Value]) -> bool
    ensures { result ≡ spec.is_empty_list (array (items_view items.now)) }
{
    match items {
        [] => true,
        [_, ..] => false,
    }
}

/// Whether the field is `true`.
pub(crate) fn is_true(members: &Map<String, Value>, name: &Name) -> bool
    ensures { result ≡ spec.passes spec.is_true
        (spec.value_at (name_of name.now) (object (members_view members.now.entries))) }
{
    match find_field(members, name) {
        Some(Value::Bool(value)) => *value,
        _ => false,
    }
}

/// Whether the field has one of the texts.
pub(crate) fn has_one_of(members: &Map<String, Value>, name: &Name, texts: &[&'static str]) -> bool
    ensures { result ≡ spec.passes (spec.is_one_of_texts (map (λ t. t.now) texts.now))
        (spec.value_at (name_of name.now) (object (members_view members.now.entries))) }
{
    match find_field(members, name) {
        Some(value) => is_one_of(texts, value),
        None => false,
    }
}

fn is_one_of(texts: &[&'static str], value: &Value) -> bool
    ensures { result ≡ spec.is_one_of_texts (map (λ t. t.now) texts.now) (view value.now) }
{
    match value {
        Value::String(text) => is_among_texts(texts, text.as_str()),
        _ => false,
    }
}

fn is_among_texts(texts: &[&'static str], text: &str) -> bool
    ensures { result ≡ list_any (λ t. bytes_eq text.now t.now) texts.now }
{
    texts.iter().any(|t| text == *t)
}
