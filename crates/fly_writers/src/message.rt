ghost use Rattle.std.specs.Prelude.{◌≡◌, [], ◌∷◌, map, IfOk, option_map};
ghost use Rattle.serde_json.specs.Data.{string};
ghost use Rattle.fly_writers.specs.Json.{message, message_of as message_of_one, optional_number as number_unless_0, optional_flag as flag_unless_false, optional_list};
ghost use Rattle.fly_writers.specs.Built.{data_of};

use crate::json::{Elements, Json, Message};
use fly_types::{NoMemory, Text};
use std::alloc::Global;

/// A message that has one field.
pub fn message_of(alloc: Global, name: &str, value: Json) -> Result<Json, NoMemory>
    ensures { IfOk result (λ j. data_of j ≡ message_of_one name.now (data_of value)) }
{
    let mut message = Message::new(alloc);
    message.put(name, value)?;
    Ok(message.into_json())
}

/// A message with one field, where it is there.
pub fn message_with(alloc: Global, name: &str, value: Option<Json>) -> Result<Json, NoMemory>
    ensures { IfOk result (λ j. data_of j ≡ message ((name.now, option_map data_of value) ∷ [])) }
{
    let mut message = Message::new(alloc);
    message.add(name, value)?;
    Ok(message.into_json())
}

/// A truth value, which is left out where it is false.
pub fn optional_flag(value: bool) -> Option<Json>
    ensures { option_map data_of result ≡ flag_unless_false value }
{
    if value { Some(Json::flag(value)) } else { None }
}

/// A number, which is left out where it is 0.
pub fn optional_number(value: u32) -> Option<Json>
    ensures { option_map data_of result ≡ number_unless_0 value }
{
    if value == 0 {
        None
    } else {
        Some(Json::number(value))
    }
}

/// Texts as a list, which is left out where it is empty.
pub fn texts_value(alloc: Global, texts: &[Text]) -> Result<Option<Json>, NoMemory>
    ensures { IfOk result (λ o. option_map data_of o ≡ optional_list (map string texts.now)) }
{
    let mut values = Elements::with_capacity(alloc, texts.len())?;
    for text in texts {
        values.push(Json::text(alloc, text.as_str())?)?;
    }
    Ok(values.into_optional())
}
