ghost use Rattle.std.specs.Prelude.{◌≡◌, ◌≤◌, ◌+◌, ◌^◌, IfOk, option_map};
ghost use Rattle.serde_json.specs.View.{view, number_view, items_view, members_view};
ghost use Rattle.fly_types.specs.Levels.{max_levels};
ghost use Rattle.fly_schema.specs.Found.{found_of};
ghost use Rattle.fly_schema.specs.Structs as spec;

use crate::DocKind;
use crate::places::{Found, Step};
use fly_types::NoMemory;
use serde_json::{Map, Number, Value};
use std::alloc::Global;

/// The levels that types, literals and the content of a STRUCT may have.
pub(crate) const MAX_LEVELS: u32 = 16;

/// The largest whole number up to which a JSON number of 64 bits holds each one exactly.
const MAX_EXACT: u64 = (1 << 53) - 1;

/// The first fault in the content of a STRUCT, inside so many lists and objects.
#[cycle(structs)]
pub(crate) fn struct_fault(
    alloc: Global,
    value: &Value,
    levels: u32,
) -> Result<Option<Found>, NoMemory>
    ensures { IfOk result
        (λ o. option_map found_of o ≡ spec.struct_fault (view value.now) levels) }
{
    match value {
        Value::Number(number) => Ok(number_fault(alloc, number)),
        Value::Array(items) => {
            if levels < MAX_LEVELS {
                items_fault(alloc, items, levels + 1)
            } else {
                Ok(Some(Found::new(alloc, DocKind::TooDeep)))
            }
        }
        Value::Object(members) => {
            if levels < MAX_LEVELS {
                members_fault(alloc, members, levels + 1)
            } else {
                Ok(Some(Found::new(alloc, DocKind::TooDeep)))
            }
        }
        _ => Ok(None),
    }
}

#[cycle(structs)]
fn items_fault(alloc: Global, items: &Vec<Value>, levels: u32) -> Result<Option<Found>, NoMemory>
    ensures { IfOk result
        (λ o. option_map found_of o ≡ spec.struct_items_fault (items_view items.now.items) levels 0) }
{
    for (place, item) in items.iter().enumerate() {
        if let Some(found) = struct_fault(alloc, item, levels)? {
            return Ok(Some(found.inside(Step::Index(place))?));
        }
    }
    Ok(None)
}

#[cycle(structs)]
fn members_fault(
    alloc: Global,
    members: &Map<String, Value>,
    levels: u32,
) -> Result<Option<Found>, NoMemory>
    ensures { IfOk result (λ o. option_map found_of o
        ≡ spec.struct_members_fault (members_view members.now.entries) levels 0) }
{
    let mut place = 0;
    for (_, member) in members {
        if let Some(found) = struct_fault(alloc, member, levels)? {
            return Ok(Some(found.inside(Step::Index(place))?));
        }
        place += 1;
    }
    Ok(None)
}

fn number_fault(alloc: Global, number: &Number) -> Option<Found>
    ensures { option_map found_of result ≡ spec.number_fault (number_view number.now) }
{
    if number.is_f64() {
        return Some(Found::new(alloc, DocKind::FloatRefused));
    }
    let size = match (number.as_u64(), number.as_i64()) {
        (Some(size), _) => size,
        (None, Some(value)) => value.unsigned_abs(),
        (None, None) => 0,
    };
    if size <= MAX_EXACT {
        None
    } else {
        Some(Found::new(alloc, DocKind::WrongKind))
    }
}
