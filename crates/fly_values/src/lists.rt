ghost use Rattle.std.specs.Prelude.{◌≡◌, IfOk};
ghost use Rattle.serde_json.specs.View.{view};
ghost use Rattle.fly_values.specs.Fields.{list_value, text_value};

use crate::fields::{items_of, text_from};
use fly_types::{List, NoMemory, Text};
use serde_json::Value;
use std::alloc::Global;

/// What is made of a JSON value.
pub trait FromJson: Drop {
    ghost use Rattle.serde_json.specs.Data.{Data};

    ghost of: { Data → Self };

    fn from_json(alloc: Global, value: Value) -> Result<Self, NoMemory>
        ensures { IfOk result (λ r. r ≡ of (view value)) };
}

pub fn list_from<T: FromJson>(alloc: Global, value: Value) -> Result<List<T>, NoMemory>
    ensures { IfOk result (λ l. l ≡ list_value T.of (view value)) }
{
    let items = items_of(alloc, value);
    let mut made = Vec::with_capacity(alloc, items.len())?;
    for item in items {
        made.push(T::from_json(alloc, item)?)?;
    }
    Ok(List::from_vec(made))
}

impl FromJson for Text {
    ghost of = { text_value };

    fn from_json(alloc: Global, value: Value) -> Result<Text, NoMemory> {
        Ok(text_from(alloc, value))
    }
}
