ghost use Rattle.std.specs.Prelude.{◌≡◌, ◌≤◌, ◌<◌, map, is_some, Some, IfOk, option_map};
ghost use Rattle.std.specs.List.{filter};
ghost use Rattle.serde_json.specs.Data.{object};
ghost use Rattle.serde_json.specs.View.{view, members_view};
ghost use Rattle.fly_types.specs.Levels.{max_levels};
ghost use Rattle.fly_schema.specs.Faults as spec;
ghost use Rattle.fly_schema.specs.Found.{found_of};
ghost use Rattle.fly_schema.specs.Lookups as lookups;
ghost use Rattle.fly_schema.specs.Places as places;
ghost use Rattle.fly_schema.specs.Places.{first_of};
ghost use Rattle.fly_schema.specs.declared.fault.DocKind.TheVariants.{WrongKind};
ghost use Rattle.fly_schema.specs.declared.table.Field as field;
ghost use Rattle.fly_schema.specs.declared.table.When.TheVariants as when;
ghost use Rattle.std.specs.Option.{option_or};
ghost use Rattle.fly_schema.specs.There.{AreThere};
ghost use Rattle.fly_schema.specs.Views as views;

use crate::DocKind;
use crate::lookups::{find_field, has_one_of, is_filled, is_there, is_true};
use crate::places::{Found, Step, inside};
use crate::scalars::{has_form, is_refused_float};
use crate::structs::MAX_LEVELS;
use crate::table::{Field, Form, Kind, LeftOut, Level, Name, Need, Row, Shape, When};
use fly_types::NoMemory;
use serde_json::{Map, Value};
use std::alloc::Global;

/// A row that has nothing.
const EMPTY_ROW: &Row = &Row {
    instead: None,
    left_out: &[],
    parts: &[],
};

/// The level of a field's values, in a message at this level.
pub(crate) fn level_after(level: Level, before: u32) -> u32
    requires { before ≤ max_levels }
    ensures { result ≡ spec.level_after level before }
{
    match level {
        Level::Same => before,
        Level::First => 1,
        Level::Deeper => before + 1,
    }
}

/// The first fault of a value, without what is inside it.
pub(crate) fn own_fault(
    alloc: Global,
    value: &Value,
    form: &Form,
    level: u32,
) -> Result<Option<Found>, NoMemory>
    requires { level ≤ max_levels }
    ensures { IfOk result
        (λ o. option_map found_of o ≡ spec.own_fault (views.form_of form.now) level (view value.now)) }
{
    let has_shape = match form.shape {
        Shape::One => {
            return one_fault(alloc, value, &form.kind, level_after(form.level, level));
        }
        Shape::List => value.is_array(),
        Shape::Map(_) => value.is_object(),
    };
    if has_shape {
        Ok(None)
    } else {
        Ok(Some(Found::new(alloc, DocKind::WrongKind)))
    }
}

fn one_fault(
    alloc: Global,
    value: &Value,
    kind: &Kind,
    level: u32,
) -> Result<Option<Found>, NoMemory>
    ensures { IfOk result
        (λ o. option_map found_of o ≡ spec.value_fault (views.kind_of kind.now) level (view value.now)) }
{
    if is_float_of(kind, value) {
        return Ok(Some(Found::new(alloc, DocKind::FloatRefused)));
    }
    if !has_kind(alloc, kind, value)? {
        return Ok(Some(Found::new(alloc, DocKind::WrongKind)));
    }
    if MAX_LEVELS < level {
        return Ok(Some(Found::new(alloc, DocKind::TooDeep)));
    }
    Ok(None)
}

fn is_float_of(kind: &Kind, value: &Value) -> bool
    ensures { result ≡ spec.is_float_of (views.kind_of kind.now) (view value.now) }
{
    match kind {
        Kind::Scalar(scalar) => is_refused_float(scalar, value),
        _ => false,
    }
}

fn has_kind(alloc: Global, kind: &Kind, value: &Value) -> Result<bool, NoMemory>
    ensures { IfOk result
        (λ b. b ≡ spec.has_kind (views.kind_of kind.now) (view value.now)) }
{
    match kind {
        Kind::Scalar(scalar) => has_form(alloc, scalar, value),
        _ => Ok(value.is_object()),
    }
}

/// The row by which a message is read.
pub(crate) fn row_for<'r>(rows: &'r [Row], number: usize, members: &Map<String, Value>) -> &'r Row
    ensures { views.row_of result.now ≡ spec.row_for (views.table_of rows.now) number
        (object (members_view members.now.entries)) }
{
    let row = row_at(rows, number);
    match &row.instead {
        Some(instead) => {
            if has_one_of(members, &instead.name, instead.texts) {
                row_at(rows, instead.row)
            } else {
                row
            }
        }
        None => row,
    }
}

fn row_at(rows: &[Row], number: usize) -> &Row
    ensures { views.row_of result.now ≡ spec.row_at (views.table_of rows.now) number }
{
    match rows.get(number) {
        Some(row) => row,
        None => EMPTY_ROW,
    }
}

/// The first field of a message that is refused.
pub(crate) fn left_out_fault(
    alloc: Global,
    left_out: &[LeftOut],
    members: &Map<String, Value>,
) -> Result<Option<Found>, NoMemory>
    ensures { IfOk result (λ o. option_map found_of o ≡ first_of (map
        (λ l. spec.left_out_fault (object (members_view members.now.entries)) (views.left_out_of l)) left_out.now)) }
{
    for entry in left_out {
        if let Some(found) = entry_fault(alloc, entry, members)? {
            return Ok(Some(found));
        }
    }
    Ok(None)
}

fn entry_fault(
    alloc: Global,
    entry: &LeftOut,
    members: &Map<String, Value>,
) -> Result<Option<Found>, NoMemory>
    ensures { IfOk result (λ o. option_map found_of o
        ≡ spec.left_out_fault (object (members_view members.now.entries)) (views.left_out_of entry.now)) }
{
    let is_refused = match entry.when {
        When::Present => is_there(members, &entry.name),
        When::Filled => is_filled(members, &entry.name),
        When::True => is_true(members, &entry.name),
        When::Absent => return Ok(absent_fault(alloc, members, &entry.name)),
    };
    if is_refused {
        field_fault(alloc, DocKind::LeftOut, entry.name.camel)
    } else {
        Ok(None)
    }
}

fn absent_fault(alloc: Global, members: &Map<String, Value>, name: &Name) -> Option<Found>
    ensures { option_map found_of result
        ≡ spec.left_out_when when.Absent (views.name_of name.now) (object (members_view members.now.entries)) }
{
    if is_there(members, name) {
        None
    } else {
        Some(Found::new(alloc, DocKind::LeftOut))
    }
}

/// A fault at a field.
pub(crate) fn field_fault(
    alloc: Global,
    kind: DocKind,
    name: &'static str,
) -> Result<Option<Found>, NoMemory>
    ensures { IfOk result (λ o. option_map found_of o
        ≡ places.inside (places.field name.now) (places.fault_here kind)) }
{
    inside(Step::Field(name), Some(Found::new(alloc, kind)))
}

/// Whether the field, which has this value, has to be there and is not.
pub(crate) fn is_missing(field: &Field, value: Option<&Value>, members: &Map<String, Value>) -> bool
    requires { option_map (λ v. view v.now) value
        ≡ lookups.value_at (views.name_of field.now.name) (object (members_view members.now.entries)) }
    ensures { result ≡ spec.is_missing (views.need_of field.now.need) (views.name_of field.now.name)
        (object (members_view members.now.entries)) }
{
    match &field.need {
        Need::Optional => false,
        Need::Required => value.is_none(),
        Need::UnlessFilled(other) => {
            !is_filled(members, &field.name) && !is_filled(members, other)
        }
    }
}

/// Which members of a `oneof` are there.
#[derive(Clone, Copy)]
pub(crate) enum There<'r, 'v> {
    No,
    One(&'r Field, &'v Value),
    More,
}

pub(crate) fn members_there<'r, 'v>(
    fields: &'r [Field],
    members: &'v Map<String, Value>,
) -> There<'r, 'v>
    ensures { AreThere (object (members_view members.now.entries)) result (filter
        (λ (f : field.Field). lookups.is_there (views.name_of f.name) (object (members_view members.now.entries))) fields.now) }
{
    let mut found = There::No;
    for field in fields {
        if let Some(value) = find_field(members, &field.name) {
            match found {
                There::No => found = There::One(field, value),
                _ => return There::More,
            }
        }
    }
    found
}

/// The fault of two members of a `oneof`: the first that is refused as a float, or that there are two.
pub(crate) fn two_fault(
    alloc: Global,
    fields: &[Field],
    members: &Map<String, Value>,
) -> Result<Option<Found>, NoMemory>
    ensures { IfOk result (λ o. option_map found_of o ≡ option_or (first_of (map
        (λ f. spec.float_fault (object (members_view members.now.entries)) (views.field_of f)) fields.now))
        (places.fault_here WrongKind)) }
{
    for field in fields {
        if let Some(value) = find_field(members, &field.name)
            && is_float_of(&field.form.kind, value)
        {
            return field_fault(alloc, DocKind::FloatRefused, field.name.camel);
        }
    }
    Ok(Some(Found::new(alloc, DocKind::WrongKind)))
}
