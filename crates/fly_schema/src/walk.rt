ghost use Rattle.std.specs.Prelude.{◌≡◌, ◌≤◌, map, IfOk, option_map};
ghost use Rattle.serde_json.specs.Data.{object};
ghost use Rattle.serde_json.specs.View.{view, items_view, members_view};
ghost use Rattle.fly_types.specs.Levels.{max_levels};
ghost use Rattle.fly_schema.specs.Faults as spec;
ghost use Rattle.fly_schema.specs.Found.{found_of};
ghost use Rattle.fly_schema.specs.Reports.{report_in, first_report};
ghost use Rattle.fly_schema.specs.Table as forms;
ghost use Rattle.fly_schema.specs.Views as views;

use crate::fault::{DocFault, DocKind};
use crate::lookups::find_field;
use crate::places::{Found, Step, inside, place_text};
use crate::rules::{
    There, field_fault, is_missing, left_out_fault, level_after, members_there, own_fault, row_for,
    two_fault,
};
use crate::scalars::fits_texts;
use crate::structs::struct_fault;
use crate::table::{Field, Form, Kind, Part, Row, Shape, TextForm};
use fly_types::NoMemory;
use serde_json::{Map, Value};
use std::alloc::Global;

/// The first fault of a document against what it is to be, by a table of rows; none where it has none.
pub fn first_fault(
    alloc: Global,
    rows: &[Row],
    form: &Form,
    tree: &Value,
) -> Result<Option<DocFault>, NoMemory>
    ensures { IfOk result (λ o. option_map report_in o
        ≡ first_report (views.table_of rows.now) (views.form_of form.now) (view tree.now)) }
{
    match value_fault(alloc, rows, tree, form, 0)? {
        Some(Found { kind, steps }) => {
            let place = place_text(alloc, steps)?;
            Ok(Some(DocFault { kind, place }))
        }
        None => Ok(None),
    }
}

/// The first fault of a value, in a message at this level.
#[cycle(walk)]
fn value_fault(
    alloc: Global,
    rows: &[Row],
    value: &Value,
    form: &Form,
    level: u32,
) -> Result<Option<Found>, NoMemory>
    requires { level ≤ max_levels }
    ensures { IfOk result (λ o. option_map found_of o
        ≡ spec.fault_of (views.table_of rows.now) (view value.now) (views.form_of form.now) level) }
{
    if let Some(found) = own_fault(alloc, value, form, level)? {
        return Ok(Some(found));
    }
    match value {
        Value::Array(items) => match form.shape {
            Shape::List => items_fault(alloc, rows, items.as_slice(), &element_of(form), level),
            _ => Ok(None),
        },
        Value::Object(members) => match form.shape {
            Shape::One => content_fault(alloc, rows, value, members, form, level),
            Shape::Map(keys) => {
                entries_fault(alloc, rows, members, &keys, &element_of(form), level)
            }
            Shape::List => Ok(None),
        },
        _ => Ok(None),
    }
}

/// What an item of the list or an entry of the map is to be.
fn element_of(form: &Form) -> Form
    ensures { views.form_of result ≡ spec.element_of (views.form_of form.now) }
{
    Form {
        shape: Shape::One,
        kind: form.kind,
        level: form.level,
    }
}

#[cycle(walk)]
fn items_fault(
    alloc: Global,
    rows: &[Row],
    items: &[Value],
    form: &Form,
    level: u32,
) -> Result<Option<Found>, NoMemory>
    requires { level ≤ max_levels }
    ensures { IfOk result (λ o. option_map found_of o ≡ spec.items_fault (views.table_of rows.now)
        (items_view items.now) (views.form_of form.now) level 0) }
{
    for (place, item) in items.iter().enumerate() {
        if let Some(found) = value_fault(alloc, rows, item, form, level)? {
            return Ok(Some(found.inside(Step::Index(place))?));
        }
    }
    Ok(None)
}

#[cycle(walk)]
fn entries_fault(
    alloc: Global,
    rows: &[Row],
    members: &Map<String, Value>,
    keys: &TextForm,
    form: &Form,
    level: u32,
) -> Result<Option<Found>, NoMemory>
    requires { level ≤ max_levels }
    ensures { IfOk result (λ o. option_map found_of o ≡ spec.entries_fault (views.table_of rows.now)
        (members_view members.now.entries) (views.texts_of keys.now) (views.form_of form.now) level 0) }
{
    let mut place = 0;
    for (key, value) in members {
        if let Some(found) = entry_fault(alloc, rows, keys, key.as_str(), value, form, level)? {
            return Ok(Some(found.inside(Step::Index(place))?));
        }
        place += 1;
    }
    Ok(None)
}

/// The first fault of an entry of a map: of its key, or else of its value.
#[cycle(walk)]
fn entry_fault(
    alloc: Global,
    rows: &[Row],
    keys: &TextForm,
    key: &str,
    value: &Value,
    form: &Form,
    level: u32,
) -> Result<Option<Found>, NoMemory>
    requires { level ≤ max_levels }
    ensures { IfOk result (λ o. option_map found_of o
        ≡ spec.entry_fault (spec.fault_of (views.table_of rows.now) (view value.now))
        (views.texts_of keys.now) key.now (views.form_of form.now) level) }
{
    if fits_texts(keys, key) {
        value_fault(alloc, rows, value, form, level)
    } else {
        Ok(Some(Found::new(alloc, DocKind::WrongKind)))
    }
}

/// The first fault inside an object that is one value.
#[cycle(walk)]
fn content_fault(
    alloc: Global,
    rows: &[Row],
    value: &Value,
    members: &Map<String, Value>,
    form: &Form,
    level: u32,
) -> Result<Option<Found>, NoMemory>
    requires value { view value.now ≡ object (members_view members.now.entries) }
    requires level { level ≤ max_levels }
    requires after { spec.level_after form.now.level level ≤ max_levels }
    ensures { IfOk result (λ o. option_map found_of o ≡ spec.content_fault (views.table_of rows.now)
        (object (members_view members.now.entries))
        (spec.member_fault (views.table_of rows.now) (members_view members.now.entries))
        (spec.level_after form.now.level level) (views.kind_of form.now.kind)) }
{
    match form.kind {
        Kind::Message(number) => {
            let row = row_for(rows, number, members);
            row_fault(alloc, rows, row, members, level_after(form.level, level))
        }
        Kind::Struct => struct_fault(alloc, value, 0),
        _ => Ok(None),
    }
}

#[cycle(walk)]
fn row_fault(
    alloc: Global,
    rows: &[Row],
    row: &Row,
    members: &Map<String, Value>,
    level: u32,
) -> Result<Option<Found>, NoMemory>
    requires { level ≤ max_levels }
    ensures { IfOk result (λ o. option_map found_of o ≡ spec.row_fault
        (object (members_view members.now.entries))
        (spec.member_fault (views.table_of rows.now) (members_view members.now.entries)) level
        (views.row_of row.now)) }
{
    if let Some(found) = left_out_fault(alloc, row.left_out, members)? {
        return Ok(Some(found));
    }
    for part in row.parts {
        if let Some(found) = part_fault(alloc, rows, part, members, level)? {
            return Ok(Some(found));
        }
    }
    Ok(None)
}

#[cycle(walk)]
fn part_fault(
    alloc: Global,
    rows: &[Row],
    part: &Part,
    members: &Map<String, Value>,
    level: u32,
) -> Result<Option<Found>, NoMemory>
    requires { level ≤ max_levels }
    ensures { IfOk result (λ o. option_map found_of o ≡ spec.part_fault
        (object (members_view members.now.entries))
        (spec.member_fault (views.table_of rows.now) (members_view members.now.entries)) level
        (views.part_of part.now)) }
{
    match part {
        Part::Single(field) => single_fault(alloc, rows, field, members, level),
        Part::OneOf {
            required,
            members: fields,
        } => one_of_fault(alloc, rows, *required, fields, members, level),
    }
}

#[cycle(walk)]
fn single_fault(
    alloc: Global,
    rows: &[Row],
    field: &Field,
    members: &Map<String, Value>,
    level: u32,
) -> Result<Option<Found>, NoMemory>
    requires { level ≤ max_levels }
    ensures { IfOk result (λ o. option_map found_of o ≡ spec.field_fault
        (object (members_view members.now.entries))
        (spec.member_fault (views.table_of rows.now) (members_view members.now.entries)) level
        (views.field_of field.now)) }
{
    let value = find_field(members, &field.name);
    if is_missing(field, value, members) {
        return field_fault(alloc, DocKind::Missing, field.name.camel);
    }
    match value {
        Some(value) => inside(
            Step::Field(field.name.camel),
            value_fault(alloc, rows, value, &field.form, level)?,
        ),
        None => Ok(None),
    }
}

#[cycle(walk)]
fn one_of_fault(
    alloc: Global,
    rows: &[Row],
    required: bool,
    fields: &[Field],
    members: &Map<String, Value>,
    level: u32,
) -> Result<Option<Found>, NoMemory>
    requires { level ≤ max_levels }
    ensures { IfOk result (λ o. option_map found_of o ≡ spec.part_fault
        (object (members_view members.now.entries))
        (spec.member_fault (views.table_of rows.now) (members_view members.now.entries)) level
        (forms.one_of required (map views.field_of fields.now))) }
{
    match members_there(fields, members) {
        There::No => {
            if required {
                Ok(Some(Found::new(alloc, DocKind::Missing)))
            } else {
                Ok(None)
            }
        }
        There::One(field, value) => inside(
            Step::Field(field.name.camel),
            value_fault(alloc, rows, value, &field.form, level)?,
        ),
        There::More => two_fault(alloc, fields, members),
    }
}
