//! Steps, read from lines of JSON.
ghost use Rattle.std.specs.Prelude.{◌≡◌, ◌∷◌, [], List, codes, option_and_then, option_map, All, IfOk, IfSome};
ghost use Rattle.serde_json.specs.Find.{get};
ghost use Rattle.tb_tree.specs.View.{view};
ghost use Rattle.tb_value.specs.Promise.Datum.{int};
ghost use Rattle.tb_value.specs.Promise.Kind as kind;
ghost use Rattle.tb_value.specs.Promise.Kind.{Part};
ghost use Rattle.tb_value.specs.Promise.Typed.{FitsFields, HasType};
ghost use Rattle.tb_value.specs.See.{data_of, datum};
ghost use Rattle.tb_value.specs.SeeKind.{kind_of};
ghost use Rattle.tb_date.specs.Promise.Dates.{date_in};
ghost use Rattle.tb_frame.specs.Promise.Table.{schema_of, table_of};
ghost use Rattle.tb_delta.specs.Running.{step_of, steps_of};
ghost use Rattle.tb_delta_request.specs.Promise.Written.{of_two};
ghost use Rattle.tb_request.specs.Promise.Members.{known_views, names_of};
ghost use Rattle.tb_request.specs.Promise.Written.{count_of};
ghost use Rattle.tb_front.specs.Promise.Due.{Gives};
ghost use Rattle.tb_delta_front.specs.Promise.Steps as due;
ghost use Rattle.tb_delta_front.specs.Promise.Steps.{dated, field_at, field_in, fields_in, insert_in, remove_in, row_in, step_in, steps_in, unknown_field, Fits};

use crate::lines::first_line;
use crate::side_columns::SideColumns;
use std::alloc::Global;
use tb_date::{date_in, is_date};
use tb_delta::Step;
use tb_delta_request::{remove_members, side_at};
use tb_frame::column_name_set;
use tb_front::{FrontFault, StepCause, type_read};
use tb_json::value_of;
use tb_request::{Form, Known, Word, count_of, has_only, json_value};
use tb_store::Column;
use tb_tree::Value;
use tb_value::{AnyValue, DataType, OutOfMemory, PlSmallStr, Side};

// The day that a text is.
fn day_in(text: &str) -> Option<AnyValue>
    ensures value { option_map datum result ≡ option_map int (date_in text.now) }
    ensures typed { IfSome result (λ v. HasType kind.date (datum v)) }
{
    match date_in(text) {
        Some(day) => Some(AnyValue::Int(day as i128)),
        None => None,
    }
}

// A text that is a date, or a value as in requests.
fn dated(
    alloc: Global,
    value: &Value,
    dtype: &DataType,
    text: Option<&str>,
) -> Result<Option<AnyValue>, OutOfMemory>
    requires { kind_of dtype.now ≡ kind.date }
    ensures value { IfOk result (λ o.
        option_map datum o
        ≡ dated (kind_of dtype.now) (view value.now) (option_map (λ s. s.now) text.entry)) }
    ensures typed { IfOk result (λ o. IfSome o (λ v. HasType (kind_of dtype.now) (datum v))) }
{
    match text {
        Some(text) => Ok(day_in(text)),
        None => value_of(alloc, value, dtype),
    }
}

// The value that a field stands for, or None where it is none of the type.
fn field_in(alloc: Global, value: &Value, dtype: &DataType) -> Result<Option<AnyValue>, OutOfMemory>
    ensures value { IfOk result (λ o.
        option_map datum o ≡ field_in (kind_of dtype.now) (view value.now)) }
    ensures typed { IfOk result (λ o. IfSome o (λ v. HasType (kind_of dtype.now) (datum v))) }
{
    if is_date(dtype) {
        dated(alloc, value, dtype, value.as_str())
    } else {
        value_of(alloc, value, dtype)
    }
}

// The row has no field for the column.
fn no_field(alloc: Global, line: usize, column: &Column) -> Result<FrontFault, OutOfMemory>
    ensures { IfOk result (λ f. f ≡ due.no_field line (column.now.name, column.now.kind)) }
{
    let name = column.name().copy(alloc)?;
    let cause = StepCause::NoField(name);
    Ok(FrontFault::Step { line, cause })
}

// The row's field in the column is not of the column's type.
fn not_of_type(alloc: Global, line: usize, column: &Column) -> Result<FrontFault, OutOfMemory>
    ensures { IfOk result (λ f. f ≡ due.not_of_type line (column.now.name, column.now.kind)) }
{
    let name = column.name().copy(alloc)?;
    let cause = StepCause::NotOfType(name, type_read(column.dtype()));
    Ok(FrontFault::Step { line, cause })
}

// The field of a row in the column.
fn field_at(
    alloc: Global,
    column: &Column,
    line: usize,
    row: &Value,
) -> Result<AnyValue, FrontFault>
    ensures value { Gives datum result
        (field_at line (view row.now) (column.now.name, column.now.kind)) }
    ensures typed { IfOk result (λ v. HasType column.now.kind (datum v)) }
{
    let Some(member) = row.get(column.name().as_str()) else {
        return Err(no_field(alloc, line, column)?);
    };
    match field_in(alloc, member, column.dtype())? {
        Some(field) => Ok(field),
        None => Err(not_of_type(alloc, line, column)?),
    }
}

// The fields of a row in the columns.
fn fields_in(
    alloc: Global,
    columns: &[Column],
    line: usize,
    row: &Value,
) -> Result<Vec<AnyValue>, FrontFault>
    ensures value { Gives (λ v. data_of v.items) result
        (fields_in line (view row.now) (schema_of (table_of columns.now))) }
    ensures typed { IfOk result (λ v.
        FitsFields (schema_of (table_of columns.now)) (data_of v.items)) }
{
    let mut fields = Vec::with_capacity(alloc, columns.len())?;
    for column in columns {
        match field_at(alloc, column, line, row) {
            Ok(field) => fields.push(field)?,
            Err(fault) => return Err(fault),
        }
    }
    Ok(fields)
}

fn side_columns(alloc: Global, columns: &[Column]) -> Result<SideColumns<'_>, OutOfMemory>
    ensures { IfOk result (λ s. s.columns.now ≡ columns.now) }
{
    let names = column_name_set(alloc, columns)?;
    Ok(SideColumns { columns, names })
}

// The first name of a member that is no column's.
fn unknown_field(
    alloc: Global,
    side: &SideColumns<'_>,
    row: &Value,
) -> Result<Option<PlSmallStr>, OutOfMemory>
    ensures { IfOk result (λ o.
        o ≡ unknown_field (schema_of (table_of side.now.columns.now)) (view row.now)) }
{
    let Some(members) = row.as_object() else {
        return Ok(None);
    };
    for name in members.keys() {
        let field = PlSmallStr::from_str(alloc, name.as_str())?;
        if !side.names.contains(&field) {
            return Ok(Some(field));
        }
    }
    Ok(None)
}

fn no_step(line: usize) -> FrontFault
    ensures { result ≡ due.no_step line }
{
    let cause = StepCause::NoStep;
    FrontFault::Step { line, cause }
}

// The values of a row, which is an object whose members are a field in each column. So a line is as long as its row.
#[tactic(auto, unfolding(crate::specs::Promise::Steps::row_in))]
fn row_in(
    alloc: Global,
    side: &SideColumns<'_>,
    line: usize,
    row: &Value,
) -> Result<Vec<AnyValue>, FrontFault>
    ensures value { Gives (λ v. data_of v.items) result
        (row_in line (schema_of (table_of side.now.columns.now)) (view row.now)) }
    ensures typed { IfOk result (λ v.
        FitsFields (schema_of (table_of side.now.columns.now)) (data_of v.items)) }
{
    if row.as_object().is_none() {
        return Err(no_step(line));
    }
    match unknown_field(alloc, side, row)? {
        Some(name) => {
            let cause = StepCause::UnknownColumn(name);
            Err(FrontFault::Step { line, cause })
        }
        None => fields_in(alloc, side.columns, line, row),
    }
}

fn columns_on<'a, 'b>(
    side: Side,
    left: &'a SideColumns<'b>,
    right: &'a SideColumns<'b>,
) -> &'a SideColumns<'b>
    ensures { result.now ≡ of_two side left.now right.now }
{
    match side {
        Side::Left => left,
        Side::Right => right,
    }
}

// The number of a row.
fn id_at(object: &Value) -> Option<u32>
    ensures { result ≡ option_and_then count_of (get (codes "id") (view object.now)) }
{
    count_of(object.get("id")?)
}

// The members of a line that puts a row in, which is an object here and no list of values.
fn insert_line_members() -> &'static [Known]
    ensures { names_of (known_views result.now) ≡ codes "insert" ∷ codes "row" ∷ [] }
{
    &[
        Known::Needed("insert", Form::Word(Word::Side)),
        Known::Needed("row", Form::Object),
    ]
}

#[tactic(auto, unfolding(crate::specs::Promise::Steps::insert_in))]
fn insert_in<'a>(
    alloc: Global,
    left: &SideColumns<'a>,
    right: &SideColumns<'a>,
    line: usize,
    value: &Value,
) -> Result<Step, FrontFault>
    ensures value { Gives step_of result
        (insert_in (schema_of (table_of left.now.columns.now))
        (schema_of (table_of right.now.columns.now)) line
        (view value.now)) }
    ensures fits { IfOk result (λ s.
        Fits (schema_of (table_of left.now.columns.now))
        (schema_of (table_of right.now.columns.now)) (step_of s)) }
{
    if !has_only(value, insert_line_members()) {
        return Err(no_step(line));
    }
    let Some(side) = side_at(value, "insert") else {
        return Err(no_step(line));
    };
    let Some(row) = value.get("row") else {
        return Err(no_step(line));
    };
    match row_in(alloc, columns_on(side, left, right), line, row) {
        Ok(row) => Ok(Step::Insert { side, row }),
        Err(fault) => Err(fault),
    }
}

#[tactic(auto, unfolding(crate::specs::Promise::Steps::remove_in))]
fn remove_in(line: usize, value: &Value) -> Result<Step, FrontFault>
    ensures value { Gives step_of result (remove_in line (view value.now)) }
    ensures removal { (left right : List Part) → IfOk result (λ s. Fits left right (step_of s)) }
{
    if !has_only(value, remove_members()) {
        return Err(no_step(line));
    }
    let Some(side) = side_at(value, "remove") else {
        return Err(no_step(line));
    };
    let Some(id) = id_at(value) else {
        return Err(no_step(line));
    };
    Ok(Step::Remove { side, id })
}

fn step_in<'a>(
    alloc: Global,
    left: &SideColumns<'a>,
    right: &SideColumns<'a>,
    line: usize,
    value: &Value,
) -> Result<Step, FrontFault>
    ensures value { Gives step_of result
        (step_in (schema_of (table_of left.now.columns.now))
        (schema_of (table_of right.now.columns.now)) line
        (view value.now)) }
    ensures fits { IfOk result (λ s.
        Fits (schema_of (table_of left.now.columns.now))
        (schema_of (table_of right.now.columns.now)) (step_of s)) }
{
    match value.get("insert") {
        Some(_) => insert_in(alloc, left, right, line, value),
        None => remove_in(line, value),
    }
}

// The step that a line is.
fn step_of<'a>(
    alloc: Global,
    left: &SideColumns<'a>,
    right: &SideColumns<'a>,
    line: usize,
    text: &[u8],
) -> Result<Step, FrontFault>
    ensures value { Gives step_of result
        (due.step_of (schema_of (table_of left.now.columns.now))
        (schema_of (table_of right.now.columns.now)) line
        text.now) }
    ensures fits { IfOk result (λ s.
        Fits (schema_of (table_of left.now.columns.now))
        (schema_of (table_of right.now.columns.now)) (step_of s)) }
{
    match json_value(alloc, text)? {
        Some(value) => step_in(alloc, left, right, line, &value),
        None => {
            let cause = StepCause::NotJson;
            Err(FrontFault::Step { line, cause })
        }
    }
}

// The steps that the lines of a text are.
fn steps_on<'a>(
    alloc: Global,
    left: &SideColumns<'a>,
    right: &SideColumns<'a>,
    text: &[u8],
) -> Result<Vec<Step>, FrontFault>
    ensures value { Gives (λ v. steps_of v.items) result
        (steps_in (schema_of (table_of left.now.columns.now))
        (schema_of (table_of right.now.columns.now)) text.now) }
    ensures fit { IfOk result (λ v.
        All (Fits (schema_of (table_of left.now.columns.now))
        (schema_of (table_of right.now.columns.now)))
        (steps_of v.items)) }
{
    let mut steps = Vec::new(alloc);
    let mut rest = text;
    while !rest.is_empty() {
        let (line, behind) = first_line(rest);
        match step_of(alloc, left, right, steps.len() + 1, line) {
            Ok(step) => steps.push(step)?,
            Err(fault) => return Err(fault),
        }
        rest = behind;
    }
    Ok(steps)
}

/// The steps that the lines of a text are, of sides with these columns.
pub(crate) fn steps_of(
    alloc: Global,
    left: &[Column],
    right: &[Column],
    text: &[u8],
) -> Result<Vec<Step>, FrontFault>
    ensures value { Gives (λ v. steps_of v.items) result
        (steps_in (schema_of (table_of left.now)) (schema_of (table_of right.now)) text.now) }
    ensures fit { IfOk result (λ v.
        All (Fits (schema_of (table_of left.now)) (schema_of (table_of right.now)))
        (steps_of v.items)) }
{
    let left = side_columns(alloc, left)?;
    let right = side_columns(alloc, right)?;
    steps_on(alloc, &left, &right, text)
}
