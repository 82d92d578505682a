//! The members of a request, before its values are read.
ghost use Rattle.std.specs.Prelude.{◌≡◌, codes, is_some, map, option_and_then, option_map, IfOk};
ghost use Rattle.serde_json.specs.Find.{get};
ghost use Rattle.tb_tree.specs.View.{view};
ghost use Rattle.tb_json.specs.Promise.Kinds.{kind_in};
ghost use Rattle.tb_json.specs.Promise.Lists.{as_list, each, list_of};
ghost use Rattle.tb_value.specs.SeeKind.{kind_of};
ghost use Rattle.tb_request.specs.Promise.Written.{format_numbered, format_of, flag_named, flag_of, count_of, plan_of, exec_of, standard_exec, join_of, column_of, table_of, table_at, values_in};
ghost use Rattle.tb_request.specs.Lent.{chunk_view, values_view, written_view, exec_view, written_join};

use crate::arguments::args_of;
use crate::known::{column_members, exec_members, join_members, table_members};
use crate::members::{has_only, into_array, into_member, into_sides, name_at, texts_at, truth_at};
use crate::runs::runs_in;
use std::alloc::Global;
use tb_frame::JoinArgs;
use tb_json::type_of;
use tb_tree::Value;
use tb_value::{DataType, IsSorted, OutOfMemory, PlSmallStr};

/// How the columns of a request are written.
#[derive(Clone, Copy, PartialEq, Eq, Debug)]
pub enum Format {
    /// 1: with chunks, lists of values.
    Chunks,
    /// 2: with runs, values and how often each stands.
    Runs,
}

/// The values of a column, which are not read yet.
#[derive(Drop)]
pub enum WrittenValues {
    /// The chunks, each of which is an array.
    Chunks(Vec<Value>),
    /// The runs, each of which is an array of a value and its count.
    Runs(Vec<Value>),
}

/// A column whose values are not read yet, and the flag that is claimed of them.
#[derive(Drop)]
pub struct WrittenColumn {
    pub name: PlSmallStr,
    pub dtype: DataType,
    pub values: WrittenValues,
    pub flag: IsSorted,
}

/// The numbers of an `Exec`, which may be such that they make none.
#[derive(Clone, Copy)]
pub struct ExecNumbers {
    pub workers: u32,
    pub partitions: u32,
    pub small: u32,
    pub num: u32,
    pub den: u32,
}

impl ExecNumbers {
    /// Those of `Exec::standard`.
    pub fn standard() -> ExecNumbers
        ensures { exec_view result ≡ standard_exec }
    {
        ExecNumbers {
            workers: 4,
            partitions: 8,
            small: 256,
            num: 1,
            den: 1,
        }
    }
}

// A request to join, whose values are not read yet.
#[derive(Drop)]
pub(crate) struct WrittenJoin {
    pub args: JoinArgs,
    pub exec: ExecNumbers,
    pub left: Vec<WrittenColumn>,
    pub left_on: Vec<PlSmallStr>,
    pub right: Vec<WrittenColumn>,
    pub right_on: Vec<PlSmallStr>,
    pub trace: bool,
}

fn format_numbered(number: u64) -> Option<Format>
    ensures { result ≡ format_numbered number }
{
    match number {
        1 => Some(Format::Chunks),
        2 => Some(Format::Runs),
        _ => None,
    }
}

/// How the columns of a request are written, or None where its member `format` is neither 1 nor 2.
pub fn format_of(request: &Value) -> Option<Format>
    ensures { result ≡ format_of (view request.now) }
{
    match request.get("format") {
        Some(member) => format_numbered(member.as_u64()?),
        None => Some(Format::Chunks),
    }
}

/// The order of the values of a column that a word names.
pub fn flag_named(text: &str) -> Option<IsSorted>
    ensures { result ≡ flag_named text.now }
{
    match text {
        "ascending" => Some(IsSorted::Ascending),
        "descending" => Some(IsSorted::Descending),
        _ => None,
    }
}

/// The order that a column claims, or None where its member `sorted` is no word of an order.
pub fn flag_of(column: &Value) -> Option<IsSorted>
    ensures { result ≡ flag_of (view column.now) }
{
    match column.get("sorted") {
        Some(member) => flag_named(member.as_str()?),
        None => Some(IsSorted::Not),
    }
}

fn dtype_of(alloc: Global, column: &Value) -> Result<Option<DataType>, OutOfMemory>
    ensures { IfOk result (λ o. option_map kind_of o
        ≡ option_and_then kind_in (get (codes "type") (view column.now))) }
{
    match column.get("type") {
        Some(kind) => type_of(alloc, kind),
        None => Ok(None),
    }
}

fn is_array(value: &Value) -> bool
    ensures { result ≡ is_some (as_list (view value.now)) }
{
    value.as_array().is_some()
}

fn are_arrays(values: &[Value]) -> bool
    ensures { result ≡ is_some (each as_list (map view values.now)) }
{
    for value in values {
        if !is_array(value) {
            return false;
        }
    }
    true
}

fn chunks_of(alloc: Global, value: Value) -> Result<Option<Vec<Value>>, OutOfMemory>
    ensures { IfOk result (λ o. option_map (λ v. map chunk_view v.items) o
        ≡ list_of as_list (view value)) }
{
    let Some(chunks) = into_array(alloc, value)? else {
        return Ok(None);
    };
    if !are_arrays(&chunks) {
        return Ok(None);
    }
    Ok(Some(chunks))
}

fn chunks_in(alloc: Global, column: Value) -> Result<Option<Vec<Value>>, OutOfMemory>
    ensures { IfOk result (λ o. option_map (λ v. map chunk_view v.items) o
        ≡ option_and_then (list_of as_list) (get (codes "chunks") (view column))) }
{
    match into_member(column, "chunks") {
        Some(chunks) => chunks_of(alloc, chunks),
        None => Ok(None),
    }
}

// The values of a column of this type, from the member of each format that has them.
fn values_in(
    alloc: Global,
    format: Format,
    dtype: &DataType,
    column: Value,
) -> Result<Option<WrittenValues>, OutOfMemory>
    ensures { IfOk result (λ o. option_map values_view o
        ≡ values_in format (kind_of dtype.now) (view column)) }
{
    let values = match format {
        Format::Chunks => chunks_in(alloc, column)?.map(WrittenValues::Chunks),
        Format::Runs => runs_in(alloc, dtype, column)?.map(WrittenValues::Runs),
    };
    Ok(values)
}

#[tactic(auto, unfolding(crate::specs::Promise::Written::column_of))]
fn column_of(
    alloc: Global,
    format: Format,
    value: Value,
) -> Result<Option<WrittenColumn>, OutOfMemory>
    ensures { IfOk result (λ o. option_map written_view o ≡ column_of format (view value)) }
{
    if !has_only(&value, column_members(format)) {
        return Ok(None);
    }
    let name = name_at(alloc, &value, "name")?;
    let flag = flag_of(&value);
    let (Some(name), Some(flag), Some(dtype)) = (name, flag, dtype_of(alloc, &value)?) else {
        return Ok(None);
    };
    let Some(values) = values_in(alloc, format, &dtype, value)? else {
        return Ok(None);
    };
    Ok(Some(WrittenColumn {
        name,
        dtype,
        values,
        flag,
    }))
}

fn columns_of(
    alloc: Global,
    format: Format,
    value: Value,
) -> Result<Option<Vec<WrittenColumn>>, OutOfMemory>
    ensures { IfOk result (λ o. option_map (λ v. map written_view v.items) o
        ≡ list_of (column_of format) (view value)) }
{
    let Some(items) = into_array(alloc, value)? else {
        return Ok(None);
    };
    let mut columns = Vec::with_capacity(alloc, items.len())?;
    for item in items {
        let Some(column) = column_of(alloc, format, item)? else {
            return Ok(None);
        };
        columns.push(column)?;
    }
    Ok(Some(columns))
}

#[tactic(auto, unfolding(crate::specs::Promise::Written::table_of))]
fn table_of(
    alloc: Global,
    format: Format,
    value: Value,
) -> Result<Option<Vec<WrittenColumn>>, OutOfMemory>
    ensures { IfOk result (λ o. option_map (λ v. map written_view v.items) o
        ≡ table_of format (view value)) }
{
    if !has_only(&value, table_members()) {
        return Ok(None);
    }
    match into_member(value, "columns") {
        Some(columns) => columns_of(alloc, format, columns),
        None => Ok(None),
    }
}

/// The columns of a table, if there is one, whose request is of this format; None where there is none or it has not the
/// form of a table.
pub fn table_in(
    alloc: Global,
    format: Format,
    member: Option<Value>,
) -> Result<Option<Vec<WrittenColumn>>, OutOfMemory>
    ensures { IfOk result (λ o. option_map (λ v. map written_view v.items) o
        ≡ option_and_then (table_of format) (option_map view member)) }
{
    match member {
        Some(member) => table_of(alloc, format, member),
        None => Ok(None),
    }
}

/// The columns of a member that is a table, in a request of this format.
pub fn table_at(
    alloc: Global,
    format: Format,
    object: Value,
    name: &str,
) -> Result<Option<Vec<WrittenColumn>>, OutOfMemory>
    ensures { IfOk result (λ o. option_map (λ v. map written_view v.items) o
        ≡ table_at format name.now (view object)) }
{
    table_in(alloc, format, into_member(object, name))
}

/// A whole number below 2^32, or None where the value is none.
pub fn count_of(value: &Value) -> Option<u32>
    ensures { result ≡ count_of (view value.now) }
{
    let count = value.as_u64()?;
    if count < 1 << 32 {
        Some(count as u32)
    } else {
        None
    }
}

#[tactic(auto, unfolding(crate::specs::Promise::Written::plan_of))]
fn numbers_of(value: &Value) -> Option<ExecNumbers>
    ensures { option_map exec_view result ≡ plan_of (view value.now) }
{
    if !has_only(value, exec_members()) {
        return None;
    }
    let workers = count_of(value.get("workers")?)?;
    let partitions = count_of(value.get("partitions")?)?;
    let small = count_of(value.get("small")?)?;
    let num = count_of(value.get("num")?)?;
    let den = count_of(value.get("den")?)?;
    Some(ExecNumbers {
        workers,
        partitions,
        small,
        num,
        den,
    })
}

/// The numbers of the member `exec`, those of `Exec::standard` where it is absent, or None where it has not their
/// form.
pub fn exec_of(request: &Value) -> Option<ExecNumbers>
    ensures { option_map exec_view result ≡ exec_of (view request.now) }
{
    match request.get("exec") {
        Some(member) => numbers_of(member),
        None => Some(ExecNumbers::standard()),
    }
}

/// The members of a request to join, or None where the value has not the form of one.
#[tactic(auto, unfolding(crate::specs::Promise::Written::join_of))]
pub(crate) fn join_of(alloc: Global, value: Value) -> Result<Option<WrittenJoin>, OutOfMemory>
    ensures { IfOk result (λ o. option_map written_join o ≡ join_of (view value)) }
{
    if !has_only(&value, join_members()) {
        return Ok(None);
    }
    let Some(args) = value.get("args") else {
        return Ok(None);
    };
    let Some(args) = args_of(alloc, args)? else {
        return Ok(None);
    };
    let (Some(exec), Some(trace)) = (exec_of(&value), truth_at(&value, "trace")) else {
        return Ok(None);
    };
    let Some(format) = format_of(&value) else {
        return Ok(None);
    };
    let left_on = texts_at(alloc, &value, "left_on")?;
    let right_on = texts_at(alloc, &value, "right_on")?;
    let (left, right) = into_sides(value);
    let left = table_in(alloc, format, left)?;
    let right = table_in(alloc, format, right)?;
    let (Some(left), Some(left_on), Some(right), Some(right_on)) = (left, left_on, right, right_on)
    else {
        return Ok(None);
    };
    Ok(Some(WrittenJoin {
        args,
        exec,
        left,
        left_on,
        right,
        right_on,
        trace,
    }))
}
