//! Values of columns that are none of the type.
ghost use Rattle.std.specs.Prelude.{◌≡◌};
ghost use Rattle.tb_tree.specs.View.{item_view};
ghost use Rattle.tb_value.specs.SeeKind.{kind_of};
ghost use Rattle.tb_request.specs.declared.shape.Format.TheVariants.{Chunks, Runs};
ghost use Rattle.tb_why.specs.Columns.{value_expected, cell_spot, chunk_spot, chunks_spot, count_at, run_value_spot, run_values_spot, typed_spot, values_spot};
ghost use Rattle.tb_why.specs.Spots.{Finds};

use crate::members::unless;
use crate::spot::{Expected, Spot, under_index, under_member};
use crate::tree::{Tree, dtype, is_cell, items, items_at, member, parts, times_at};
use std::alloc::Global;
use tb_request::Format;
use tb_value::{DataType, MAX_ROWS, OutOfMemory};

fn value_expected(dtype: &DataType) -> Expected
    ensures { result ≡ value_expected (kind_of dtype.now) }
{
    match dtype {
        DataType::Null => Expected::Null,
        DataType::Boolean => Expected::Truth,
        DataType::Int8 => Expected::Whole(-128, 127),
        DataType::Int16 => Expected::Whole(-32_768, 32_767),
        DataType::Int32 | DataType::Date => Expected::Whole(-2_147_483_648, 2_147_483_647),
        DataType::Int64 | DataType::Datetime(_, _) | DataType::Duration(_) | DataType::Time => {
            Expected::Whole(-9_223_372_036_854_775_808, 9_223_372_036_854_775_807)
        }
        DataType::Int128 => Expected::Digits,
        DataType::UInt8 => Expected::Whole(0, 255),
        DataType::UInt16 => Expected::Whole(0, 65_535),
        DataType::UInt32 => Expected::Whole(0, 4_294_967_295),
        DataType::UInt64 => Expected::Whole(0, 18_446_744_073_709_551_615),
        DataType::String => Expected::Text,
        DataType::Binary => Expected::Hexadecimal,
        DataType::List(_) => Expected::List,
        DataType::Struct(_) => Expected::Row,
    }
}

/// The value where it is none of the type.
pub(crate) fn cell_spot(
    alloc: Global,
    dtype: &DataType,
    value: Tree<'_>,
) -> Result<Option<Spot>, OutOfMemory>
    ensures { Finds result (cell_spot (kind_of dtype.now) (item_view value.entry)) }
{
    let holds = is_cell(alloc, dtype, value)?;
    Ok(unless(alloc, holds, value_expected(dtype)))
}

// The first value of a chunk that is none of the type.
fn chunk_spot(alloc: Global, dtype: &DataType, chunk: Tree<'_>) -> Result<Option<Spot>, OutOfMemory>
    ensures { Finds result (chunk_spot (kind_of dtype.now) (item_view chunk.entry)) }
{
    let values = items(chunk);
    for i in 0..values.len() {
        let value = values.at(i);
        if let Some(spot) = cell_spot(alloc, dtype, value)? {
            return under_index(i, Some(spot));
        }
    }
    Ok(None)
}

fn chunks_spot(
    alloc: Global,
    dtype: &DataType,
    chunks: Tree<'_>,
) -> Result<Option<Spot>, OutOfMemory>
    ensures { Finds result (chunks_spot (kind_of dtype.now) (item_view chunks.entry)) }
{
    let chunks = items(chunks);
    for i in 0..chunks.len() {
        let chunk = chunks.at(i);
        if let Some(spot) = chunk_spot(alloc, dtype, chunk)? {
            return under_index(i, Some(spot));
        }
    }
    Ok(None)
}

fn run_value_spot(
    alloc: Global,
    dtype: &DataType,
    run: Tree<'_>,
) -> Result<Option<Spot>, OutOfMemory>
    ensures { Finds result (run_value_spot (kind_of dtype.now) (item_view run.entry)) }
{
    match parts(run) {
        Some((value, _)) => under_index(0, cell_spot(alloc, dtype, value)?),
        None => Ok(None),
    }
}

// The first value of runs that is none of the type.
fn run_values_spot(
    alloc: Global,
    dtype: &DataType,
    runs: Tree<'_>,
) -> Result<Option<Spot>, OutOfMemory>
    ensures { Finds result (run_values_spot (kind_of dtype.now) (item_view runs.entry)) }
{
    let runs = items(runs);
    for i in 0..runs.len() {
        let run = runs.at(i);
        if let Some(spot) = run_value_spot(alloc, dtype, run)? {
            return under_index(i, Some(spot));
        }
    }
    Ok(None)
}

fn chunks_count(column: Tree<'_>) -> u128
    ensures { result ≡ count_at Chunks (item_view column.entry) }
{
    let mut count = 0u128;
    let chunks = items_at(column, "chunks");
    for i in 0..chunks.len() {
        count += items(chunks.at(i)).len() as u128;
    }
    count
}

fn runs_count(column: Tree<'_>) -> u128
    ensures { result ≡ count_at Runs (item_view column.entry) }
{
    let mut count = 0u128;
    let runs = items_at(column, "runs");
    for i in 0..runs.len() {
        count += times_at(runs.at(i)) as u128;
    }
    count
}

/// The number of values of a column.
pub(crate) fn count_at(format: Format, column: Tree<'_>) -> u128
    ensures { result ≡ count_at format (item_view column.entry) }
{
    match format {
        Format::Chunks => chunks_count(column),
        Format::Runs => runs_count(column),
    }
}

fn chunks_typed_spot(
    alloc: Global,
    dtype: &DataType,
    column: Tree<'_>,
) -> Result<Option<Spot>, OutOfMemory>
    ensures { Finds result (typed_spot Chunks (kind_of dtype.now) (item_view column.entry)) }
{
    if let Some(chunks) = member(column, "chunks") {
        if let Some(spot) = chunks_spot(alloc, dtype, chunks)? {
            return under_member(alloc, "chunks", Some(spot));
        }
    }
    let few = chunks_count(column) <= MAX_ROWS as u128;
    Ok(unless(alloc, few, Expected::FewValues))
}

fn runs_typed_spot(
    alloc: Global,
    dtype: &DataType,
    column: Tree<'_>,
) -> Result<Option<Spot>, OutOfMemory>
    ensures { Finds result (typed_spot Runs (kind_of dtype.now) (item_view column.entry)) }
{
    match member(column, "runs") {
        Some(runs) => under_member(alloc, "runs", run_values_spot(alloc, dtype, runs)?),
        None => Ok(None),
    }
}

fn typed_spot(
    alloc: Global,
    format: Format,
    dtype: &DataType,
    column: Tree<'_>,
) -> Result<Option<Spot>, OutOfMemory>
    ensures { Finds result (typed_spot format (kind_of dtype.now) (item_view column.entry)) }
{
    match format {
        Format::Chunks => chunks_typed_spot(alloc, dtype, column),
        Format::Runs => runs_typed_spot(alloc, dtype, column),
    }
}

/// The first value of a column that is none of its type, or the column where its chunks have too many.
pub(crate) fn values_spot(
    alloc: Global,
    format: Format,
    column: Tree<'_>,
) -> Result<Option<Spot>, OutOfMemory>
    ensures { Finds result (values_spot format (item_view column.entry)) }
{
    let Some(kind) = member(column, "type") else {
        return Ok(None);
    };
    match dtype(alloc, kind)? {
        Some(dtype) => typed_spot(alloc, format, &dtype, column),
        None => Ok(None),
    }
}
