//! Columns and tables that are at fault.
ghost use Rattle.std.specs.Prelude.{◌≡◌, map, IfOk};
ghost use Rattle.tb_tree.specs.View.{item_view, listed};
ghost use Rattle.tb_value.specs.SeeKind.{kind_of};
ghost use Rattle.tb_request.specs.declared.shape.Format.TheVariants.{Chunks, Runs};
ghost use Rattle.tb_why.specs.Columns.{column_spot, columns_spot, flag_is_true, flag_spot, height, is_ordered, shape_spot, table_spot};
ghost use Rattle.tb_why.specs.Spots.{first_at, Finds};

use crate::cells::{count_at, values_spot};
use crate::members::{members_spot, unless};
use crate::names::name_spot;
use crate::runs::counted_spot;
use crate::spot::{Expected, Spot, under_index, under_member};
use crate::tree::{Tree, Trees, chunk_lists, dtype, flag, items_at, member, run_values};
use std::alloc::Global;
use tb_request::{Format, Reason, column_members, flag_holds, table_members};
use tb_store::Series;
use tb_value::{DataType, IsSorted, OutOfMemory, PolarsError};

fn shape_spot(alloc: Global, format: Format, column: Tree<'_>) -> Result<Option<Spot>, OutOfMemory>
    ensures { Finds result (shape_spot format (item_view column.entry)) }
{
    if let Some(spot) = members_spot(alloc, column_members(format), column)? {
        return Ok(Some(spot));
    }
    match format {
        Format::Chunks => Ok(None),
        Format::Runs => counted_spot(alloc, column),
    }
}

// Whether the values of these chunks are in the order; true where they are none of a column of the type.
fn are_chunks_ordered(
    alloc: Global,
    flag: IsSorted,
    dtype: DataType,
    column: Tree<'_>,
) -> Result<bool, OutOfMemory>
    ensures { IfOk result (λ b. b
        ≡ is_ordered Chunks flag (item_view column.entry) (kind_of dtype)) }
{
    let Some(chunks) = chunk_lists(alloc, &dtype, column)? else {
        return Ok(true);
    };
    match Series::from_chunks(alloc, "", dtype, chunks) {
        Ok(series) => Ok(flag_holds(&series.into_column(), flag)),
        Err(PolarsError::OutOfMemory) => Err(OutOfMemory),
        Err(_) => Ok(true),
    }
}

// The same of runs.
#[tactic(auto, using(tb_chunk::proofs::RunLayout::expansion_length))]
fn are_runs_ordered(
    alloc: Global,
    flag: IsSorted,
    dtype: DataType,
    column: Tree<'_>,
) -> Result<bool, OutOfMemory>
    ensures { IfOk result (λ b. b ≡ is_ordered Runs flag (item_view column.entry) (kind_of dtype)) }
{
    let Some(runs) = run_values(alloc, &dtype, column)? else {
        return Ok(true);
    };
    match Series::from_runs(alloc, "", dtype, runs) {
        Ok(made) => Ok(flag_holds(&made.into_column(), flag)),
        Err(PolarsError::OutOfMemory) => Err(OutOfMemory),
        Err(_) => Ok(true),
    }
}

fn is_ordered(
    alloc: Global,
    format: Format,
    flag: IsSorted,
    dtype: DataType,
    column: Tree<'_>,
) -> Result<bool, OutOfMemory>
    ensures { IfOk result (λ b. b
        ≡ is_ordered format flag (item_view column.entry) (kind_of dtype)) }
{
    match format {
        Format::Chunks => are_chunks_ordered(alloc, flag, dtype, column),
        Format::Runs => are_runs_ordered(alloc, flag, dtype, column),
    }
}

fn flag_is_true(
    alloc: Global,
    format: Format,
    flag: IsSorted,
    column: Tree<'_>,
) -> Result<bool, OutOfMemory>
    ensures { IfOk result (λ b. b ≡ flag_is_true format flag (item_view column.entry)) }
{
    let Some(kind) = member(column, "type") else {
        return Ok(true);
    };
    match dtype(alloc, kind)? {
        Some(dtype) => is_ordered(alloc, format, flag, dtype, column),
        None => Ok(true),
    }
}

fn flag_spot(alloc: Global, format: Format, column: Tree<'_>) -> Result<Option<Spot>, OutOfMemory>
    ensures { Finds result (flag_spot format (item_view column.entry)) }
{
    match flag(column) {
        Some(flag) => {
            let holds = flag_is_true(alloc, format, flag, column)?;
            Ok(unless(alloc, holds, Expected::Ordered(flag)))
        }
        None => Ok(None),
    }
}

fn column_spot(
    alloc: Global,
    format: Format,
    reason: Reason,
    height: u128,
    column: Tree<'_>,
) -> Result<Option<Spot>, OutOfMemory>
    ensures { Finds result (column_spot format reason height (item_view column.entry)) }
{
    match reason {
        Reason::Shape => shape_spot(alloc, format, column),
        Reason::Value => values_spot(alloc, format, column),
        Reason::Heights => {
            let level = count_at(format, column) == height;
            Ok(unless(alloc, level, Expected::Height(height)))
        }
        Reason::Flag => flag_spot(alloc, format, column),
        Reason::Json | Reason::Rows | Reason::Exec | Reason::Name => Ok(None),
    }
}

fn height(format: Format, columns: Trees<'_>) -> u128
    ensures { result ≡ height format (listed columns.entry) }
{
    if columns.len() == 0 {
        return 0;
    }
    count_at(format, columns.at(0))
}

// The first column that is at fault by itself, or beside the first one.
fn single_spot(
    alloc: Global,
    format: Format,
    reason: Reason,
    columns: Trees<'_>,
) -> Result<Option<Spot>, OutOfMemory>
    ensures { Finds result
        (first_at (column_spot format reason (height format (listed columns.entry))) 0
        (listed columns.entry)) }
{
    let height = height(format, columns);
    for i in 0..columns.len() {
        let column = columns.at(i);
        if let Some(spot) = column_spot(alloc, format, reason, height, column)? {
            return under_index(i, Some(spot));
        }
    }
    Ok(None)
}

fn columns_spot(
    alloc: Global,
    format: Format,
    reason: Reason,
    columns: Trees<'_>,
) -> Result<Option<Spot>, OutOfMemory>
    ensures { Finds result (columns_spot format reason (listed columns.entry)) }
{
    match reason {
        Reason::Name => name_spot(alloc, columns),
        _ => single_spot(alloc, format, reason, columns),
    }
}

/// The first member or column of a table that is at fault for the reason.
pub(crate) fn table_spot(
    alloc: Global,
    format: Format,
    reason: Reason,
    table: Tree<'_>,
) -> Result<Option<Spot>, OutOfMemory>
    ensures { Finds result (table_spot format reason (item_view table.entry)) }
{
    if let Some(spot) = members_spot(alloc, table_members(), table)? {
        return Ok(Some(spot));
    }
    let found = columns_spot(alloc, format, reason, items_at(table, "columns"))?;
    under_member(alloc, "columns", found)
}
