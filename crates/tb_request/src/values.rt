//! The values of a request.
ghost use Rattle.std.specs.Prelude.{◌≡◌, ◌≤◌, is_some, map, option_map, IfOk, IsTrue};
ghost use Rattle.tb_value.specs.SeeKind.{kind_of};
ghost use Rattle.tb_value.specs.declared.sorted.IsSorted.TheVariants.{Not};
ghost use Rattle.tb_chunk.specs.Promise.Made.{fresh_column};
ghost use Rattle.tb_json.specs.Promise.Cells.{cell_in};
ghost use Rattle.tb_json.specs.Promise.Lists.{each};
ghost use Rattle.tb_request.specs.Columns.{relaid_column};
ghost use Rattle.tb_request.specs.Promise.Columns.{chunks_in, columns_from, rows_fit, rows_of_runs, run_in, values_of};
ghost use Rattle.tb_request.specs.Promise.Written.{in_chunks, in_runs};
ghost use Rattle.tb_request.specs.declared.runs.TheConstants.{MAX_RUN_VALUES};
ghost use Rattle.tb_request.specs.Lent.{chunk_view, claimed_view, run_view, values_view, written_view};

use crate::runs::rows_of;
use crate::shape::{WrittenColumn, WrittenValues};
use std::alloc::Global;
use tb_json::{arrays_in, item_of, lent_run, run_array_in};
use tb_store::{Column, Series};
use tb_tree::Value;
use tb_value::{DataType, IsSorted, OutOfMemory, PlSmallStr, PolarsError};

/// A column, and the flag that is claimed of its values.
#[derive(Drop)]
pub struct ClaimedColumn {
    pub column: Column,
    pub flag: IsSorted,
}

fn series_of_chunks(
    alloc: Global,
    name: PlSmallStr,
    dtype: DataType,
    chunks: Vec<Value>,
) -> Result<Option<Series>, OutOfMemory>
    ensures { IfOk result (λ o. option_map relaid_column o
        ≡ option_map (λ cs. fresh_column name (kind_of dtype) cs Not)
        (chunks_in (kind_of dtype) (in_chunks (map chunk_view chunks.items)))) }
{
    let Some(arrays) = arrays_in(alloc, &dtype, &chunks)? else {
        return Ok(None);
    };
    match Series::from_typed(alloc, name, dtype, arrays) {
        Ok(series) => Ok(Some(series)),
        Err(PolarsError::OutOfMemory) => Err(OutOfMemory),
        Err(_) => Ok(None),
    }
}

fn series_of_runs(
    alloc: Global,
    name: PlSmallStr,
    dtype: DataType,
    runs: Vec<Value>,
) -> Result<Option<Series>, OutOfMemory>
    requires { rows_of_runs (in_runs (map run_view runs.items)) ≤ MAX_RUN_VALUES }
    ensures { IfOk result (λ o. option_map relaid_column o
        ≡ option_map (λ cs. fresh_column name (kind_of dtype) cs Not)
        (chunks_in (kind_of dtype) (in_runs (map run_view runs.items)))) }
{
    let Some(array) = run_array_in(alloc, &dtype, &runs, rows_of(&runs))? else {
        return Ok(None);
    };
    match Series::from_typed(alloc, name, dtype, array) {
        Ok(series) => Ok(Some(series)),
        Err(_) => Err(OutOfMemory),
    }
}

#[tactic(auto, unfolding(crate::specs::Promise::Columns::values_of))]
fn column_of(alloc: Global, written: WrittenColumn) -> Result<Option<ClaimedColumn>, OutOfMemory>
    requires { rows_of_runs (values_view written.values) ≤ MAX_RUN_VALUES }
    ensures { IfOk result (λ o. option_map claimed_view o ≡ values_of (written_view written)) }
{
    let WrittenColumn {
        name,
        dtype,
        values,
        flag,
    } = written;
    let series = match values {
        WrittenValues::Chunks(chunks) => series_of_chunks(alloc, name, dtype, chunks)?,
        WrittenValues::Runs(runs) => series_of_runs(alloc, name, dtype, runs)?,
    };
    match series {
        Some(series) => Ok(Some(ClaimedColumn {
            column: series.into_column(),
            flag,
        })),
        None => Ok(None),
    }
}

/// The columns of a table whose runs have no more rows than a request may have, or None where a value is not of its
/// column's type or a column of chunks is too long.
pub fn columns_of(
    alloc: Global,
    written: Vec<WrittenColumn>,
) -> Result<Option<Vec<ClaimedColumn>>, OutOfMemory>
    requires { IsTrue (rows_fit (map written_view written.items)) }
    ensures { IfOk result (λ o. option_map (λ v. map claimed_view v.items) o
        ≡ columns_from (map written_view written.items)) }
{
    let mut columns = Vec::with_capacity(alloc, written.len())?;
    for item in written {
        let Some(column) = column_of(alloc, item)? else {
            return Ok(None);
        };
        columns.push(column)?;
    }
    Ok(Some(columns))
}

// Whether the value of a run is of the type.
fn is_of(alloc: Global, dtype: &DataType, run: &Value) -> Result<bool, OutOfMemory>
    ensures { IfOk result (λ b. b ≡ is_some (cell_in (kind_of dtype.now) (run_view run.now).0)) }
{
    let (value, _) = lent_run(run);
    Ok(item_of(alloc, value, dtype)?.is_some())
}

// Whether the value of each run is of the type.
fn are_of(alloc: Global, dtype: &DataType, runs: &[Value]) -> Result<bool, OutOfMemory>
    ensures { IfOk result (λ b.
        b ≡ is_some (each (run_in (kind_of dtype.now)) (map run_view runs.now))) }
{
    for run in runs {
        if !is_of(alloc, dtype, run)? {
            return Ok(false);
        }
    }
    Ok(true)
}

#[tactic(auto, unfolding(crate::specs::Promise::Columns::values_of))]
fn is_column(alloc: Global, written: WrittenColumn) -> Result<bool, OutOfMemory>
    ensures { IfOk result (λ b. b ≡ is_some (values_of (written_view written))) }
{
    let WrittenColumn {
        name,
        dtype,
        values,
        ..
    } = written;
    match values {
        WrittenValues::Chunks(chunks) => {
            Ok(series_of_chunks(alloc, name, dtype, chunks)?.is_some())
        }
        WrittenValues::Runs(runs) => are_of(alloc, &dtype, &runs),
    }
}

/// Whether `columns_of` would give columns, however many rows the runs have: nothing is written out, and the value of a run
/// is made and let go.
pub fn are_columns(alloc: Global, written: Vec<WrittenColumn>) -> Result<bool, OutOfMemory>
    ensures { IfOk result (λ b. b ≡ is_some (columns_from (map written_view written.items))) }
{
    for item in written {
        if !is_column(alloc, item)? {
            return Ok(false);
        }
    }
    Ok(true)
}
