//! Runs, which are read where they stand: values, each with its count.
ghost use Rattle.std.specs.Prelude.{◌≡◌, ◌++◌, ℕ, map, replicate, option_map, IfOk, IfSome, OnOk, is_some};
ghost use Rattle.std.specs.List.{All, list_all};
ghost use Rattle.serde_json.specs.Data.{Data};
ghost use Rattle.serde_json.specs.Find.{as_null};
ghost use Rattle.tb_tree.specs.View.{item_view};
ghost use Rattle.tb_value.specs.Promise.Datum.{binary, null, string};
ghost use Rattle.tb_value.specs.Promise.Kind as kind;
ghost use Rattle.tb_value.specs.SeeKind.{kind_of};
ghost use Rattle.tb_value.specs.Promise.Typed.{HasType};
ghost use Rattle.tb_chunk.specs.Chunk.{or_null};
ghost use Rattle.tb_chunk.specs.Col.{physical};
ghost use Rattle.tb_chunk.specs.RunLayout.{total_of};
ghost use Rattle.tb_json.specs.Runs.{run_view, values_in_runs};

use crate::read_arrays::cell_of;
use crate::read_cell::ReadCell;
use crate::read_plain_cells::lent_text;
use crate::read_texts::push_bytes;
use std::alloc::Global;
use tb_cell::copy_cell;
use tb_store::{BinaryBuilder, BinaryChunk, Cells, Chunk, StringBuilder, StringChunk};
use tb_tree::{Item, Value};
use tb_value::{DataType, OutOfMemory};

/// The value of a run, lent, and how often it stands. Of what is no array of a value and a count, this itself, no time.
pub fn lent_run(run: &Value) -> (Item<'_>, u64)
    ensures value { item_view result.0 ≡ (run_view run.now).0 }
    ensures times { result.1 ≡ (run_view run.now).1 }
{
    match run.as_pair() {
        Some((value, times)) => (value, times.as_u64().unwrap_or(0)),
        None => (Item::Lent(run), 0),
    }
}

// Appends copies of a cell.
fn push_copies<N: ReadCell>(
    alloc: Global,
    cells: &mut Cells<N>,
    cell: &Option<N>,
    times: u64,
) -> Result<(), OutOfMemory>
    ensures { OnOk result (map (or_null N.shows) cells.new
        ≡ map (or_null N.shows) cells.old ++ replicate times (or_null N.shows cell.now)) }
{
    for _ in 0..times {
        cells.push(copy_cell(alloc, cell.as_ref())?)?;
    }
    Ok(())
}

// Appends a cell so many times.
fn push_cells<N: ReadCell>(
    alloc: Global,
    cells: &mut Cells<N>,
    cell: Option<N>,
    times: u64,
) -> Result<(), OutOfMemory>
    ensures { OnOk result (map (or_null N.shows) cells.new
        ≡ map (or_null N.shows) cells.old ++ replicate times (or_null N.shows cell)) }
{
    if times == 0 {
        return Ok(());
    }
    push_copies(alloc, cells, &cell, times - 1)?;
    cells.push(cell)?;
    Ok(())
}

/// The cells of these runs, which have so many rows, or None where a value is none of the type.
pub(crate) fn run_cells<N: ReadCell>(
    alloc: Global,
    dtype: &DataType,
    runs: &[Value],
    rows: usize,
) -> Result<Option<Cells<N>>, OutOfMemory>
    requires { physical (kind_of dtype.now) ≡ N.stored }
    ensures cells { IfOk result (λ o. option_map (λ c. map (or_null N.shows) c) o
        ≡ values_in_runs (kind_of dtype.now) (map run_view runs.now)) }
    ensures typed { IfOk result (λ o. IfSome o
        (λ c. All (HasType (kind_of dtype.now)) (map (or_null N.shows) c))) }
{
    let mut cells = Cells::with_capacity(alloc, rows)?;
    for run in runs {
        let (value, times) = lent_run(run);
        let Some(cell) = cell_of(alloc, dtype, value)? else {
            return Ok(None);
        };
        push_cells(alloc, &mut cells, cell, times)?;
    }
    Ok(Some(cells))
}

fn push_text(
    alloc: Global,
    builder: &mut StringBuilder,
    text: Option<&str>,
    times: u64,
) -> Result<(), OutOfMemory>
    ensures { OnOk result
        (builder.new.rows
        ≡ builder.old.rows ++ replicate times (option_map (λ t. t.now) text.entry)) }
{
    match text {
        Some(text) => builder.push_times(alloc, text, times as usize),
        None => builder.push_nulls(times as usize),
    }
}

/// The String chunk of these runs, which have so many rows, or None where a value is no text. The text of a run stands once.
pub(crate) fn run_texts(
    alloc: Global,
    runs: &[Value],
    rows: usize,
) -> Result<Option<StringChunk>, OutOfMemory>
    ensures values { IfOk result (λ o. option_map ⟦<StringChunk as Chunk>⟧.shown o
        ≡ values_in_runs kind.string (map run_view runs.now)) }
    ensures typed { IfOk result (λ o. IfSome o
        (λ c. All (HasType kind.string) (⟦<StringChunk as Chunk>⟧.shown c))) }
{
    let mut builder = StringBuilder::with_capacity(alloc, rows)?;
    for run in runs {
        let (value, times) = lent_run(run);
        let Some(text) = lent_text(value) else {
            return Ok(None);
        };
        push_text(alloc, &mut builder, text, times)?;
    }
    Ok(Some(builder.finish(alloc)?))
}

/// The Binary chunk of these runs, which have so many rows, or None where a value is no bytes. The bytes of a run stand once.
pub(crate) fn run_bytes(
    alloc: Global,
    runs: &[Value],
    rows: usize,
) -> Result<Option<BinaryChunk>, OutOfMemory>
    ensures values { IfOk result (λ o. option_map ⟦<BinaryChunk as Chunk>⟧.shown o
        ≡ values_in_runs kind.binary (map run_view runs.now)) }
    ensures typed { IfOk result (λ o. IfSome o
        (λ c. All (HasType kind.binary) (⟦<BinaryChunk as Chunk>⟧.shown c))) }
{
    let mut builder = BinaryBuilder::with_capacity(alloc, rows)?;
    let mut buffer = Vec::new(alloc);
    for run in runs {
        let (value, times) = lent_run(run);
        if !push_bytes(alloc, &mut builder, &mut buffer, value, times as usize)? {
            return Ok(None);
        }
    }
    Ok(Some(builder.finish(alloc)?))
}

// Whether the value of each run is null.
fn are_null_runs(runs: &[Value]) -> bool
    ensures { result ≡ list_all (λ (r : Data × ℕ). is_some (as_null r.0)) (map run_view runs.now) }
{
    for run in runs {
        let (value, _) = lent_run(run);
        if !value.is_null() {
            return false;
        }
    }
    true
}

/// The number of rows, where the values of all runs are null.
pub(crate) fn run_nulls(runs: &[Value], rows: usize) -> Option<usize>
    requires { rows ≡ total_of (map run_view runs.now) }
    ensures { option_map (λ n. replicate n null) result
        ≡ values_in_runs kind.null (map run_view runs.now) }
{
    if are_null_runs(runs) {
        Some(rows)
    } else {
        None
    }
}
