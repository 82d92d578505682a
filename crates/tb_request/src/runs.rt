//! Runs, as they are written: values, each with its count, which says how often it stands.
ghost use Rattle.std.specs.Prelude.{◌≡◌, ◌<◌, ◌≤◌, ◌+◌, codes, is_some, map, option_and_then, option_map, IfOk, MatchOption};
ghost use Rattle.serde_json.specs.Find.{get};
ghost use Rattle.tb_tree.specs.View.{item_view, view};
ghost use Rattle.tb_chunk.specs.RunLayout.{total_of};
ghost use Rattle.tb_json.specs.Promise.Lists.{each, list_of};
ghost use Rattle.tb_value.specs.SeeKind.{kind_of};
ghost use Rattle.tb_request.specs.Promise.Columns.{rows_in, rows_in_tables, tables_fit};
ghost use Rattle.tb_request.specs.Promise.Written.{run_of, times_of, whole_of};
ghost use Rattle.tb_request.specs.declared.runs.TheConstants.{MAX_RUN_VALUES};
ghost use Rattle.tb_request.specs.Lent.{run_view, written_view, written_views};

use crate::members::{into_array, into_member};
use crate::shape::{WrittenColumn, WrittenValues};
use std::alloc::Global;
use tb_json::lent_run;
use tb_tree::{Item, Value};
use tb_value::{DataType, OutOfMemory};

/// The most values that the runs of a request may stand for, by their counts.
pub const MAX_RUN_VALUES: u64 = 16_777_216;

/// The count of a run of a column of this type: at least 1, and 1 alone of a list or of a row of fields. None where it is
/// none.
pub fn times_of(dtype: &DataType, times: u64) -> Option<u64>
    ensures { result ≡ times_of (kind_of dtype.now) times }
{
    match (dtype, times) {
        (_, 0) => None,
        (_, 1) => Some(1),
        (DataType::List(_) | DataType::Struct(_), _) => None,
        _ => Some(times),
    }
}

// Whether a value is a run of a column of this type.
fn is_run(dtype: &DataType, value: &Value) -> bool
    ensures { result ≡ is_some (run_of (kind_of dtype.now) (view value.now)) }
{
    match value.as_pair() {
        Some((_, times)) => is_count(dtype, times),
        None => false,
    }
}

fn is_count(dtype: &DataType, times: Item<'_>) -> bool
    ensures { result
        ≡ is_some
        (option_and_then (times_of (kind_of dtype.now)) (whole_of (item_view times.entry))) }
{
    match times.as_u64() {
        Some(times) => times_of(dtype, times).is_some(),
        None => false,
    }
}

fn are_runs(dtype: &DataType, values: &[Value]) -> bool
    ensures { result ≡ is_some (each (run_of (kind_of dtype.now)) (map view values.now)) }
{
    for value in values {
        if !is_run(dtype, value) {
            return false;
        }
    }
    true
}

fn runs_of(alloc: Global, dtype: &DataType, value: Value) -> Result<Option<Vec<Value>>, OutOfMemory>
    ensures { IfOk result (λ o. option_map (λ v. map run_view v.items) o
        ≡ list_of (run_of (kind_of dtype.now)) (view value)) }
{
    let Some(runs) = into_array(alloc, value)? else {
        return Ok(None);
    };
    if !are_runs(dtype, &runs) {
        return Ok(None);
    }
    Ok(Some(runs))
}

/// The runs of a column of this type, or None where it has none or one has not the form of a run.
pub(crate) fn runs_in(
    alloc: Global,
    dtype: &DataType,
    column: Value,
) -> Result<Option<Vec<Value>>, OutOfMemory>
    ensures { IfOk result (λ o. option_map (λ v. map run_view v.items) o
        ≡ option_and_then (list_of (run_of (kind_of dtype.now)))
        (get (codes "runs") (view column))) }
{
    match into_member(column, "runs") {
        Some(runs) => runs_of(alloc, dtype, runs),
        None => Ok(None),
    }
}

// What is left of the room after these runs, if they fit. The counts are never added: they are taken from the room.
#[tactic(auto, using(crate::proofs::RoomLeft::total_drop))]
fn room_after_runs(mut room: u64, runs: &[Value]) -> Option<u64>
    ensures { MatchOption result (room < total_of (map run_view runs.now))
        (λ left. left + total_of (map run_view runs.now) ≡ room) }
{
    for run in runs {
        let (_, times) = lent_run(run);
        room = room.checked_sub(times)?;
    }
    Some(room)
}

// The same of the runs of these columns.
#[tactic(auto, using(crate::proofs::RoomLeft::rows_drop))]
fn room_after(mut room: u64, columns: &[WrittenColumn]) -> Option<u64>
    ensures { MatchOption result (room < rows_in (map written_view columns.now))
        (λ left. left + rows_in (map written_view columns.now) ≡ room) }
{
    for column in columns {
        if let WrittenValues::Runs(runs) = &column.values {
            room = room_after_runs(room, runs)?;
        }
    }
    Some(room)
}

/// How many rows these runs have, which are no more than a request may have.
pub(crate) fn rows_of(runs: &[Value]) -> usize
    requires { total_of (map run_view runs.now) ≤ MAX_RUN_VALUES }
    ensures { result ≡ total_of (map run_view runs.now) }
{
    match room_after_runs(MAX_RUN_VALUES, runs) {
        Some(room) => (MAX_RUN_VALUES - room) as usize,
        None => unreachable!(),
    }
}

// The same of the runs of these tables.
#[tactic(auto, using(crate::proofs::RoomLeft::table_rows_drop))]
fn room_after_tables(mut room: u64, tables: &[Vec<WrittenColumn>]) -> Option<u64>
    ensures { MatchOption result (room < rows_in_tables (map written_views tables.now))
        (λ left. left + rows_in_tables (map written_views tables.now) ≡ room) }
{
    for table in tables {
        room = room_after(room, table)?;
    }
    Some(room)
}

/// Whether the counts of all runs of these tables add up to no more than `MAX_RUN_VALUES`.
pub(crate) fn tables_fit(tables: &[Vec<WrittenColumn>]) -> bool
    ensures { result ≡ tables_fit (map written_views tables.now) }
{
    room_after_tables(MAX_RUN_VALUES, tables).is_some()
}
