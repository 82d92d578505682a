//! Runs that have too many values: what is left of the room for values, run by run.
ghost use Rattle.std.specs.Prelude.{◌≡◌, map, option_map};
ghost use Rattle.tb_tree.specs.View.{item_view, listed};
ghost use Rattle.tb_request.specs.declared.shape.Format.TheVariants.{Runs};
ghost use Rattle.tb_why.specs.Columns.{column_room_spot, count_at, room_after, run_room_spot, runs_room_spot, table_room_spot};
ghost use Rattle.tb_why.specs.Spots.{first_in_room, spot_view, Finds};

use crate::cells::count_at;
use crate::members::unless;
use crate::spot::{Expected, Spot, under_index, under_member};
use crate::tree::{Tree, Trees, items, items_at, member, times_at};
use std::alloc::Global;
use tb_request::Format;
use tb_value::OutOfMemory;

fn run_room_spot(alloc: Global, room: u128, run: Tree<'_>) -> Option<Spot>
    ensures { option_map spot_view result ≡ run_room_spot room (item_view run.entry) }
{
    let fits = times_at(run) as u128 <= room;
    unless(alloc, fits, Expected::FewRunValues)
}

fn runs_room_spot(alloc: Global, room: u128, runs: Tree<'_>) -> Result<Option<Spot>, OutOfMemory>
    ensures { Finds result (runs_room_spot room (item_view runs.entry)) }
{
    let mut left = room;
    let runs = items(runs);
    for i in 0..runs.len() {
        let run = runs.at(i);
        if let Some(spot) = run_room_spot(alloc, left, run) {
            return under_index(i, Some(spot));
        }
        left = left.saturating_sub(times_at(run) as u128);
    }
    Ok(None)
}

fn column_room_spot(
    alloc: Global,
    room: u128,
    column: Tree<'_>,
) -> Result<Option<Spot>, OutOfMemory>
    ensures { Finds result (column_room_spot room (item_view column.entry)) }
{
    match member(column, "runs") {
        Some(runs) => under_member(alloc, "runs", runs_room_spot(alloc, room, runs)?),
        None => Ok(None),
    }
}

fn columns_room_spot(
    alloc: Global,
    room: u128,
    columns: Trees<'_>,
) -> Result<Option<Spot>, OutOfMemory>
    ensures { Finds result
        (first_in_room (count_at Runs) column_room_spot room 0 (listed columns.entry)) }
{
    let mut left = room;
    for i in 0..columns.len() {
        let column = columns.at(i);
        if let Some(spot) = column_room_spot(alloc, left, column)? {
            return under_index(i, Some(spot));
        }
        left = left.saturating_sub(count_at(Format::Runs, column));
    }
    Ok(None)
}

/// The first run of a table for which there is no room.
pub(crate) fn table_room_spot(
    alloc: Global,
    room: u128,
    table: Tree<'_>,
) -> Result<Option<Spot>, OutOfMemory>
    ensures { Finds result (table_room_spot room (item_view table.entry)) }
{
    let found = columns_room_spot(alloc, room, items_at(table, "columns"))?;
    under_member(alloc, "columns", found)
}

/// What the runs of a table leave of the room.
pub(crate) fn room_after(room: u128, table: Tree<'_>) -> u128
    ensures { result ≡ room_after room (item_view table.entry) }
{
    let mut left = room;
    let columns = items_at(table, "columns");
    for i in 0..columns.len() {
        left = left.saturating_sub(count_at(Format::Runs, columns.at(i)));
    }
    left
}
