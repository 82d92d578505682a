//! The requests of commands that are at fault.
ghost use Rattle.std.specs.Prelude.{◌≡◌, ◌-◌, codes};
ghost use Rattle.tb_tree.specs.View.{item_view};
ghost use Rattle.tb_request.specs.declared.runs.TheConstants.{MAX_RUN_VALUES};
ghost use Rattle.tb_request.specs.Promise.Members.{known_views};
ghost use Rattle.tb_why.specs.Arguments.{args_spot};
ghost use Rattle.tb_why.specs.Columns.{items_of, table_room_spot, table_spot};
ghost use Rattle.tb_why.specs.Requests.{aggs_spot, entries_spot, entry_room_spot, entry_rows, entry_spot, exec_known, exec_spot, format_at, members_of, only_spot, parts_spot, plan_spot, request_spot, right_room, sides_spot};
ghost use Rattle.tb_why.specs.Spots.{first_at, first_in_room, inside, or_else, Finds};
ghost use Rattle.tb_why.specs.Members.{members_spot};
ghost use Rattle.tb_why.specs.declared.spot.Command as Command;
ghost use Rattle.tb_plan_request.specs.Promise.Members.{pivot_args_members};

use crate::args::args_spot;
use crate::columns::table_spot;
use crate::members::members_spot;
use crate::nodes::node_spot;
use crate::room::{room_after, table_room_spot};
use crate::spot::{Command, Spot, under_index, under_member};
use crate::steps::steps_spot;
use crate::tree::{Tree, format, items, member};
use std::alloc::Global;
use tb_delta_request::delta_members;
use tb_group_request::{agg_members, group_members};
use tb_plan_request::{entry_members, pivot_args_members, plan_members};
use tb_request::{
    Format, Known, MAX_RUN_VALUES, Reason, dummies_members, exec_members, join_members,
    pivot_members, standing_members, unpivot_members,
};
use tb_value::OutOfMemory;

fn members_of(command: Command) -> &'static [Known]
    ensures { known_views result.now ≡ members_of command }
{
    match command {
        Command::Join => join_members(),
        Command::Unpivot => unpivot_members(),
        Command::Dummies => dummies_members(),
        Command::Pivot => pivot_members(),
        Command::Plan => plan_members(),
        Command::Delta => delta_members(),
        Command::Group => group_members(),
    }
}

fn exec_known(reason: Reason) -> &'static [Known]
    ensures { known_views result.now ≡ exec_known reason }
{
    match reason {
        Reason::Exec => standing_members(),
        _ => exec_members(),
    }
}

fn exec_spot(alloc: Global, reason: Reason, request: Tree<'_>) -> Result<Option<Spot>, OutOfMemory>
    ensures { Finds result (exec_spot reason (item_view request.entry)) }
{
    match member(request, "exec") {
        Some(exec) => under_member(
            alloc,
            "exec",
            members_spot(alloc, exec_known(reason), exec)?,
        ),
        None => Ok(None),
    }
}

fn table_at(
    alloc: Global,
    format: Format,
    reason: Reason,
    request: Tree<'_>,
    name: &str,
) -> Result<Option<Spot>, OutOfMemory>
    ensures { Finds result (inside name.now (table_spot format reason) (item_view request.entry)) }
{
    match member(request, name) {
        Some(table) => under_member(alloc, name, table_spot(alloc, format, reason, table)?),
        None => Ok(None),
    }
}

fn table_room_at(
    alloc: Global,
    room: u128,
    request: Tree<'_>,
    name: &str,
) -> Result<Option<Spot>, OutOfMemory>
    ensures { Finds result (inside name.now (table_room_spot room) (item_view request.entry)) }
{
    match member(request, name) {
        Some(table) => under_member(alloc, name, table_room_spot(alloc, room, table)?),
        None => Ok(None),
    }
}

fn right_room(request: Tree<'_>) -> u128
    ensures { result ≡ right_room (item_view request.entry) }
{
    match member(request, "left") {
        Some(left) => room_after(MAX_RUN_VALUES as u128, left),
        None => MAX_RUN_VALUES as u128,
    }
}

fn args_at(alloc: Global, request: Tree<'_>) -> Result<Option<Spot>, OutOfMemory>
    ensures { Finds result (inside (codes "args") args_spot (item_view request.entry)) }
{
    match member(request, "args") {
        Some(args) => under_member(alloc, "args", args_spot(alloc, args)?),
        None => Ok(None),
    }
}

fn sides_room_spot(alloc: Global, request: Tree<'_>) -> Result<Option<Spot>, OutOfMemory>
    ensures { Finds result
        (or_else (inside (codes "left") (table_room_spot MAX_RUN_VALUES) (item_view request.entry))
        (inside (codes "right") (table_room_spot (right_room (item_view request.entry)))
        (item_view request.entry))) }
{
    match table_room_at(alloc, MAX_RUN_VALUES as u128, request, "left")? {
        Some(spot) => Ok(Some(spot)),
        None => table_room_at(alloc, right_room(request), request, "right"),
    }
}

fn sides_table_spot(
    alloc: Global,
    format: Format,
    reason: Reason,
    request: Tree<'_>,
) -> Result<Option<Spot>, OutOfMemory>
    ensures { Finds result
        (or_else (inside (codes "left") (table_spot format reason) (item_view request.entry))
        (inside (codes "right") (table_spot format reason) (item_view request.entry))) }
{
    match table_at(alloc, format, reason, request, "left")? {
        Some(spot) => Ok(Some(spot)),
        None => table_at(alloc, format, reason, request, "right"),
    }
}

fn sides_spot(
    alloc: Global,
    format: Format,
    reason: Reason,
    request: Tree<'_>,
) -> Result<Option<Spot>, OutOfMemory>
    ensures { Finds result (sides_spot format reason (item_view request.entry)) }
{
    match reason {
        Reason::Rows => sides_room_spot(alloc, request),
        _ => sides_table_spot(alloc, format, reason, request),
    }
}

fn only_spot(
    alloc: Global,
    format: Format,
    reason: Reason,
    request: Tree<'_>,
) -> Result<Option<Spot>, OutOfMemory>
    ensures { Finds result (only_spot format reason (item_view request.entry)) }
{
    match reason {
        Reason::Rows => table_room_at(alloc, MAX_RUN_VALUES as u128, request, "table"),
        _ => table_at(alloc, format, reason, request, "table"),
    }
}

fn join_parts_spot(
    alloc: Global,
    format: Format,
    reason: Reason,
    request: Tree<'_>,
) -> Result<Option<Spot>, OutOfMemory>
    ensures { Finds result (parts_spot Command.Join format reason (item_view request.entry)) }
{
    if let Some(spot) = args_at(alloc, request)? {
        return Ok(Some(spot));
    }
    match exec_spot(alloc, reason, request)? {
        Some(spot) => Ok(Some(spot)),
        None => sides_spot(alloc, format, reason, request),
    }
}

fn entry_spot(
    alloc: Global,
    format: Format,
    reason: Reason,
    entry: Tree<'_>,
) -> Result<Option<Spot>, OutOfMemory>
    ensures { Finds result (entry_spot format reason (item_view entry.entry)) }
{
    match members_spot(alloc, entry_members(), entry)? {
        Some(spot) => Ok(Some(spot)),
        None => table_at(alloc, format, reason, entry, "table"),
    }
}

// The first of tables under names that is at fault.
fn each_entry_spot(
    alloc: Global,
    format: Format,
    reason: Reason,
    entries: Tree<'_>,
) -> Result<Option<Spot>, OutOfMemory>
    ensures { Finds result
        (first_at (entry_spot format reason) 0 (items_of (item_view entries.entry))) }
{
    let entries = items(entries);
    for i in 0..entries.len() {
        let entry = entries.at(i);
        if let Some(spot) = entry_spot(alloc, format, reason, entry)? {
            return under_index(i, Some(spot));
        }
    }
    Ok(None)
}

fn room_after_entry(room: u128, entry: Tree<'_>) -> u128
    ensures { result ≡ room - entry_rows (item_view entry.entry) }
{
    match member(entry, "table") {
        Some(table) => room_after(room, table),
        None => room,
    }
}

// The first run of tables under names for which there is no room.
fn entries_room_spot(
    alloc: Global,
    room: u128,
    entries: Tree<'_>,
) -> Result<Option<Spot>, OutOfMemory>
    ensures { Finds result
        (first_in_room entry_rows entry_room_spot room 0 (items_of (item_view entries.entry))) }
{
    let mut left = room;
    let entries = items(entries);
    for i in 0..entries.len() {
        let entry = entries.at(i);
        if let Some(spot) = table_room_at(alloc, left, entry, "table")? {
            return under_index(i, Some(spot));
        }
        left = room_after_entry(left, entry);
    }
    Ok(None)
}

fn entries_spot(
    alloc: Global,
    format: Format,
    reason: Reason,
    entries: Tree<'_>,
) -> Result<Option<Spot>, OutOfMemory>
    ensures { Finds result (entries_spot format reason (item_view entries.entry)) }
{
    match reason {
        Reason::Rows => entries_room_spot(alloc, MAX_RUN_VALUES as u128, entries),
        _ => each_entry_spot(alloc, format, reason, entries),
    }
}

fn pivot_at(alloc: Global, request: Tree<'_>) -> Result<Option<Spot>, OutOfMemory>
    ensures { Finds result
        (inside (codes "pivot") (members_spot pivot_args_members) (item_view request.entry)) }
{
    match member(request, "pivot") {
        Some(pivot) => under_member(
            alloc,
            "pivot",
            members_spot(alloc, pivot_args_members(), pivot)?,
        ),
        None => Ok(None),
    }
}

fn plan_spot(alloc: Global, request: Tree<'_>) -> Result<Option<Spot>, OutOfMemory>
    ensures { Finds result (plan_spot (item_view request.entry)) }
{
    if let Some(spot) = pivot_at(alloc, request)? {
        return Ok(Some(spot));
    }
    match member(request, "root") {
        Some(root) => under_member(alloc, "root", node_spot(alloc, root)?),
        None => Ok(None),
    }
}

fn plan_parts_spot(
    alloc: Global,
    format: Format,
    reason: Reason,
    request: Tree<'_>,
) -> Result<Option<Spot>, OutOfMemory>
    ensures { Finds result (parts_spot Command.Plan format reason (item_view request.entry)) }
{
    if let Some(spot) = plan_spot(alloc, request)? {
        return Ok(Some(spot));
    }
    if let Some(spot) = exec_spot(alloc, reason, request)? {
        return Ok(Some(spot));
    }
    match member(request, "tables") {
        Some(tables) => under_member(
            alloc,
            "tables",
            entries_spot(alloc, format, reason, tables)?,
        ),
        None => Ok(None),
    }
}

fn delta_parts_spot(
    alloc: Global,
    format: Format,
    reason: Reason,
    request: Tree<'_>,
) -> Result<Option<Spot>, OutOfMemory>
    ensures { Finds result (parts_spot Command.Delta format reason (item_view request.entry)) }
{
    if let Some(spot) = sides_spot(alloc, format, reason, request)? {
        return Ok(Some(spot));
    }
    match member(request, "steps") {
        Some(steps) => under_member(alloc, "steps", steps_spot(alloc, reason, request, steps)?),
        None => Ok(None),
    }
}

// The first column that is made of groups.
fn aggs_spot(alloc: Global, aggs: Tree<'_>) -> Result<Option<Spot>, OutOfMemory>
    ensures { Finds result (aggs_spot (item_view aggs.entry)) }
{
    let aggs = items(aggs);
    for i in 0..aggs.len() {
        let agg = aggs.at(i);
        if let Some(spot) = members_spot(alloc, agg_members(), agg)? {
            return under_index(i, Some(spot));
        }
    }
    Ok(None)
}

fn aggs_at(alloc: Global, request: Tree<'_>) -> Result<Option<Spot>, OutOfMemory>
    ensures { Finds result (inside (codes "aggs") aggs_spot (item_view request.entry)) }
{
    match member(request, "aggs") {
        Some(aggs) => under_member(alloc, "aggs", aggs_spot(alloc, aggs)?),
        None => Ok(None),
    }
}

fn group_parts_spot(
    alloc: Global,
    format: Format,
    reason: Reason,
    request: Tree<'_>,
) -> Result<Option<Spot>, OutOfMemory>
    ensures { Finds result (parts_spot Command.Group format reason (item_view request.entry)) }
{
    if let Some(spot) = aggs_at(alloc, request)? {
        return Ok(Some(spot));
    }
    match exec_spot(alloc, reason, request)? {
        Some(spot) => Ok(Some(spot)),
        None => only_spot(alloc, format, reason, request),
    }
}

fn parts_spot(
    alloc: Global,
    command: Command,
    format: Format,
    reason: Reason,
    request: Tree<'_>,
) -> Result<Option<Spot>, OutOfMemory>
    ensures { Finds result (parts_spot command format reason (item_view request.entry)) }
{
    match command {
        Command::Join => join_parts_spot(alloc, format, reason, request),
        Command::Plan => plan_parts_spot(alloc, format, reason, request),
        Command::Delta => delta_parts_spot(alloc, format, reason, request),
        Command::Group => group_parts_spot(alloc, format, reason, request),
        Command::Unpivot | Command::Dummies | Command::Pivot => {
            only_spot(alloc, format, reason, request)
        }
    }
}

fn format_at(request: Tree<'_>) -> Format
    ensures { result ≡ format_at (item_view request.entry) }
{
    format(request).unwrap_or(Format::Chunks)
}

/// The first member of a request, or part of one, that is at fault for the reason.
pub(crate) fn request_spot(
    alloc: Global,
    command: Command,
    reason: Reason,
    request: Tree<'_>,
) -> Result<Option<Spot>, OutOfMemory>
    ensures { Finds result (request_spot command reason (item_view request.entry)) }
{
    match members_spot(alloc, members_of(command), request)? {
        Some(spot) => Ok(Some(spot)),
        None => parts_spot(alloc, command, format_at(request), reason, request),
    }
}
