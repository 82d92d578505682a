//! The steps of a kept join that are at fault.
ghost use Rattle.std.specs.Prelude.{◌≡◌, codes, map, option_map, IfOk};
ghost use Rattle.tb_tree.specs.View.{item_view, listed};
ghost use Rattle.tb_value.specs.SeeKind.{kind_of};
ghost use Rattle.tb_delta_request.specs.Promise.Written.{of_two, side_at};
ghost use Rattle.tb_why.specs.Columns.{kind_at};
ghost use Rattle.tb_why.specs.Lent.{kind_in, kinds_of};
ghost use Rattle.tb_why.specs.Spots.{first_at, Finds};
ghost use Rattle.tb_why.specs.Steps.{columns_at, kinds_at, row_spot, side_columns, step_spot, step_values_spot, steps_spot, typed_cell_spot, width_spot};

use crate::cells::cell_spot;
use crate::members::{members_spot, unless};
use crate::spot::{Expected, Spot, under_index, under_member};
use crate::tree::{Tree, Trees, dtype, items, items_at, member, text};
use std::alloc::Global;
use tb_delta_request::{insert_members, remove_members};
use tb_request::{Reason, side_named};
use tb_tree::Items;
use tb_value::{DataType, OutOfMemory, Side};

// The columns of the table that is a member of a request.
fn columns_at<'v>(request: Tree<'v>, name: &str) -> Trees<'v>
    ensures { listed result ≡ columns_at name.now (item_view request.entry) }
{
    match member(request, name) {
        Some(table) => items_at(table, "columns"),
        None => Items::Values(&[]),
    }
}

fn side_columns<'v>(request: Tree<'v>, side: Side) -> Trees<'v>
    ensures { listed result ≡ side_columns side (item_view request.entry) }
{
    match side {
        Side::Left => columns_at(request, "left"),
        Side::Right => columns_at(request, "right"),
    }
}

// The side that the member of this name tells.
fn side_at(step: Tree<'_>, name: &str) -> Option<Side>
    ensures { result ≡ side_at name.now (item_view step.entry) }
{
    side_named(text(member(step, name)?)?)
}

fn width_spot(alloc: Global, request: Tree<'_>, step: Tree<'_>) -> Result<Option<Spot>, OutOfMemory>
    ensures { Finds result (width_spot (item_view request.entry) (item_view step.entry)) }
{
    let Some(side) = side_at(step, "insert") else {
        return Ok(None);
    };
    let Some(row) = member(step, "row") else {
        return Ok(None);
    };
    let whole = items(row).len() == side_columns(request, side).len();
    under_member(alloc, "row", unless(alloc, whole, Expected::Row))
}

fn step_spot(alloc: Global, request: Tree<'_>, step: Tree<'_>) -> Result<Option<Spot>, OutOfMemory>
    ensures { Finds result (step_spot (item_view request.entry) (item_view step.entry)) }
{
    if member(step, "insert").is_none() {
        return members_spot(alloc, remove_members(), step);
    }
    match members_spot(alloc, insert_members(), step)? {
        Some(spot) => Ok(Some(spot)),
        None => width_spot(alloc, request, step),
    }
}

// The first step that has not the form of one.
fn shapes_spot(
    alloc: Global,
    request: Tree<'_>,
    steps: Trees<'_>,
) -> Result<Option<Spot>, OutOfMemory>
    ensures { Finds result
        (first_at (step_spot (item_view request.entry)) 0 (listed steps.entry)) }
{
    for i in 0..steps.len() {
        let step = steps.at(i);
        if let Some(spot) = step_spot(alloc, request, step)? {
            return under_index(i, Some(spot));
        }
    }
    Ok(None)
}

// The type of a column, or None where it tells none.
fn dtype_at(alloc: Global, column: Tree<'_>) -> Result<Option<DataType>, OutOfMemory>
    ensures { IfOk result (λ o. option_map kind_of o ≡ kind_at (item_view column.entry)) }
{
    match member(column, "type") {
        Some(kind) => dtype(alloc, kind),
        None => Ok(None),
    }
}

// The types of the columns. They are read once for all steps, since types may be long.
fn dtypes_of(alloc: Global, columns: Trees<'_>) -> Result<Vec<Option<DataType>>, OutOfMemory>
    ensures { IfOk result (λ v. kinds_of v ≡ map kind_at (listed columns.entry)) }
{
    let mut dtypes = Vec::with_capacity(alloc, columns.len())?;
    for i in 0..columns.len() {
        let dtype = dtype_at(alloc, columns.at(i))?;
        dtypes.push(dtype)?;
    }
    Ok(dtypes)
}

fn typed_cell_spot(
    alloc: Global,
    dtype: &Option<DataType>,
    value: Tree<'_>,
) -> Result<Option<Spot>, OutOfMemory>
    ensures { Finds result
        (typed_cell_spot (kind_in dtype.now, item_view value.entry)) }
{
    match dtype {
        Some(dtype) => cell_spot(alloc, dtype, value),
        None => Ok(None),
    }
}

// The first value of a row that is none of its column's type.
fn row_spot(
    alloc: Global,
    dtypes: &[Option<DataType>],
    row: Tree<'_>,
) -> Result<Option<Spot>, OutOfMemory>
    ensures { Finds result (row_spot (map kind_in dtypes.now) (item_view row.entry)) }
{
    let values = items(row);
    let len = values.len().min(dtypes.len());
    for i in 0..len {
        let value = values.at(i);
        if let Some(spot) = typed_cell_spot(alloc, &dtypes[i], value)? {
            return under_index(i, Some(spot));
        }
    }
    Ok(None)
}

// The types of the columns of both tables.
#[derive(Drop)]
struct SideTypes {
    left: Vec<Option<DataType>>,
    right: Vec<Option<DataType>>,
}

impl SideTypes {
    fn of_side(&self, side: Side) -> &[Option<DataType>]
        ensures { map kind_in result.now
            ≡ of_two side (kinds_of self.now.left) (kinds_of self.now.right) }
    {
        match side {
            Side::Left => &self.left,
            Side::Right => &self.right,
        }
    }
}

fn step_values_spot(
    alloc: Global,
    types: &SideTypes,
    step: Tree<'_>,
) -> Result<Option<Spot>, OutOfMemory>
    ensures { Finds result
        (step_values_spot (kinds_of types.now.left) (kinds_of types.now.right)
        (item_view step.entry)) }
{
    let Some(side) = side_at(step, "insert") else {
        return Ok(None);
    };
    match member(step, "row") {
        Some(row) => under_member(alloc, "row", row_spot(alloc, types.of_side(side), row)?),
        None => Ok(None),
    }
}

// The first step with a value that is none of its column's type.
fn each_values_spot(
    alloc: Global,
    types: &SideTypes,
    steps: Trees<'_>,
) -> Result<Option<Spot>, OutOfMemory>
    ensures { Finds result
        (first_at (step_values_spot (kinds_of types.now.left) (kinds_of types.now.right)) 0
        (listed steps.entry)) }
{
    for i in 0..steps.len() {
        let step = steps.at(i);
        if let Some(spot) = step_values_spot(alloc, types, step)? {
            return under_index(i, Some(spot));
        }
    }
    Ok(None)
}

fn values_spot(
    alloc: Global,
    request: Tree<'_>,
    steps: Trees<'_>,
) -> Result<Option<Spot>, OutOfMemory>
    ensures { Finds result
        (first_at (step_values_spot (kinds_at (codes "left") (item_view request.entry))
        (kinds_at (codes "right") (item_view request.entry))) 0 (listed steps.entry)) }
{
    let types = SideTypes {
        left: dtypes_of(alloc, columns_at(request, "left"))?,
        right: dtypes_of(alloc, columns_at(request, "right"))?,
    };
    each_values_spot(alloc, &types, steps)
}

/// The first step that is at fault for the reason, in a request to keep a join.
pub(crate) fn steps_spot(
    alloc: Global,
    reason: Reason,
    request: Tree<'_>,
    steps: Tree<'_>,
) -> Result<Option<Spot>, OutOfMemory>
    ensures { Finds result
        (steps_spot reason (item_view request.entry) (item_view steps.entry)) }
{
    match reason {
        Reason::Shape => shapes_spot(alloc, request, items(steps)),
        Reason::Value => values_spot(alloc, request, items(steps)),
        Reason::Json
        | Reason::Rows
        | Reason::Exec
        | Reason::Heights
        | Reason::Name
        | Reason::Flag => Ok(None),
    }
}
