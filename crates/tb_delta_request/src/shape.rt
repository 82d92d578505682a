//! The members of a request, before its values are read.
ghost use Rattle.std.specs.Prelude.{◌≡◌, codes, map, option_and_then, option_map, IfOk};
ghost use Rattle.serde_json.specs.Find.{get};
ghost use Rattle.tb_tree.specs.View.{view};
ghost use Rattle.tb_json.specs.Promise.Lists.{as_list, each, list_of};
ghost use Rattle.tb_request.specs.Lent.{written_view};
ghost use Rattle.tb_delta_request.specs.Promise.Written.{of_two, delta_of, insert_of, remove_of, side_at, step_of};
ghost use Rattle.tb_delta_request.specs.Lent.{step_view, written_delta};

use crate::known::{delta_members, insert_members, remove_members};
use std::alloc::Global;
use tb_request::{
    Format, WrittenColumn, count_of, format_of, has_only, into_array, into_member, name_at,
    side_named, table_in, truth_at,
};
use tb_tree::Value;
use tb_value::{OutOfMemory, PlSmallStr, Side};

/// A step, whose values are not read yet.
#[derive(Drop)]
pub(crate) enum WrittenStep {
    Insert { side: Side, row: Vec<Value> },
    Remove { side: Side, id: u32 },
}

/// A request, whose values are not read yet.
#[derive(Drop)]
pub(crate) struct WrittenDelta {
    pub left: Vec<WrittenColumn>,
    pub left_on: PlSmallStr,
    pub right: Vec<WrittenColumn>,
    pub right_on: PlSmallStr,
    pub join_nulls: bool,
    pub steps: Vec<WrittenStep>,
}

/// The side that a member of an object names.
pub fn side_at(object: &Value, name: &str) -> Option<Side>
    ensures { result ≡ side_at name.now (view object.now) }
{
    side_named(object.get(name)?.as_str()?)
}

/// The columns of a side.
pub(crate) fn columns_on<'a>(
    side: Side,
    left: &'a [WrittenColumn],
    right: &'a [WrittenColumn],
) -> &'a [WrittenColumn]
    ensures { result.now ≡ of_two side left.now right.now }
{
    match side {
        Side::Left => left,
        Side::Right => right,
    }
}

// The values of an array, if there is one.
fn array_in(alloc: Global, value: Option<Value>) -> Result<Option<Vec<Value>>, OutOfMemory>
    ensures { IfOk result (λ o.
        option_map (λ v. map view v.items) o ≡ option_and_then as_list (option_map view value)) }
{
    match value {
        Some(value) => into_array(alloc, value),
        None => Ok(None),
    }
}

// The values of a member that is an array.
fn array_at(alloc: Global, object: Value, name: &str) -> Result<Option<Vec<Value>>, OutOfMemory>
    ensures { IfOk result (λ o.
        option_map (λ v. map view v.items) o
        ≡ option_and_then as_list (get name.now (view object))) }
{
    array_in(alloc, into_member(object, name))
}

#[tactic(auto, unfolding(crate::specs::Promise::Written::insert_of))]
fn insert_of(
    alloc: Global,
    left: &[WrittenColumn],
    right: &[WrittenColumn],
    value: Value,
) -> Result<Option<WrittenStep>, OutOfMemory>
    ensures { IfOk result (λ o. option_map step_view o
        ≡ insert_of (map written_view left.now) (map written_view right.now) (view value)) }
{
    if !has_only(&value, insert_members()) {
        return Ok(None);
    }
    let Some(side) = side_at(&value, "insert") else {
        return Ok(None);
    };
    let Some(row) = array_at(alloc, value, "row")? else {
        return Ok(None);
    };
    if row.len() != columns_on(side, left, right).len() {
        return Ok(None);
    }
    Ok(Some(WrittenStep::Insert { side, row }))
}

#[tactic(auto, unfolding(crate::specs::Promise::Written::remove_of))]
fn remove_of(value: &Value) -> Option<WrittenStep>
    ensures { option_map step_view result ≡ remove_of (view value.now) }
{
    if !has_only(value, remove_members()) {
        return None;
    }
    let id = count_of(value.get("id")?)?;
    let side = side_at(value, "remove")?;
    Some(WrittenStep::Remove { side, id })
}

fn step_of(
    alloc: Global,
    left: &[WrittenColumn],
    right: &[WrittenColumn],
    value: Value,
) -> Result<Option<WrittenStep>, OutOfMemory>
    ensures { IfOk result (λ o. option_map step_view o
        ≡ step_of (map written_view left.now) (map written_view right.now) (view value)) }
{
    match value.get("insert") {
        Some(_) => insert_of(alloc, left, right, value),
        None => Ok(remove_of(&value)),
    }
}

fn steps_of(
    alloc: Global,
    left: &[WrittenColumn],
    right: &[WrittenColumn],
    items: Vec<Value>,
) -> Result<Option<Vec<WrittenStep>>, OutOfMemory>
    ensures { IfOk result (λ o. option_map (λ v. map step_view v.items) o
        ≡ each (step_of (map written_view left.now) (map written_view right.now))
        (map view items.items)) }
{
    let mut steps = Vec::with_capacity(alloc, items.len())?;
    for item in items {
        let Some(step) = step_of(alloc, left, right, item)? else {
            return Ok(None);
        };
        steps.push(step)?;
    }
    Ok(Some(steps))
}

// The steps of a request whose tables have these columns.
fn steps_at(
    alloc: Global,
    left: &[WrittenColumn],
    right: &[WrittenColumn],
    steps: Option<Value>,
) -> Result<Option<Vec<WrittenStep>>, OutOfMemory>
    ensures { IfOk result (λ o. option_map (λ v. map step_view v.items) o
        ≡ option_and_then
        (list_of (step_of (map written_view left.now) (map written_view right.now)))
        (option_map view steps)) }
{
    match array_in(alloc, steps)? {
        Some(items) => steps_of(alloc, left, right, items),
        None => Ok(None),
    }
}

// The members of an object that are moved out of it.
#[derive(Drop)]
struct TakenMembers {
    left: Option<Value>,
    right: Option<Value>,
    steps: Option<Value>,
}

fn taken_members(object: Value) -> TakenMembers
    ensures left { option_map view result.left ≡ get (codes "left") (view object) }
    ensures right { option_map view result.right ≡ get (codes "right") (view object) }
    ensures steps { option_map view result.steps ≡ get (codes "steps") (view object) }
{
    let Some(mut members) = object.into_object() else {
        return TakenMembers {
            left: None,
            right: None,
            steps: None,
        };
    };
    let left = members.remove("left");
    let right = members.remove("right");
    let steps = members.remove("steps");
    TakenMembers { left, right, steps }
}

/// The members of a request, or None where the value has not the form of one.
#[tactic(auto, unfolding(crate::specs::Promise::Written::delta_of))]
pub(crate) fn delta_of(alloc: Global, value: Value) -> Result<Option<WrittenDelta>, OutOfMemory>
    ensures { IfOk result (λ o. option_map written_delta o ≡ delta_of (view value)) }
{
    if !has_only(&value, delta_members()) {
        return Ok(None);
    }
    let (Some(format), Some(join_nulls)) = (format_of(&value), truth_at(&value, "join_nulls"))
    else {
        return Ok(None);
    };
    let left_on = name_at(alloc, &value, "left_on")?;
    let right_on = name_at(alloc, &value, "right_on")?;
    let (Some(left_on), Some(right_on)) = (left_on, right_on) else {
        return Ok(None);
    };
    let TakenMembers { left, right, steps } = taken_members(value);
    let left = table_in(alloc, format, left)?;
    let right = table_in(alloc, format, right)?;
    let (Some(left), Some(right)) = (left, right) else {
        return Ok(None);
    };
    let Some(steps) = steps_at(alloc, &left, &right, steps)? else {
        return Ok(None);
    };
    Ok(Some(WrittenDelta {
        left,
        left_on,
        right,
        right_on,
        join_nulls,
        steps,
    }))
}
