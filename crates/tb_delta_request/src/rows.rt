//! The values of steps.
ghost use Rattle.std.specs.Prelude.{◌≡◌, map, option_map, IfOk, IfSome, All};
ghost use Rattle.tb_tree.specs.View.{view};
ghost use Rattle.tb_value.specs.Promise.Typed.{FitsFields};
ghost use Rattle.tb_value.specs.See.{data_of};
ghost use Rattle.tb_delta.specs.Running.{step_of, steps_of};
ghost use Rattle.tb_request.specs.Lent.{written_view};
ghost use Rattle.tb_delta_request.specs.Lent.{column_part, step_view};
ghost use Rattle.tb_delta_request.specs.Promise.Reading.{row_in, step_in, steps_in, Fits};

use crate::shape::{WrittenStep, columns_on};
use std::alloc::Global;
use tb_delta::Step;
use tb_json::value_of;
use tb_request::WrittenColumn;
use tb_tree::Value;
use tb_value::{AnyValue, OutOfMemory};

// The values of a row, or None where one is not of its column's type.
fn row_of(
    alloc: Global,
    columns: &[WrittenColumn],
    row: &[Value],
) -> Result<Option<Vec<AnyValue>>, OutOfMemory>
    ensures value { IfOk result (λ o. option_map (λ v. data_of v.items) o
        ≡ row_in (map written_view columns.now) (map view row.now)) }
    ensures typed { IfOk result (λ o.
        IfSome o (λ v. FitsFields (map column_part columns.now) (data_of v.items))) }
{
    if row.len() != columns.len() {
        return Ok(None);
    }
    let mut values = Vec::with_capacity(alloc, row.len())?;
    for place in 0..row.len() {
        let item = &row[place];
        let column = &columns[place];
        let Some(value) = value_of(alloc, item, &column.dtype)? else {
            return Ok(None);
        };
        values.push(value)?;
    }
    Ok(Some(values))
}

fn step_from(
    alloc: Global,
    left: &[WrittenColumn],
    right: &[WrittenColumn],
    written: WrittenStep,
) -> Result<Option<Step>, OutOfMemory>
    ensures value { IfOk result (λ o. option_map step_of o
        ≡ step_in (map written_view left.now) (map written_view right.now) (step_view written)) }
    ensures fits { IfOk result (λ o.
        IfSome o (λ s. Fits (map column_part left.now) (map column_part right.now) (step_of s))) }
{
    match written {
        WrittenStep::Insert { side, row } => {
            match row_of(alloc, columns_on(side, left, right), &row)? {
                Some(row) => Ok(Some(Step::Insert { side, row })),
                None => Ok(None),
            }
        }
        WrittenStep::Remove { side, id } => Ok(Some(Step::Remove { side, id })),
    }
}

/// The steps, or None where a value is not of its column's type.
pub(crate) fn steps_from(
    alloc: Global,
    left: &[WrittenColumn],
    right: &[WrittenColumn],
    written: Vec<WrittenStep>,
) -> Result<Option<Vec<Step>>, OutOfMemory>
    ensures value { IfOk result (λ o. option_map (λ v. steps_of v.items) o
        ≡ steps_in (map written_view left.now) (map written_view right.now)
        (map step_view written.items)) }
    ensures fits { IfOk result (λ o.
        IfSome o (λ v.
        All (Fits (map column_part left.now) (map column_part right.now)) (steps_of v.items))) }
{
    let mut steps = Vec::with_capacity(alloc, written.len())?;
    for item in written {
        let Some(step) = step_from(alloc, left, right, item)? else {
            return Ok(None);
        };
        steps.push(step)?;
    }
    Ok(Some(steps))
}
