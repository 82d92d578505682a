//! Many steps in a row.
ghost use Rattle.tb_delta.specs.Changing.{IsChanging};
ghost use Rattle.tb_delta.specs.Inside.{state_of};
ghost use Rattle.tb_delta.specs.Running.{IsDone, IsRun, step_of, steps_of};

use crate::changing::{insert_row, remove_row};
use crate::fault::DeltaFault;
use crate::late::LateGroups;
use crate::side_rows::SideRows;
use crate::view::JoinView;
use std::alloc::Global;
use tb_value::{AnyValue, Side};

/// A row that is put last on a side, or the row of an id that is taken out.
#[derive(Drop)]
pub enum Step {
    Insert { side: Side, row: Vec<AnyValue> },
    Remove { side: Side, id: u32 },
}

/// The first step that is refused, counted from 0, and why.
#[derive(Clone, Copy, PartialEq, Eq, Debug)]
pub struct StepFault {
    pub step: usize,
    pub fault: DeltaFault,
}

/// Does a step, and answers what it tells, where it `tells`.
pub(crate) fn do_step(
    alloc: Global,
    left: &mut SideRows,
    right: &mut SideRows,
    groups: &mut LateGroups,
    nulls: bool,
    step: Step,
    tells: bool,
) -> Result<Vec<u32>, DeltaFault>
    requires { IsChanging Side.Left left.old right.old nulls groups.old }
    ensures changing { IsChanging Side.Left left.new right.new nulls groups.new }
    ensures done { IsDone tells (state_of left.old right.old nulls) (step_of step)
        (state_of left.new right.new nulls) result }
{
    match step {
        Step::Insert {
            side: Side::Left,
            row,
        } => { insert_row(alloc, left, right, groups, Side::Left, nulls, row, tells) }
        Step::Insert {
            side: Side::Right,
            row,
        } => { insert_row(alloc, right, left, groups, Side::Right, nulls, row, tells) }
        Step::Remove {
            side: Side::Left,
            id,
        } => { remove_row(alloc, left, right, groups, Side::Left, nulls, id, tells) }
        Step::Remove {
            side: Side::Right,
            id,
        } => { remove_row(alloc, right, left, groups, Side::Right, nulls, id, tells) }
    }
}

/// Does the steps in their order, up to the first that is refused.
pub(crate) fn run_steps(
    alloc: Global,
    left: &mut SideRows,
    right: &mut SideRows,
    groups: &mut LateGroups,
    join_nulls: bool,
    steps: Vec<Step>,
) -> Result<Vec<Vec<u32>>, StepFault>
    requires { IsChanging Side.Left left.old right.old join_nulls groups.old }
    ensures changing { IsChanging Side.Left left.new right.new join_nulls groups.new }
    ensures run { IsRun (state_of left.old right.old join_nulls) (steps_of steps.items)
        (state_of left.new right.new join_nulls) result }
{
    let mut lists = Vec::new(alloc);
    for (step, asked) in steps.into_iter().enumerate() {
        match do_step(alloc, left, right, groups, join_nulls, asked, true) {
            Ok(ids) => {
                if lists.push(ids).is_err() {
                    let fault = DeltaFault::OutOfMemory;
                    return Err(StepFault { step, fault });
                }
            }
            Err(fault) => return Err(StepFault { step, fault }),
        }
    }
    Ok(lists)
}

/// Does the steps in their order, and answers for each the ids of the rows that match its row: those of a new row when it is
/// there, and those of an old one before it goes. The first step that is refused ends it, and the steps before it stay done;
/// where memory is wanting, this step may be done too. A step costs what it tells, whichever rows go, and in whichever order.
///
/// # Errors
///
/// The number of that step, and what `insert` or `remove` refuses it for, or OutOfMemory.
pub fn do_steps(
    alloc: Global,
    view: &mut JoinView,
    steps: Vec<Step>,
) -> Result<Vec<Vec<u32>>, StepFault>
    ensures { IsRun view.old (steps_of steps.items) view.new result }
{
    view.run(alloc, steps)
}
