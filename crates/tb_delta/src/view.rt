//! The view.
ghost use Rattle.std.specs.Prelude.{◌≡◌, ◌∷◌, [], IfOk, None};
ghost use Rattle.std.specs.Option.{option_copied};
ghost use Rattle.tb_value.specs.Refusals.{Settles};
ghost use Rattle.tb_value.specs.See.{data_of};
ghost use Rattle.tb_frame.specs.Join.{lent_request};
ghost use Rattle.tb_frame.specs.Promise.Join.{IsAnswer};
ghost use Rattle.tb_frame.specs.Promise.Refusal.{too_many_rows};
ghost use Rattle.tb_frame.specs.Promise.Table.{IsTable, table_of};
ghost use Rattle.tb_delta.specs.Promise.Now.{columns_refusal, kept_args, now, partners, view_refusal};
ghost use Rattle.tb_delta.specs.Promise.State.{given};
ghost use Rattle.tb_delta.specs.Running.{IsRun, steps_of};
ghost use Rattle.tb_delta.specs.Stepped.{IsInserted, IsRemoved};

use crate::checking::{check_tables, kept_args};
use crate::counting::are_too_many;
use crate::fault::DeltaFault;
use crate::groups::Groups;
use crate::late::LateGroups;
use crate::running::{Step, StepFault, run_steps};
use crate::side_rows::SideRows;
use crate::steps::{check, partners_of, pull_row, push_row};
use crate::tables::table_now;
use crate::taking_up::{add_keys, side_rows};
use std::alloc::Global;
use std::marker::Model;
use std::mem;
use std::thread::Threads;
use tb_frame::DataFrame;
use tb_join::DataFrameJoinOps;
use tb_pool::Exec;
use tb_value::{AnyValue, ComputeCause, OutOfMemory, PlSmallStr, PolarsError, PolarsResult, Side};

/// The rows of two tables under ids, kept for the Inner join by one key of each: for each key the ids of the rows of both
/// sides that have it.
#[derive(Drop)]
pub struct JoinView {
    pub(crate) left: SideRows,
    pub(crate) right: SideRows,
    pub(crate) join_nulls: bool,
    pub(crate) groups: Groups,
}

impl Model for JoinView {
    ghost use Rattle.tb_delta.specs.Promise.State.{State};
    ghost use Rattle.tb_delta.specs.StateCode.{coded_state};
    ghost use Rattle.tb_delta.specs.Inside.{IsView, state_of};

    ghost Value = { State };

    ghost coded = { coded_state };

    ghost view = { λ v. state_of v.left v.right v.join_nulls };

    ghost invariant = { λ v. IsView v.left v.right v.join_nulls v.groups };
}

// A view of two tables that can be joined by these keys.
fn taken_up(
    alloc: Global,
    left: &DataFrame,
    right: &DataFrame,
    left_on: PlSmallStr,
    right_on: PlSmallStr,
    join_nulls: bool,
) -> Result<JoinView, OutOfMemory>
    requires left { IsTable (table_of left.now) }
    requires right { IsTable (table_of right.now) }
    requires valid { columns_refusal
        (lent_request left.now right.now (left_on ∷ []) (right_on ∷ []) (kept_args join_nulls))
        ≡ None }
    ensures { IfOk result (λ v.
        v ≡ given (table_of left.now) (table_of right.now) left_on right_on join_nulls) }
{
    let mut groups = Groups::new(alloc);
    add_keys(alloc, &mut groups, Side::Left, join_nulls, left, &left_on)?;
    add_keys(
        alloc,
        &mut groups,
        Side::Right,
        join_nulls,
        right,
        &right_on,
    )?;
    let left = side_rows(alloc, left, left_on)?;
    let right = side_rows(alloc, right, right_on)?;
    Ok(JoinView {
        left,
        right,
        join_nulls,
        groups,
    })
}

impl JoinView {
    /// The rows of two tables under the ids 0, 1, 2 and so on, kept for their Inner join by these keys. Rows match where their
    /// keys are there and the same, or both are absent and `join_nulls` lets them.
    ///
    /// # Errors
    ///
    /// The first of these that holds, or OutOfMemory:
    /// 1. ColumnNotFound: the left key is no column of the left table, and then the right key none of the right;
    /// 2. KeyTypes: the keys are of different types;
    /// 3. KeyKind: the keys are of type List, Struct or Null;
    /// 4. Duplicate: two columns of the joined table would have this name, which is the first that stood before.
    pub fn from_tables(
        alloc: Global,
        left: &DataFrame,
        right: &DataFrame,
        left_on: &str,
        right_on: &str,
        join_nulls: bool,
    ) -> PolarsResult<JoinView>
        ensures settles { Settles result
            (view_refusal
            (given (table_of left.now) (table_of right.now) left_on.now right_on.now
            join_nulls)) }
        ensures given { IfOk result (λ v.
            v
            ≡ given (table_of left.now) (table_of right.now) left_on.now right_on.now
            join_nulls) }
    {
        let _columns = left.get_columns();
        let _others = right.get_columns();
        let left_on = PlSmallStr::from_str(alloc, left_on)?;
        let right_on = PlSmallStr::from_str(alloc, right_on)?;
        check_tables(alloc, left, right, &left_on, &right_on, join_nulls)?;
        Ok(taken_up(alloc, left, right, left_on, right_on, join_nulls)?)
    }

    /// The ids of the other side's rows that match the row of an id, ascending, or None where no row of the side has the id. It
    /// takes no memory.
    pub fn partners(&self, side: Side, id: u32) -> Option<&[u32]>
        ensures { option_copied result ≡ partners self.now side id }
    {
        match side {
            Side::Left => partners_of(&self.left, &self.groups, Side::Right, id),
            Side::Right => partners_of(&self.right, &self.groups, Side::Left, id),
        }
    }

    /// The joined table of the rows that there are, by the left rows and then the right ones, each in the order of their ids.
    ///
    /// # Errors
    ///
    /// TooManyRows, where more than `MAX_ROWS` pairs of rows match, or OutOfMemory. The pairs are counted before any is listed.
    pub fn table(
        &self,
        rt: &(impl Threads + Sync),
        alloc: Global,
        exec: &Exec,
    ) -> PolarsResult<DataFrame>
        ensures settles { Settles result (too_many_rows (now self.now)) }
        ensures answer { IfOk result (λ t. IsAnswer (now self.now) (table_of t)) }
    {
        if are_too_many(&self.left, &self.groups) {
            return Err(PolarsError::ComputeError(ComputeCause::TooManyRows));
        }
        let left = table_now(alloc, &self.left)?;
        let right = table_now(alloc, &self.right)?;
        let left_on = [self.left.on.copy(alloc)?];
        let right_on = [self.right.on.copy(alloc)?];
        let args = kept_args(self.join_nulls);
        left.join(rt, alloc, &right, &left_on, &right_on, args, exec)
    }

    /// Puts the row last on its side, and answers its id, which is the number of rows that the side ever had. After a refusal all
    /// is as it was, and the row is let go.
    ///
    /// # Errors
    ///
    /// The first of these that holds:
    /// 1. Schema: the row has another number of values than the side has columns, or a value is not of its column's type;
    /// 2. Full: the side ever had `MAX_ROWS` rows;
    /// 3. OutOfMemory.
    pub fn insert(
        &mut self,
        alloc: Global,
        side: Side,
        row: Vec<AnyValue>,
    ) -> Result<u32, DeltaFault>
        ensures { IsInserted self.old side (data_of row.items) self.new result }
    {
        match side {
            Side::Left => {
                check(&self.left, &row)?;
                match push_row(
                    alloc,
                    &mut self.left,
                    &mut self.groups,
                    side,
                    self.join_nulls,
                    row,
                ) {
                    Ok(id) => Ok(id),
                    Err(OutOfMemory) => Err(DeltaFault::OutOfMemory),
                }
            }
            Side::Right => {
                check(&self.right, &row)?;
                match push_row(
                    alloc,
                    &mut self.right,
                    &mut self.groups,
                    side,
                    self.join_nulls,
                    row,
                ) {
                    Ok(id) => Ok(id),
                    Err(OutOfMemory) => Err(DeltaFault::OutOfMemory),
                }
            }
        }
    }

    /// Takes the row of the id out and hands it back. It takes no memory, and moves the ids of the rows with its key that were put
    /// in after it: who takes out many rows of one key does so in a `JoinRun`. NoRow, where no row of the side has the id, leaves
    /// all as it was.
    ///
    /// # Errors
    ///
    /// NoRow.
    pub fn remove(&mut self, side: Side, id: u32) -> Result<Vec<AnyValue>, DeltaFault>
        ensures { IsRemoved self.old side id self.new result }
    {
        match side {
            Side::Left => match pull_row(
                &mut self.left,
                &mut self.groups,
                side,
                self.join_nulls,
                id,
            ) {
                Some(row) => Ok(row),
                None => Err(DeltaFault::NoRow),
            },
            Side::Right => match pull_row(
                &mut self.right,
                &mut self.groups,
                side,
                self.join_nulls,
                id,
            ) {
                Some(row) => Ok(row),
                None => Err(DeltaFault::NoRow),
            },
        }
    }

    /// Does the steps in their order, as `do_steps` says.
    pub(crate) fn run(
        &mut self,
        alloc: Global,
        steps: Vec<Step>,
    ) -> Result<Vec<Vec<u32>>, StepFault>
        ensures { IsRun self.old (steps_of steps.items) self.new result }
    {
        let groups = mem::replace(&mut self.groups, Groups::new(alloc));
        let gone = Groups::new(alloc);
        let mut late = LateGroups { groups, gone };
        let lists = run_steps(
            alloc,
            &mut self.left,
            &mut self.right,
            &mut late,
            self.join_nulls,
            steps,
        );
        self.groups = late.settled();
        lists
    }
}
