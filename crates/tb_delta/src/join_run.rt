//! A view through many steps, a step at a time.
ghost use Rattle.std.specs.Prelude.{◌≡◌};
ghost use Rattle.tb_delta.specs.Promise.State.{of_side};
ghost use Rattle.tb_delta.specs.Running.{IsDone, step_of};

use crate::fault::DeltaFault;
use crate::groups::Groups;
use crate::late::LateGroups;
use crate::running::{Step, do_step};
use crate::side_rows::SideRows;
use crate::view::JoinView;
use std::alloc::Global;
use std::marker::Model;
use tb_value::Side;

/// A view through many steps, each of which costs what it tells, whichever rows go, and in whichever order. An id that goes out
/// of a long list is put down, and goes when a step asks for the list, or when the run ends.
#[derive(Drop)]
pub struct JoinRun {
    left: SideRows,
    right: SideRows,
    join_nulls: bool,
    groups: LateGroups,
}

impl Model for JoinRun {
    ghost use Rattle.tb_delta.specs.Promise.State.{State};
    ghost use Rattle.tb_delta.specs.StateCode.{coded_state};
    ghost use Rattle.tb_delta.specs.Changing.{IsChanging};
    ghost use Rattle.tb_delta.specs.Inside.{state_of};
    ghost use Rattle.tb_value.specs.declared.error.Side.TheVariants as side;

    ghost Value = { State };

    ghost coded = { coded_state };

    ghost view = { λ r. state_of r.left r.right r.join_nulls };

    ghost invariant = { λ r. IsChanging side.Left r.left r.right r.join_nulls r.groups };
}

impl JoinRun {
    /// Begins with the rows of a view.
    pub fn new(alloc: Global, view: JoinView) -> JoinRun
        ensures { result ≡ view }
    {
        let JoinView {
            left,
            right,
            join_nulls,
            groups,
        } = view;
        let gone = Groups::new(alloc);
        JoinRun {
            left,
            right,
            join_nulls,
            groups: LateGroups { groups, gone },
        }
    }

    /// The view behind the steps.
    pub fn into_view(self) -> JoinView
        ensures { result ≡ self }
    {
        let JoinRun {
            left,
            right,
            join_nulls,
            groups,
        } = self;
        JoinView {
            left,
            right,
            join_nulls,
            groups: groups.settled(),
        }
    }

    /// The id of the next row that is put on a side: the number of rows that it ever had.
    pub fn next_id(&self, side: Side) -> u32
        ensures { result ≡ (of_side side self.now).ever }
    {
        match side {
            Side::Left => self.left.ever,
            Side::Right => self.right.ever,
        }
    }

    /// Does a step, and answers the ids of the rows that match its row, where it `tells` them: those of a new row when it is
    /// there, and those of an old one before it goes. A step that is refused isn't done; where memory is wanting for telling, it
    /// is done for all that.
    ///
    /// # Errors
    ///
    /// What `JoinView::insert` or `JoinView::remove` refuses it for, or OutOfMemory.
    pub fn step(&mut self, alloc: Global, step: Step, tells: bool) -> Result<Vec<u32>, DeltaFault>
        ensures { IsDone tells self.old (step_of step) self.new result }
    {
        do_step(
            alloc,
            &mut self.left,
            &mut self.right,
            &mut self.groups,
            self.join_nulls,
            step,
            tells,
        )
    }
}
