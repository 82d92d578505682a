//! A request is done: the join is kept through all steps.
ghost use Rattle.std.specs.Prelude.{◌≡◌, ◌⊎◌, IfOk, MatchResult, None};
ghost use Rattle.tb_value.specs.Refusals.{Settles};
ghost use Rattle.tb_frame.specs.Promise.Table.{table_of};
ghost use Rattle.tb_delta.specs.Promise.Now.{view_refusal};
ghost use Rattle.tb_delta.specs.Promise.State.{given};
ghost use Rattle.tb_delta.specs.Running.{lists_of};
ghost use Rattle.tb_delta_request.specs.Lent.{refusal_view};
ghost use Rattle.tb_delta_request.specs.Promise.Answers.{delta_refusal, told_by, IsEndOf};
ghost use Rattle.tb_delta_request.specs.Promise.Reading.{delta_view, AreFitting};

use crate::request::DeltaRequest;
use std::alloc::Global;
use std::thread::Threads;
use tb_delta::{DeltaFault, JoinView, StepFault, do_steps};
use tb_frame::DataFrame;
use tb_pool::Exec;
use tb_value::{PlSmallStr, PolarsError, PolarsResult};

/// The joined table of the rows that there are behind all steps, and what the steps told.
#[derive(Drop)]
pub struct KeptJoin {
    pub table: DataFrame,
    /// For each step the ids of the rows that match its row: those of a new row when it is there, and those of an old one
    /// before it goes.
    pub partners: Vec<Vec<u32>>,
}

/// Why a request is not done.
#[derive(PartialEq, Eq, Debug, Drop)]
pub enum KeptFault {
    OutOfMemory,
    /// The tables have no such join, or it would have too many rows at the end.
    Refused(PolarsError),
    /// This step is refused.
    Stopped(StepFault),
}

impl From<PolarsError> for KeptFault {
    ghost use Rattle.std.specs.Prelude.{◌≡◌};
    ghost use Rattle.tb_delta_request.specs.Lent.{refused_by};

    ghost from_gives = { λ e f. f ≡ refused_by e };

    fn from(error: PolarsError) -> KeptFault {
        match error {
            PolarsError::OutOfMemory => KeptFault::OutOfMemory,
            error => KeptFault::Refused(error),
        }
    }
}

impl From<StepFault> for KeptFault {
    ghost use Rattle.std.specs.Prelude.{◌≡◌};
    ghost use Rattle.tb_delta_request.specs.Lent.{stopped_by};

    ghost from_gives = { λ s f. f ≡ stopped_by s };

    fn from(fault: StepFault) -> KeptFault {
        match fault.fault {
            DeltaFault::OutOfMemory => KeptFault::OutOfMemory,
            _ => KeptFault::Stopped(fault),
        }
    }
}

// The view of the tables, which are let go.
fn view_of(
    alloc: Global,
    left: DataFrame,
    right: DataFrame,
    left_on: &PlSmallStr,
    right_on: &PlSmallStr,
    join_nulls: bool,
) -> PolarsResult<JoinView>
    ensures settles { Settles result
        (view_refusal
        (given (table_of left) (table_of right) left_on.now right_on.now join_nulls)) }
    ensures given { IfOk result (λ v.
        v ≡ given (table_of left) (table_of right) left_on.now right_on.now join_nulls) }
{
    JoinView::from_tables(
        alloc,
        &left,
        &right,
        left_on.as_str(),
        right_on.as_str(),
        join_nulls,
    )
}

/// Keeps the join of the request's tables through its steps.
///
/// # Errors
///
/// The first of these that holds, or `OutOfMemory`:
/// 1. `Refused`, by what `JoinView::from_tables` refuses the tables and keys for;
/// 2. `Stopped`, by the first step that is refused and why: `Full` or `NoRow`;
/// 3. `Refused`, by `TooManyRows`, where the join has too many rows behind all steps.
pub fn kept(
    rt: &(impl Threads + Sync),
    alloc: Global,
    request: DeltaRequest,
) -> Result<KeptJoin, KeptFault>
    requires fitting { AreFitting (delta_view request) }
    ensures settles { MatchResult result (λ _. delta_refusal (delta_view request) ≡ None)
        (λ e. (e ≡ KeptFault.OutOfMemory) ⊎ (delta_refusal (delta_view request) ≡ refusal_view e)) }
    ensures answer { IfOk result (λ k. IsEndOf (delta_view request) (table_of k.table)
        × (lists_of k.partners.items ≡ told_by (delta_view request))) }
{
    let DeltaRequest {
        left,
        right,
        left_on,
        right_on,
        join_nulls,
        steps,
    } = request;
    let mut view = view_of(alloc, left, right, &left_on, &right_on, join_nulls)?;
    let partners = do_steps(alloc, &mut view, steps)?;
    let table = view.table(rt, alloc, &Exec::standard())?;
    Ok(KeptJoin { table, partners })
}
