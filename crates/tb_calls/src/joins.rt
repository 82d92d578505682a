//! Joins of two tables, which are let go.
ghost use Rattle.std.specs.Prelude.{IfOk};
ghost use Rattle.tb_value.specs.Refusals.{Settles};
ghost use Rattle.tb_frame.specs.Promise.Join.{IsAnswer};
ghost use Rattle.tb_frame.specs.Promise.Refusal.{join_refusal};
ghost use Rattle.tb_frame.specs.Promise.Table.{table_of};
ghost use Rattle.tb_pairs.specs.Promise.Trace.{IsTraced};
ghost use Rattle.tb_join.specs.Promise.Traced.{named_trace};
ghost use Rattle.tb_calls.specs.Promise.Asked.{joined_of};

use crate::arguments::JoinCall;
use std::alloc::Global;
use std::thread::Threads;
use tb_frame::DataFrame;
use tb_join::{DataFrameJoinOps, JoinTrace};
use tb_pool::{Exec, OpenGate};
use tb_value::PolarsResult;

/// Joins the two tables, with how that went.
///
/// # Errors
///
/// Those of `join`.
pub fn joined_traced(
    rt: &(impl Threads + Sync),
    alloc: Global,
    left: DataFrame,
    right: DataFrame,
    call: JoinCall,
    exec: &Exec,
) -> PolarsResult<(DataFrame, JoinTrace)>
    ensures settles { Settles result
        (join_refusal (joined_of call (table_of left) (table_of right))) }
    ensures answer { IfOk result (λ r.
        IsAnswer (joined_of call (table_of left) (table_of right)) (table_of r.0)) }
    ensures traced { IfOk result (λ r.
        IsTraced exec.now
        (named_trace left right call.left_on.items call.right_on.items call.args exec.now)
        r.1) }
{
    let JoinCall {
        left_on,
        right_on,
        args,
    } = call;
    left.join_traced(
        rt, alloc, &right, &left_on, &right_on, args, exec, &OpenGate,
    )
}

/// Joins the two tables.
///
/// # Errors
///
/// Those of `join`.
pub fn joined(
    rt: &(impl Threads + Sync),
    alloc: Global,
    left: DataFrame,
    right: DataFrame,
    call: JoinCall,
    exec: &Exec,
) -> PolarsResult<DataFrame>
    ensures settles { Settles result
        (join_refusal (joined_of call (table_of left) (table_of right))) }
    ensures answer { IfOk result (λ t.
        IsAnswer (joined_of call (table_of left) (table_of right)) (table_of t)) }
{
    let JoinCall {
        left_on,
        right_on,
        args,
    } = call;
    left.join(rt, alloc, &right, &left_on, &right_on, args, exec)
}
