//! A request that is read is answered.
ghost use Rattle.std.specs.Prelude.{IfOk};
ghost use Rattle.tb_value.specs.Refusals.{Settles};
ghost use Rattle.tb_frame.specs.Promise.Join.{IsAnswer};
ghost use Rattle.tb_frame.specs.Promise.Refusal.{join_refusal};
ghost use Rattle.tb_frame.specs.Promise.Table.{table_of};
ghost use Rattle.tb_calls.specs.Promise.Asked.{joined_of};
ghost use Rattle.tb_request.specs.Promise.Reading.{request_view, unpivot_view, dummies_view, pivot_view};
ghost use Rattle.tb_answer.specs.Outcomes.{DueOfDummiesRequest, DueOfJoinRequest, DueOfPivotRequest, DueOfUnpivotRequest};
ghost use Rattle.tb_answer.specs.Promise.Due.{DueOfDummies, DueOfJoin, DueOfPivot, DueOfUnpivot};

use crate::outcomes::{Answer, answered, join_answered, no_request};
use std::alloc::Global;
use tb_alone::join_alone;
use tb_calls::{
    DummiesCall, JoinCall, PivotCall, UnpivotArgsIR, made_long, made_wide, with_dummies,
};
use tb_frame::DataFrame;
use tb_request::{
    DummiesRequest, JoinRequest, PivotRequest, UnpivotRequest, dummies_request_of, join_request_of,
    pivot_request_of, unpivot_request_of,
};
use tb_value::{OutOfMemory, PolarsResult};

/// Joins the two tables of a request.
///
/// # Errors
///
/// `OutOfMemory` where memory is wanting.
pub fn answer_join(alloc: Global, bytes: Vec<u8>) -> Result<Answer, OutOfMemory>
    ensures { IfOk result (λ a. DueOfJoin bytes.items a.status a.text) }
{
    match join_request_of(alloc, bytes) {
        Ok(request) => join_answer(alloc, request),
        Err(fault) => no_request(alloc, fault),
    }
}

/// Makes the table of a request long.
///
/// # Errors
///
/// `OutOfMemory` where memory is wanting.
pub fn answer_unpivot(alloc: Global, bytes: Vec<u8>) -> Result<Answer, OutOfMemory>
    ensures { IfOk result (λ a. DueOfUnpivot bytes.items a.status a.text) }
{
    match unpivot_request_of(alloc, bytes) {
        Ok(request) => long_answer(alloc, request),
        Err(fault) => no_request(alloc, fault),
    }
}

/// Replaces columns of the table of a request by dummies.
///
/// # Errors
///
/// `OutOfMemory` where memory is wanting.
pub fn answer_dummies(alloc: Global, bytes: Vec<u8>) -> Result<Answer, OutOfMemory>
    ensures { IfOk result (λ a. DueOfDummies bytes.items a.status a.text) }
{
    match dummies_request_of(alloc, bytes) {
        Ok(request) => dummies_answer(alloc, request),
        Err(fault) => no_request(alloc, fault),
    }
}

/// Makes the table of a request wide.
///
/// # Errors
///
/// `OutOfMemory` where memory is wanting.
pub fn answer_pivot(alloc: Global, bytes: Vec<u8>) -> Result<Answer, OutOfMemory>
    ensures { IfOk result (λ a. DueOfPivot bytes.items a.status a.text) }
{
    match pivot_request_of(alloc, bytes) {
        Ok(request) => wide_answer(alloc, request),
        Err(fault) => no_request(alloc, fault),
    }
}

// Joins the tables of a call, which the text of the answer doesn't need.
fn joined(
    alloc: Global,
    left: DataFrame,
    right: DataFrame,
    call: JoinCall,
) -> PolarsResult<DataFrame>
    ensures settles { Settles result
        (join_refusal (joined_of call (table_of left) (table_of right))) }
    ensures answer { IfOk result (λ t.
        IsAnswer (joined_of call (table_of left) (table_of right)) (table_of t)) }
{
    join_alone(
        alloc,
        &left,
        &right,
        &call.left_on,
        &call.right_on,
        &call.args,
    )
}

fn join_answer(alloc: Global, request: JoinRequest) -> Result<Answer, OutOfMemory>
    ensures { IfOk result (λ a.
        DueOfJoinRequest (request_view request) a.status a.text) }
{
    let JoinRequest {
        left,
        right,
        left_on,
        right_on,
        args,
        exec: _,
        trace,
    } = request;
    let call = JoinCall {
        left_on,
        right_on,
        args,
    };
    let outcome = joined(alloc, left, right, call);
    join_answered(alloc, trace, outcome)
}

fn long_answer(alloc: Global, request: UnpivotRequest) -> Result<Answer, OutOfMemory>
    ensures { IfOk result (λ a.
        DueOfUnpivotRequest (unpivot_view request) a.status a.text) }
{
    let UnpivotRequest {
        table,
        on,
        index,
        variable_name,
        value_name,
    } = request;
    let call = UnpivotArgsIR {
        on,
        index,
        variable_name,
        value_name,
    };
    let outcome = made_long(alloc, table, call);
    answered(alloc, outcome)
}

fn dummies_answer(alloc: Global, request: DummiesRequest) -> Result<Answer, OutOfMemory>
    ensures { IfOk result (λ a.
        DueOfDummiesRequest (dummies_view request) a.status a.text) }
{
    let DummiesRequest {
        table,
        columns,
        separator,
        drop_first,
    } = request;
    let call = DummiesCall {
        columns,
        separator,
        drop_first,
    };
    let outcome = with_dummies(alloc, table, call);
    answered(alloc, outcome)
}

fn wide_answer(alloc: Global, request: PivotRequest) -> Result<Answer, OutOfMemory>
    ensures { IfOk result (λ a.
        DueOfPivotRequest (pivot_view request) a.status a.text) }
{
    let PivotRequest {
        table,
        on,
        index,
        values,
        sort_columns,
        agg,
        separator,
    } = request;
    let call = PivotCall {
        on,
        index,
        values,
        sort_columns,
        agg,
        separator,
    };
    let outcome = made_wide(alloc, table, call);
    answered(alloc, outcome)
}
