//! A request that is read is answered: the one door to the commands.
ghost use Rattle.std.specs.Prelude.{◌≡◌, Err, IfOk};
ghost use Rattle.tb_request.specs.Promise.Reading.{request_view, unpivot_view, dummies_view, pivot_view, join_request_of, unpivot_request_of, dummies_request_of, pivot_request_of};
ghost use Rattle.tb_run.specs.Promise.Due.{DueOfReading, DueOfRequest};
ghost use Rattle.tb_run.specs.Due.{IsJoinOutcome, IsOutcome, IsRefusal};
ghost use Rattle.tb_run.specs.Promise.Requests.{request_of, as_request, join, unpivot, dummies, pivot};

use crate::grouping::answer_group;
use crate::keeping::answer_delta;
use crate::planning::answer_plan;
use crate::status::Status;
use crate::tracing::text_with_trace;
use crate::words::Command;
use std::alloc::Global;
use std::thread::Threads;
use tb_calls::{
    DummiesCall, JoinCall, JoinTrace, PivotCall, UnpivotArgsIR, joined_traced, made_long,
    made_wide, with_dummies,
};
use tb_frame::DataFrame;
use tb_json::{into_text, text_of_refusal};
use tb_request::{
    DummiesRequest, JoinRequest, PivotRequest, Reason, RequestFault, UnpivotRequest,
    bad_request_text, dummies_request_of, join_request_of, pivot_request_of, unpivot_request_of,
};
use tb_text::Text;
use tb_value::{OutOfMemory, PolarsError, PolarsResult};

/// What is written, and the status that goes with it.
#[derive(Drop)]
pub struct Answer {
    pub status: Status,
    pub text: Text,
}

#[tactic(auto, unfolding(crate::specs::Promise::Requests::request_of))]
pub(crate) fn answer_request(
    rt: &(impl Threads + Sync),
    alloc: Global,
    command: Command,
    bytes: Vec<u8>,
) -> Result<Answer, OutOfMemory>
    ensures { IfOk result (λ a.
        DueOfReading (request_of command bytes.items) a.status a.text) }
{
    match command {
        Command::Join => answer_join(rt, alloc, bytes),
        Command::Unpivot => answer_unpivot(alloc, bytes),
        Command::Dummies => answer_dummies(alloc, bytes),
        Command::Pivot => answer_pivot(alloc, bytes),
        Command::Plan => answer_plan(rt, alloc, bytes),
        Command::Delta => answer_delta(rt, alloc, bytes),
        Command::Group => answer_group(rt, alloc, bytes),
    }
}

fn answer_join(
    rt: &(impl Threads + Sync),
    alloc: Global,
    bytes: Vec<u8>,
) -> Result<Answer, OutOfMemory>
    ensures { IfOk result (λ a.
        DueOfReading (as_request join (join_request_of bytes.items)) a.status
        a.text) }
{
    match join_request_of(alloc, bytes) {
        Ok(request) => join_answer(rt, alloc, request),
        Err(fault) => no_request(alloc, fault),
    }
}

fn answer_unpivot(alloc: Global, bytes: Vec<u8>) -> Result<Answer, OutOfMemory>
    ensures { IfOk result (λ a.
        DueOfReading (as_request unpivot (unpivot_request_of bytes.items)) a.status
        a.text) }
{
    match unpivot_request_of(alloc, bytes) {
        Ok(request) => long_answer(alloc, request),
        Err(fault) => no_request(alloc, fault),
    }
}

fn answer_dummies(alloc: Global, bytes: Vec<u8>) -> Result<Answer, OutOfMemory>
    ensures { IfOk result (λ a.
        DueOfReading (as_request dummies (dummies_request_of bytes.items)) a.status
        a.text) }
{
    match dummies_request_of(alloc, bytes) {
        Ok(request) => dummies_answer(alloc, request),
        Err(fault) => no_request(alloc, fault),
    }
}

fn answer_pivot(alloc: Global, bytes: Vec<u8>) -> Result<Answer, OutOfMemory>
    ensures { IfOk result (λ a.
        DueOfReading (as_request pivot (pivot_request_of bytes.items)) a.status
        a.text) }
{
    match pivot_request_of(alloc, bytes) {
        Ok(request) => wide_answer(alloc, request),
        Err(fault) => no_request(alloc, fault),
    }
}

fn join_answer(
    rt: &(impl Threads + Sync),
    alloc: Global,
    request: JoinRequest,
) -> Result<Answer, OutOfMemory>
    ensures { IfOk result (λ a.
        DueOfRequest (join (request_view request)) a.status a.text) }
{
    let JoinRequest {
        left,
        right,
        left_on,
        right_on,
        args,
        exec,
        trace,
    } = request;
    let call = JoinCall {
        left_on,
        right_on,
        args,
    };
    let outcome = joined_traced(rt, alloc, left, right, call, &exec);
    join_answered(alloc, trace, outcome)
}

fn long_answer(alloc: Global, request: UnpivotRequest) -> Result<Answer, OutOfMemory>
    ensures { IfOk result (λ a.
        DueOfRequest (unpivot (unpivot_view request)) a.status a.text) }
{
    let UnpivotRequest {
        table,
        on,
        index,
        variable_name,
        value_name,
    } = request;
    let call = UnpivotArgsIR {
        on,
        index,
        variable_name,
        value_name,
    };
    let outcome = made_long(alloc, table, call);
    answered(alloc, outcome)
}

fn dummies_answer(alloc: Global, request: DummiesRequest) -> Result<Answer, OutOfMemory>
    ensures { IfOk result (λ a.
        DueOfRequest (dummies (dummies_view request)) a.status a.text) }
{
    let DummiesRequest {
        table,
        columns,
        separator,
        drop_first,
    } = request;
    let call = DummiesCall {
        columns,
        separator,
        drop_first,
    };
    let outcome = with_dummies(alloc, table, call);
    answered(alloc, outcome)
}

fn wide_answer(alloc: Global, request: PivotRequest) -> Result<Answer, OutOfMemory>
    ensures { IfOk result (λ a.
        DueOfRequest (pivot (pivot_view request)) a.status a.text) }
{
    let PivotRequest {
        table,
        on,
        index,
        values,
        sort_columns,
        agg,
        separator,
    } = request;
    let call = PivotCall {
        on,
        index,
        values,
        sort_columns,
        agg,
        separator,
    };
    let outcome = made_wide(alloc, table, call);
    answered(alloc, outcome)
}

// The text of the table that a join gave, with its trace where that is asked, or of why it gave none.
fn join_answered(
    alloc: Global,
    asks_trace: bool,
    outcome: PolarsResult<(DataFrame, JoinTrace)>,
) -> Result<Answer, OutOfMemory>
    ensures { IfOk result (λ a. IsJoinOutcome asks_trace outcome a.status a.text) }
{
    match outcome {
        Ok((table, trace)) if asks_trace => Ok(Answer {
            status: Status::Done,
            text: text_with_trace(alloc, table, &trace)?,
        }),
        Ok((table, _)) => answered(alloc, Ok(table)),
        Err(error) => refused(alloc, error),
    }
}

// The text of the table that an operation gave, or of why it gave none.
fn answered(alloc: Global, outcome: PolarsResult<DataFrame>) -> Result<Answer, OutOfMemory>
    ensures { IfOk result (λ a. IsOutcome outcome a.status a.text) }
{
    match outcome {
        Ok(table) => Ok(Answer {
            status: Status::Done,
            text: into_text(alloc, table)?,
        }),
        Err(error) => refused(alloc, error),
    }
}

/// Want of memory is handed on, and any other refusal has a text.
#[tactic(auto, unfolding(crate::specs::Promise::Requests::text_of_refusal))]
pub(crate) fn refused(alloc: Global, error: PolarsError) -> Result<Answer, OutOfMemory>
    ensures { IfOk result (λ a. IsRefusal error a.status a.text) }
{
    match error {
        PolarsError::OutOfMemory => Err(OutOfMemory),
        error => Ok(Answer {
            status: Status::Refused,
            text: Text::from_string(alloc, text_of_refusal(alloc, &error)?)?,
        }),
    }
}

/// Want of memory is handed on, and a reason has a text.
pub(crate) fn no_request(alloc: Global, fault: RequestFault) -> Result<Answer, OutOfMemory>
    ensures { IfOk result (λ a. (reason : Reason) × (fault ≡ RequestFault.NoRequest reason)
        × DueOfReading (Err reason) a.status a.text) }
{
    match fault {
        RequestFault::OutOfMemory => Err(OutOfMemory),
        RequestFault::NoRequest(reason) => Ok(Answer {
            status: Status::BadRequest,
            text: Text::from_string(alloc, bad_request_text(alloc, reason)?)?,
        }),
    }
}
