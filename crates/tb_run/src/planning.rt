//! A request of a plan is answered.
ghost use Rattle.std.specs.Prelude.{◌≡◌, IfOk};
ghost use Rattle.tb_plan_request.specs.Lent.{plan_view};
ghost use Rattle.tb_plan_request.specs.Promise.Reading.{plan_request_of};
ghost use Rattle.tb_run.specs.Promise.Due.{DueOfReading, DueOfRequest};
ghost use Rattle.tb_run.specs.Due.{IsPlanOutcome, IsPlanRefusal};
ghost use Rattle.tb_run.specs.Promise.Requests.{as_request, plan};

use crate::answering::{Answer, no_request};
use crate::status::Status;
use std::alloc::Global;
use std::thread::Threads;
use tb_frame::DataFrame;
use tb_json::into_text;
use tb_plan::PlanFault;
use tb_plan_request::{PlanRequest, plan_request_of, planned, text_of_fault};
use tb_text::Text;
use tb_value::OutOfMemory;

pub(crate) fn answer_plan(
    rt: &(impl Threads + Sync),
    alloc: Global,
    bytes: Vec<u8>,
) -> Result<Answer, OutOfMemory>
    ensures { IfOk result (λ a.
        DueOfReading (as_request plan (plan_request_of bytes.items)) a.status
        a.text) }
{
    match plan_request_of(alloc, bytes) {
        Ok(request) => plan_answer(rt, alloc, request),
        Err(fault) => no_request(alloc, fault),
    }
}

fn plan_answer(
    rt: &(impl Threads + Sync),
    alloc: Global,
    request: PlanRequest,
) -> Result<Answer, OutOfMemory>
    ensures { IfOk result (λ a.
        DueOfRequest (plan (plan_view request)) a.status a.text) }
{
    let outcome = planned(rt, alloc, request);
    plan_answered(alloc, outcome)
}

// The text of the table that a plan made, or of why it made none.
fn plan_answered(
    alloc: Global,
    outcome: Result<DataFrame, PlanFault>,
) -> Result<Answer, OutOfMemory>
    ensures { IfOk result (λ a. IsPlanOutcome outcome a.status a.text) }
{
    match outcome {
        Ok(table) => Ok(Answer {
            status: Status::Done,
            text: into_text(alloc, table)?,
        }),
        Err(fault) => plan_refused(alloc, fault),
    }
}

// Want of memory is handed on, and any other fault has a text.
#[tactic(auto, unfolding(crate::specs::Promise::Requests::text_of_refusal))]
fn plan_refused(alloc: Global, fault: PlanFault) -> Result<Answer, OutOfMemory>
    ensures { IfOk result (λ a. IsPlanRefusal fault a.status a.text) }
{
    match fault {
        PlanFault::OutOfMemory => Err(OutOfMemory),
        fault => Ok(Answer {
            status: Status::Refused,
            text: Text::from_string(alloc, text_of_fault(alloc, &fault)?)?,
        }),
    }
}
