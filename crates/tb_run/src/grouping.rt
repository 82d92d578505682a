//! A request to group a table is answered.
ghost use Rattle.std.specs.Prelude.{◌≡◌, IfOk};
ghost use Rattle.tb_group_request.specs.Promise.Reading.{group_request_of, group_view};
ghost use Rattle.tb_run.specs.Promise.Due.{DueOfReading, DueOfRequest};
ghost use Rattle.tb_run.specs.Due.{IsGroupOutcome};
ghost use Rattle.tb_run.specs.Promise.Requests.{as_request, group};

use crate::answering::{Answer, no_request, refused};
use crate::status::Status;
use std::alloc::Global;
use std::thread::Threads;
use tb_group_request::{GroupRequest, GroupedTable, group_request_of, grouped, text_of_grouped};
use tb_value::{OutOfMemory, PolarsResult};

pub(crate) fn answer_group(
    rt: &(impl Threads + Sync),
    alloc: Global,
    bytes: Vec<u8>,
) -> Result<Answer, OutOfMemory>
    ensures { IfOk result (λ a. DueOfReading (as_request group (group_request_of bytes.items))
        a.status a.text) }
{
    match group_request_of(alloc, bytes) {
        Ok(request) => group_answer(rt, alloc, request),
        Err(fault) => no_request(alloc, fault),
    }
}

fn group_answer(
    rt: &(impl Threads + Sync),
    alloc: Global,
    request: GroupRequest,
) -> Result<Answer, OutOfMemory>
    ensures { IfOk result (λ a. DueOfRequest (group (group_view request))
        a.status a.text) }
{
    let outcome = grouped(rt, alloc, request);
    group_answered(alloc, outcome)
}

// The text of the table that was grouped, or of why it was not.
fn group_answered(alloc: Global, outcome: PolarsResult<GroupedTable>) -> Result<Answer, OutOfMemory>
    ensures { IfOk result (λ a. IsGroupOutcome outcome a.status a.text) }
{
    match outcome {
        Ok(grouped) => Ok(Answer {
            status: Status::Done,
            text: text_of_grouped(alloc, grouped)?,
        }),
        Err(error) => refused(alloc, error),
    }
}
