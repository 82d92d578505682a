//! The text of what an operation gives, or of why there is none.
ghost use Rattle.std.specs.Prelude.{◌≡◌, Err, IfOk};
ghost use Rattle.tb_answer.specs.Outcomes.{IsJoinOutcome, IsNoRequest, IsOutcome, IsRefusal};

use crate::status::Status;
use serde_json::Value;
use std::alloc::Global;
use tb_frame::DataFrame;
use tb_json::{into_text, text_of_refusal, traced_text_of};
use tb_request::{Reason, RequestFault, bad_request_text};
use tb_text::Text;
use tb_value::{OutOfMemory, PolarsError, PolarsResult};

/// A text, and the status that goes with it.
#[derive(Drop)]
pub struct Answer {
    pub status: Status,
    pub text: Text,
}

/// The text of the table that an operation gave, or of why it gave none.
pub(crate) fn answered(
    alloc: Global,
    outcome: PolarsResult<DataFrame>,
) -> Result<Answer, OutOfMemory>
    ensures { IfOk result (λ a. IsOutcome outcome a.status a.text) }
{
    match outcome {
        Ok(table) => Ok(Answer {
            status: Status::Done,
            text: into_text(alloc, table)?,
        }),
        Err(error) => refused(alloc, error),
    }
}

/// The same of a join. Where its trace is asked, the trace tells nothing.
pub(crate) fn join_answered(
    alloc: Global,
    asks_trace: bool,
    outcome: PolarsResult<DataFrame>,
) -> Result<Answer, OutOfMemory>
    ensures { IfOk result (λ a. IsJoinOutcome asks_trace outcome a.status a.text) }
{
    match outcome {
        Ok(table) if asks_trace => Ok(Answer {
            status: Status::Done,
            text: traced_text_of(alloc, table, &Value::Null)?,
        }),
        outcome => answered(alloc, outcome),
    }
}

// Want of memory is handed on, and any other refusal has a text.
fn refused(alloc: Global, error: PolarsError) -> Result<Answer, OutOfMemory>
    ensures { IfOk result (λ a. IsRefusal error a.status a.text) }
{
    match error {
        PolarsError::OutOfMemory => Err(OutOfMemory),
        error => Ok(Answer {
            status: Status::Refused,
            text: Text::from_string(alloc, text_of_refusal(alloc, &error)?)?,
        }),
    }
}

/// Want of memory is handed on, and a reason has a text.
pub(crate) fn no_request(alloc: Global, fault: RequestFault) -> Result<Answer, OutOfMemory>
    ensures { IfOk result (λ a. (reason : Reason) × (fault ≡ RequestFault.NoRequest reason)
        × IsNoRequest reason a.status a.text) }
{
    match fault {
        RequestFault::OutOfMemory => Err(OutOfMemory),
        RequestFault::NoRequest(reason) => Ok(Answer {
            status: Status::BadRequest,
            text: Text::from_string(alloc, bad_request_text(alloc, reason)?)?,
        }),
    }
}
