//! A request to keep a join is answered.
ghost use Rattle.std.specs.Prelude.{◌≡◌, IfOk};
ghost use Rattle.tb_frame.specs.Promise.Table.{table_of};
ghost use Rattle.tb_delta.specs.Running.{lists_of};
ghost use Rattle.tb_delta_request.specs.Promise.Reading.{delta_request_of, delta_view, AreFitting};
ghost use Rattle.tb_delta_request.specs.Promise.Texts.{kept_text};
ghost use Rattle.tb_run.specs.Promise.Due.{DueOfReading, DueOfRequest};
ghost use Rattle.tb_run.specs.Due.{IsKeptRefusal};
ghost use Rattle.tb_run.specs.Promise.Requests.{as_request, delta};

use crate::answering::{Answer, no_request};
use crate::status::Status;
use std::alloc::Global;
use std::thread::Threads;
use tb_delta_request::{
    DeltaRequest, KeptFault, KeptJoin, delta_request_of, kept, text_of_fault, text_of_kept,
};
use tb_text::Text;
use tb_value::OutOfMemory;

pub(crate) fn answer_delta(
    rt: &(impl Threads + Sync),
    alloc: Global,
    bytes: Vec<u8>,
) -> Result<Answer, OutOfMemory>
    ensures { IfOk result (λ a.
        DueOfReading (as_request delta (delta_request_of bytes.items)) a.status
        a.text) }
{
    match delta_request_of(alloc, bytes) {
        Ok(request) => delta_answer(rt, alloc, request),
        Err(fault) => no_request(alloc, fault),
    }
}

fn delta_answer(
    rt: &(impl Threads + Sync),
    alloc: Global,
    request: DeltaRequest,
) -> Result<Answer, OutOfMemory>
    requires fitting { AreFitting (delta_view request) }
    ensures { IfOk result (λ a.
        DueOfRequest (delta (delta_view request)) a.status a.text) }
{
    match kept(rt, alloc, request) {
        Ok(join) => kept_answer(alloc, join),
        Err(fault) => kept_refused(alloc, fault),
    }
}

// The text of the join that was kept.
fn kept_answer(alloc: Global, join: KeptJoin) -> Result<Answer, OutOfMemory>
    ensures { IfOk result (λ a.
        (a.status ≡ Status.Done)
        × (a.text
        ≡ kept_text (table_of join.table) (lists_of join.partners.items))) }
{
    let KeptJoin { table, partners } = join;
    Ok(Answer {
        status: Status::Done,
        text: text_of_kept(alloc, table, &partners)?,
    })
}

// Want of memory is handed on, and any other fault has a text.
fn kept_refused(alloc: Global, fault: KeptFault) -> Result<Answer, OutOfMemory>
    ensures { IfOk result (λ a. IsKeptRefusal fault a.status a.text) }
{
    Ok(Answer {
        status: Status::Refused,
        text: Text::from_string(alloc, text_of_fault(alloc, &fault)?)?,
    })
}
