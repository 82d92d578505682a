//! The requests that bytes are.
ghost use Rattle.std.specs.Prelude.{◌≡◌, IfOk, MatchResult, Ok};
ghost use Rattle.tb_tree.specs.View.{view};
ghost use Rattle.tb_request.specs.Promise.Reading.{FaultIs};
ghost use Rattle.tb_delta_request.specs.Promise.Reading.{delta_in, delta_request_of, delta_view, AreFitting};

use crate::request::DeltaRequest;
use crate::rows::steps_from;
use crate::shape::{WrittenDelta, delta_of};
use std::alloc::Global;
use tb_request::{ExecNumbers, Reason, RequestFault, two_tables, value_in};
use tb_tree::Value;

/// The request to keep a join that a JSON value is.
///
/// # Errors
///
/// Those of `delta_request_of`, of the value.
#[tactic(auto, unfolding(crate::specs::Promise::Reading::delta_in))]
pub fn delta_in(alloc: Global, value: Value) -> Result<DeltaRequest, RequestFault>
    ensures request { MatchResult result (λ q. delta_in (view value) ≡ Ok (delta_view q))
        (λ e. FaultIs e (delta_in (view value))) }
    ensures fitting { IfOk result (λ q. AreFitting (delta_view q)) }
{
    let Some(written) = delta_of(alloc, value)? else {
        return Err(RequestFault::NoRequest(Reason::Shape));
    };
    let WrittenDelta {
        left,
        left_on,
        right,
        right_on,
        join_nulls,
        steps,
    } = written;
    let Some(steps) = steps_from(alloc, &left, &right, steps)? else {
        return Err(RequestFault::NoRequest(Reason::Value));
    };
    let (left, right, _) = two_tables(alloc, left, right, ExecNumbers::standard())?;
    Ok(DeltaRequest {
        left,
        right,
        left_on,
        right_on,
        join_nulls,
        steps,
    })
}

/// The request to keep a join that the bytes are.
///
/// They are a JSON object with the members `left` and `right`, tables as in a request to join, `left_on` and `right_on`,
/// texts, and `steps`, and perhaps `join_nulls`, a truth value, and `format`, 1 or 2. `steps` is a list of objects. One
/// with exactly `insert`, `"left"` or `"right"`, and `row` puts a row last on that side: `row` is a list with a value
/// for each column of its table. One with exactly `remove`, `"left"` or `"right"`, and `id`, a whole number below 2^32,
/// takes out the row of that side which has the id. No object has other members.
///
/// # Errors
///
/// `OutOfMemory` may come at any time. Else the first of these reasons that holds of the whole input:
///
/// 1. `Json`: the bytes are no JSON text.
/// 2. `Shape`: the value has not this form.
/// 3. `Value`: a value of a table or of a row is not of its column's type, or the chunks of a column have more than
///    `MAX_ROWS` values.
/// 4. `Rows`: the counts of all runs, of both tables, add up to more than `MAX_RUN_VALUES`.
/// 5. `Heights`: two columns of a table differ in length.
/// 6. `Name`: two columns of a table have one name.
/// 7. `Flag`: a column is not in the order that `sorted` claims.
#[tactic(auto, unfolding(crate::specs::Promise::Reading::delta_request_of))]
pub fn delta_request_of(alloc: Global, bytes: Vec<u8>) -> Result<DeltaRequest, RequestFault>
    ensures request { MatchResult result (λ q. delta_request_of bytes.items ≡ Ok (delta_view q))
        (λ e. FaultIs e (delta_request_of bytes.items)) }
    ensures fitting { IfOk result (λ q. AreFitting (delta_view q)) }
{
    let value = value_in(alloc, bytes)?;
    delta_in(alloc, value)
}
