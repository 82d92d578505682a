//! The requests that bytes are.
ghost use Rattle.std.specs.Prelude.{◌≡◌, MatchResult, Ok};
ghost use Rattle.tb_tree.specs.View.{view};
ghost use Rattle.tb_request.specs.Promise.Reading.{FaultIs};
ghost use Rattle.tb_group_request.specs.Promise.Reading.{group_in, group_request_of, group_view};

use crate::request::GroupRequest;
use crate::shape::{WrittenGroup, group_of};
use std::alloc::Global;
use tb_request::{Reason, RequestFault, single_table, value_in};
use tb_tree::Value;

/// The request to group a table that a JSON value is.
///
/// # Errors
///
/// Those of `group_request_of`, of the value.
#[tactic(auto, unfolding(crate::specs::Promise::Reading::group_in))]
pub fn group_in(alloc: Global, value: Value) -> Result<GroupRequest, RequestFault>
    ensures { MatchResult result (λ q. group_in (view value) ≡ Ok (group_view q))
        (λ e. FaultIs e (group_in (view value))) }
{
    let Some(written) = group_of(alloc, value)? else {
        return Err(RequestFault::NoRequest(Reason::Shape));
    };
    let WrittenGroup {
        table,
        by,
        aggs,
        exec,
        trace,
    } = written;
    let (table, exec) = single_table(alloc, table, exec)?;
    Ok(GroupRequest {
        table,
        by,
        aggs,
        exec,
        trace,
    })
}

/// The request to group a table that the bytes are.
///
/// They are a JSON object with the members `table`, a table as in a request to join, `by`, a list of texts, and `aggs`, a
/// list of objects with exactly `agg`, `"first"`, `"sum"`, `"min"`, `"max"`, `"count"` or `"last"`, `column` and `name`,
/// texts, and perhaps `exec`, `trace` and `format` as in a request to join. No object has other members.
///
/// # Errors
///
/// `OutOfMemory` may come at any time. Else the first of these reasons that holds of the whole input:
///
/// 1. `Json`: the bytes are no JSON text.
/// 2. `Shape`: the value has not this form.
/// 3. `Value`: a value is not of its column's type, or the chunks of a column have more than `MAX_ROWS` values.
/// 4. `Rows`: the counts of all runs add up to more than `MAX_RUN_VALUES`.
/// 5. `Exec`: `Exec::new` refuses the numbers of `exec`.
/// 6. `Heights`: two columns differ in length.
/// 7. `Name`: two columns have one name.
/// 8. `Flag`: a column is not in the order that `sorted` claims.
#[tactic(auto, unfolding(crate::specs::Promise::Reading::group_request_of))]
pub fn group_request_of(alloc: Global, bytes: Vec<u8>) -> Result<GroupRequest, RequestFault>
    ensures { MatchResult result (λ q. group_request_of bytes.items ≡ Ok (group_view q))
        (λ e. FaultIs e (group_request_of bytes.items)) }
{
    let value = value_in(alloc, bytes)?;
    group_in(alloc, value)
}
