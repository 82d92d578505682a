//! The plan that bytes ask for.
ghost use Rattle.std.specs.Prelude.{◌≡◌, MatchResult, Ok};
ghost use Rattle.tb_tree.specs.View.{view};
ghost use Rattle.tb_request.specs.Promise.Reading.{FaultIs};
ghost use Rattle.tb_plan_request.specs.Lent.{plan_view};
ghost use Rattle.tb_plan_request.specs.Promise.Reading.{plan_in, plan_request_of};

use crate::members::{WrittenPlan, written_of};
use crate::request::PlanRequest;
use crate::tables::{NamedColumns, named_columns, named_tables};
use std::alloc::Global;
use tb_request::{Reason, RequestFault, RequestTables, request_tables, value_in};
use tb_tree::Value;

/// The plan that a JSON value asks for.
///
/// # Errors
///
/// Those of `plan_request_of`, of the value.
#[tactic(auto, unfolding(crate::specs::Promise::Reading::plan_in))]
pub fn plan_in(alloc: Global, value: Value) -> Result<PlanRequest, RequestFault>
    ensures { MatchResult result (λ q. plan_in (view value) ≡ Ok (plan_view q))
        (λ e. FaultIs e (plan_in (view value))) }
{
    let Some(written) = written_of(alloc, value)? else {
        return Err(RequestFault::NoRequest(Reason::Shape));
    };
    let WrittenPlan {
        tables,
        root,
        pivot,
        push,
        exec,
    } = written;
    let NamedColumns { names, columns } = named_columns(alloc, tables)?;
    let RequestTables { tables, exec } = request_tables(alloc, columns, exec)?;
    Ok(PlanRequest {
        tables: named_tables(alloc, names, tables)?,
        root,
        pivot,
        push,
        exec,
    })
}

/// The plan that the bytes ask for.
///
/// They are a JSON object with the members `tables`, a list of objects with exactly `name`, a text, and `table`, a table as in
/// a request to join, and `root`, a tree as `tree_of` has it, and perhaps `pivot`, as `pivot_of` has it, `push`, a truth
/// value, and `exec` and `format` as in a request to join.
///
/// # Errors
///
/// `OutOfMemory` may come at any time. Else the first of these reasons of `join_request_of` that holds of the whole input, of
/// any of its tables: `Json`, `Shape`, `Value`, `Rows`, `Exec`, `Heights`, `Name`, `Flag`.
#[tactic(auto, unfolding(crate::specs::Promise::Reading::plan_request_of))]
pub fn plan_request_of(alloc: Global, bytes: Vec<u8>) -> Result<PlanRequest, RequestFault>
    ensures { MatchResult result (λ q. plan_request_of bytes.items ≡ Ok (plan_view q))
        (λ e. FaultIs e (plan_request_of bytes.items)) }
{
    let value = value_in(alloc, bytes)?;
    plan_in(alloc, value)
}
