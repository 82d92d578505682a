//! The requests that bytes are.
ghost use Rattle.std.specs.Prelude.{◌≡◌, option_map, IfOk, MatchResult, Ok};
ghost use Rattle.std.specs.Result.{result_ok};
ghost use Rattle.tb_tree.specs.View.{view};
ghost use Rattle.tb_request.specs.Promise.Reading.{value_of, dummies_in, join_in, pivot_in, unpivot_in, dummies_request_of, join_request_of, pivot_request_of, unpivot_request_of, dummies_view, pivot_view, request_view, unpivot_view, FaultIs};

use crate::one_table::{dummies_of, pivot_of, unpivot_of};
use crate::request::{
    DummiesRequest, JoinRequest, PivotRequest, Reason, RequestFault, UnpivotRequest,
};
use crate::shape::{ExecNumbers, join_of};
use crate::tables::{single_table, two_tables};
use std::alloc::Global;
use tb_tree::{Fault, Value};
use tb_value::OutOfMemory;

/// The request to join that a JSON value is.
///
/// # Errors
///
/// Those of `join_request_of`, of the value.
#[tactic(auto, unfolding(crate::specs::Promise::Reading::join_in))]
pub fn join_in(alloc: Global, value: Value) -> Result<JoinRequest, RequestFault>
    ensures { MatchResult result (λ q. join_in (view value) ≡ Ok (request_view q))
        (λ e. FaultIs e (join_in (view value))) }
{
    let Some(written) = join_of(alloc, value)? else {
        return Err(RequestFault::NoRequest(Reason::Shape));
    };
    let (left, right, exec) = two_tables(alloc, written.left, written.right, written.exec)?;
    Ok(JoinRequest {
        left,
        right,
        left_on: written.left_on,
        right_on: written.right_on,
        args: written.args,
        exec,
        trace: written.trace,
    })
}

/// The JSON value that the bytes are.
///
/// # Errors
///
/// `OutOfMemory` may come at any time. Else `Json`, where they are no JSON text.
#[tactic(auto, unfolding(crate::specs::Promise::Reading::value_of))]
pub fn value_of(alloc: Global, bytes: &[u8]) -> Result<Value, RequestFault>
    ensures { MatchResult result (λ v. value_of bytes.now ≡ Ok (view v)) (λ e.
        FaultIs e (value_of bytes.now)) }
{
    match Value::from_slice(alloc, bytes) {
        Ok(value) => Ok(value),
        Err(fault) => match fault {
            Fault::OutOfMemory => Err(RequestFault::OutOfMemory),
            Fault::NoJson => Err(RequestFault::NoRequest(Reason::Json)),
        },
    }
}

/// The value that the text is, or None where it is no JSON text.
///
/// # Errors
///
/// `OutOfMemory` alone, which may come at any time.
pub fn json_value(alloc: Global, text: &[u8]) -> Result<Option<Value>, OutOfMemory>
    ensures { IfOk result (λ o. option_map view o ≡ result_ok (value_of text.now)) }
{
    match value_of(alloc, text) {
        Ok(value) => Ok(Some(value)),
        Err(fault) => match fault {
            RequestFault::OutOfMemory => Err(OutOfMemory),
            RequestFault::NoRequest(_) => Ok(None),
        },
    }
}

/// The same. The bytes are let go as soon as the value is made.
pub fn value_in(alloc: Global, bytes: Vec<u8>) -> Result<Value, RequestFault>
    ensures { MatchResult result (λ v. value_of bytes.items ≡ Ok (view v)) (λ e.
        FaultIs e (value_of bytes.items)) }
{
    value_of(alloc, &bytes)
}

/// The request to make a table long that a JSON value is.
///
/// # Errors
///
/// Those of `unpivot_request_of`, of the value.
#[tactic(auto, unfolding(crate::specs::Promise::Reading::unpivot_in))]
pub fn unpivot_in(alloc: Global, value: Value) -> Result<UnpivotRequest, RequestFault>
    ensures { MatchResult result (λ q. unpivot_in (view value) ≡ Ok (unpivot_view q))
        (λ e. FaultIs e (unpivot_in (view value))) }
{
    let Some(written) = unpivot_of(alloc, value)? else {
        return Err(RequestFault::NoRequest(Reason::Shape));
    };
    let (table, _) = single_table(alloc, written.table, ExecNumbers::standard())?;
    Ok(UnpivotRequest {
        table,
        on: written.on,
        index: written.index,
        variable_name: written.variable_name,
        value_name: written.value_name,
    })
}

/// The request for dummies that a JSON value is.
///
/// # Errors
///
/// Those of `dummies_request_of`, of the value.
#[tactic(auto, unfolding(crate::specs::Promise::Reading::dummies_in))]
pub fn dummies_in(alloc: Global, value: Value) -> Result<DummiesRequest, RequestFault>
    ensures { MatchResult result (λ q. dummies_in (view value) ≡ Ok (dummies_view q))
        (λ e. FaultIs e (dummies_in (view value))) }
{
    let Some(written) = dummies_of(alloc, value)? else {
        return Err(RequestFault::NoRequest(Reason::Shape));
    };
    let (table, _) = single_table(alloc, written.table, ExecNumbers::standard())?;
    Ok(DummiesRequest {
        table,
        columns: written.columns,
        separator: written.separator,
        drop_first: written.drop_first,
    })
}

/// The request to make a table wide that a JSON value is.
///
/// # Errors
///
/// Those of `pivot_request_of`, of the value.
#[tactic(auto, unfolding(crate::specs::Promise::Reading::pivot_in))]
pub fn pivot_in(alloc: Global, value: Value) -> Result<PivotRequest, RequestFault>
    ensures { MatchResult result (λ q. pivot_in (view value) ≡ Ok (pivot_view q))
        (λ e. FaultIs e (pivot_in (view value))) }
{
    let Some(written) = pivot_of(alloc, value)? else {
        return Err(RequestFault::NoRequest(Reason::Shape));
    };
    let (table, _) = single_table(alloc, written.table, ExecNumbers::standard())?;
    Ok(PivotRequest {
        table,
        on: written.on,
        index: written.index,
        values: written.values,
        sort_columns: written.sort_columns,
        agg: written.agg,
        separator: written.separator,
    })
}

/// The request to join that the bytes are.
///
/// They are a JSON object with the members `left`, `right`, `left_on`, `right_on` and `args`, and
/// perhaps `exec`, `trace`, a truth value, and `format`, 1 or 2. A table is an object with exactly
/// `columns`, a list of objects with `name`, a text, `type`, `chunks`, lists of values of the type, and
/// perhaps `sorted`, `"ascending"` or `"descending"`. In format 2 a column has `runs` in the place of
/// `chunks`: lists of a value and its count, from 1 to 2^64 - 1, and 1 alone of a list or a struct. The
/// keys are lists of texts.
///
/// The arguments are an object with `how`, `"inner"`, `"left"`, `"right"`, `"full"`, `"semi"` or
/// `"anti"`, and perhaps `validation`, `"m:m"`, `"m:1"`, `"1:m"` or `"1:1"`; `suffix`, a text;
/// `slice`, a list of an offset of 64 bits and a length of 64 bits without sign; `join_nulls`, a truth
/// value or a list of them; `coalesce`, `"specific"`, `"coalesce"` or `"keep"`; and `maintain_order`,
/// `"none"`, `"left"`, `"right"`, `"left_right"` or `"right_left"`. `exec` is an object with exactly
/// `workers`, `partitions`, `small`, `num` and `den`, whole numbers below 2^32. No object has other
/// members.
///
/// # Errors
///
/// `OutOfMemory` may come at any time. Else the first of these reasons that holds of the whole input:
///
/// 1. `Json`: the bytes are no JSON text.
/// 2. `Shape`: the value has not this form.
/// 3. `Value`: a value is not of its column's type, or the chunks of a column have more than `MAX_ROWS` values.
/// 4. `Rows`: the counts of all runs, of both tables, add up to more than `MAX_RUN_VALUES`.
/// 5. `Exec`: `Exec::new` refuses the numbers of `exec`.
/// 6. `Heights`: two columns of a table differ in length.
/// 7. `Name`: two columns of a table have one name.
/// 8. `Flag`: a column is not in the order that `sorted` claims.
#[tactic(auto, unfolding(crate::specs::Promise::Reading::join_request_of))]
pub fn join_request_of(alloc: Global, bytes: Vec<u8>) -> Result<JoinRequest, RequestFault>
    ensures { MatchResult result (λ q. join_request_of bytes.items ≡ Ok (request_view q))
        (λ e. FaultIs e (join_request_of bytes.items)) }
{
    let value = value_in(alloc, bytes)?;
    join_in(alloc, value)
}

/// The request to make a table long that the bytes are.
///
/// They are a JSON object with the members `table`, a table as in a request to join, `on` and `index`,
/// lists of texts, and perhaps `variable_name` and `value_name`, texts, and `format` as there.
///
/// # Errors
///
/// `OutOfMemory` may come at any time. Else the first of these reasons of `join_request_of` that holds
/// of the whole input: `Json`, `Shape`, `Value`, `Rows`, `Heights`, `Name`, `Flag`.
#[tactic(auto, unfolding(crate::specs::Promise::Reading::unpivot_request_of))]
pub fn unpivot_request_of(alloc: Global, bytes: Vec<u8>) -> Result<UnpivotRequest, RequestFault>
    ensures { MatchResult result (λ q. unpivot_request_of bytes.items ≡ Ok (unpivot_view q))
        (λ e. FaultIs e (unpivot_request_of bytes.items)) }
{
    let value = value_in(alloc, bytes)?;
    unpivot_in(alloc, value)
}

/// The request for dummies that the bytes are.
///
/// They are a JSON object with the member `table`, a table as in a request to join, and perhaps `columns`,
/// a list of texts, `separator`, a text, `drop_first`, a truth value, and `format` as there.
///
/// # Errors
///
/// As those of `unpivot_request_of`.
#[tactic(auto, unfolding(crate::specs::Promise::Reading::dummies_request_of))]
pub fn dummies_request_of(alloc: Global, bytes: Vec<u8>) -> Result<DummiesRequest, RequestFault>
    ensures { MatchResult result (λ q. dummies_request_of bytes.items ≡ Ok (dummies_view q))
        (λ e. FaultIs e (dummies_request_of bytes.items)) }
{
    let value = value_in(alloc, bytes)?;
    dummies_in(alloc, value)
}

/// The request to make a table wide that the bytes are.
///
/// They are a JSON object with the members `table`, a table as in a request to join, and `on`, a list of texts,
/// and perhaps `index` and `values`, lists of texts, `sort_columns`, a truth value, `agg`, `"first"`, `"sum"`,
/// `"min"`, `"max"`, `"count"` or `"last"`, `separator`, a text, and `format` as there.
///
/// # Errors
///
/// As those of `unpivot_request_of`.
#[tactic(auto, unfolding(crate::specs::Promise::Reading::pivot_request_of))]
pub fn pivot_request_of(alloc: Global, bytes: Vec<u8>) -> Result<PivotRequest, RequestFault>
    ensures { MatchResult result (λ q. pivot_request_of bytes.items ≡ Ok (pivot_view q))
        (λ e. FaultIs e (pivot_request_of bytes.items)) }
{
    let value = value_in(alloc, bytes)?;
    pivot_in(alloc, value)
}
