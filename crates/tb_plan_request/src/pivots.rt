//! What is asked of a pivot, read from JSON and handed to a plan.
ghost use Rattle.std.specs.Prelude.{◌≡◌, option_map, IfOk};
ghost use Rattle.tb_tree.specs.View.{view};
ghost use Rattle.tb_pivot.specs.AggWay.{agg_way};
ghost use Rattle.tb_pivot.specs.Promise.Request.{aggregated};
ghost use Rattle.tb_plan.specs.Asked.{pivot_asked};
ghost use Rattle.tb_plan_request.specs.Lent.{pivot_view};
ghost use Rattle.tb_plan_request.specs.Promise.Written.{pivot_in, pivot_of};

use crate::known::pivot_args_members;
use std::alloc::Global;
use tb_agg::Aggregate;
use tb_calls::PivotCall;
use tb_pivot::{PhysicalAggExpr, PivotAgg};
use tb_plan::PivotArgs;
use tb_request::{agg_of, has_only, text_at, texts_at, texts_if_at, truth_at};
use tb_tree::Value;
use tb_value::OutOfMemory;

#[tactic(auto, unfolding(crate::specs::Promise::Written::pivot_in))]
fn pivot_in(alloc: Global, value: &Value) -> Result<Option<PivotCall>, OutOfMemory>
    ensures { IfOk result (λ o. option_map pivot_view o ≡ pivot_in (view value.now)) }
{
    if !has_only(value, pivot_args_members()) {
        return Ok(None);
    }
    let Some(on) = texts_at(alloc, value, "on")? else {
        return Ok(None);
    };
    let Some(index) = texts_if_at(alloc, value, "index")? else {
        return Ok(None);
    };
    let Some(values) = texts_if_at(alloc, value, "values")? else {
        return Ok(None);
    };
    let (Some(sort_columns), Some(agg)) = (truth_at(value, "sort_columns"), agg_of(value)) else {
        return Ok(None);
    };
    let Some(separator) = text_at(alloc, value, "separator")? else {
        return Ok(None);
    };
    Ok(Some(PivotCall {
        on,
        index,
        values,
        sort_columns,
        agg,
        separator,
    }))
}

/// What the member `pivot` of a request asks, or no pivot where it is absent; None where it has not the form of one. It is an
/// object with `on`, a list of texts, and perhaps `index` and `values`, lists of texts, `sort_columns`, a truth value, `agg`,
/// `"first"`, `"sum"`, `"min"`, `"max"`, `"count"` or `"last"`, and `separator`, a text.
pub fn pivot_of(alloc: Global, request: &Value) -> Result<Option<Option<PivotCall>>, OutOfMemory>
    ensures { IfOk result (λ o.
        option_map (option_map pivot_view) o ≡ pivot_of (view request.now)) }
{
    let Some(member) = request.get("pivot") else {
        return Ok(Some(None));
    };
    Ok(pivot_in(alloc, member)?.map(Some))
}

fn pivot_agg(agg: Aggregate) -> PivotAgg
    ensures { let of = ⟦<dyn PhysicalAggExpr as PhysicalAggExpr>⟧ in
        agg_way (λ d. (of d).named) (λ d. (of d).answers) result ≡ aggregated agg }
{
    match agg {
        Aggregate::First => PivotAgg::First,
        Aggregate::Last => PivotAgg::Last,
        Aggregate::Sum => PivotAgg::Sum,
        Aggregate::Min => PivotAgg::Min,
        Aggregate::Max => PivotAgg::Max,
        Aggregate::Count => PivotAgg::Count,
    }
}

fn pivot_args(call: PivotCall) -> PivotArgs
    ensures { let of = ⟦<dyn PhysicalAggExpr as PhysicalAggExpr>⟧ in
        pivot_asked (λ d. (of d).named) (λ d. (of d).answers) result ≡ pivot_view call }
{
    let agg = match call.agg {
        Some(agg) => Some(pivot_agg(agg)),
        None => None,
    };
    PivotArgs {
        on: call.on,
        index: call.index,
        values: call.values,
        sort_columns: call.sort_columns,
        agg,
        separator: call.separator,
    }
}

/// The pivot as a plan takes it.
pub(crate) fn args_of_pivot(pivot: Option<PivotCall>) -> Option<PivotArgs>
    ensures { let of = ⟦<dyn PhysicalAggExpr as PhysicalAggExpr>⟧ in
        option_map (pivot_asked (λ d. (of d).named) (λ d. (of d).answers)) result
        ≡ option_map pivot_view pivot }
{
    match pivot {
        Some(call) => Some(pivot_args(call)),
        None => None,
    }
}
