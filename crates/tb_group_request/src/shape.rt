//! The members of a request, before its values are read.
ghost use Rattle.std.specs.Prelude.{◌≡◌, codes, option_and_then, option_map, IfOk};
ghost use Rattle.serde_json.specs.Find.{get};
ghost use Rattle.tb_tree.specs.View.{item_view, view};
ghost use Rattle.tb_json.specs.Promise.Lists.{list_of};
ghost use Rattle.tb_request.specs.Promise.Written.{agg_named, name_at};
ghost use Rattle.tb_group_request.specs.Lent.{written_group};
ghost use Rattle.tb_group_request.specs.Promise.Written.{agg_in, group_of};

use crate::known::{agg_members, group_members};
use std::alloc::Global;
use tb_group::{GroupAgg, GroupKind};
use tb_request::{
    ExecNumbers, WrittenColumn, agg_named, exec_of, format_of, has_only, name_at, table_at,
    texts_at, truth_at,
};
use tb_tree::{Item, Value};
use tb_value::{OutOfMemory, PlSmallStr};

/// A request, whose values are not read yet.
#[derive(Drop)]
pub(crate) struct WrittenGroup {
    pub table: Vec<WrittenColumn>,
    pub by: Vec<PlSmallStr>,
    pub aggs: Vec<GroupAgg>,
    pub exec: ExecNumbers,
    pub trace: bool,
}

fn aggregate_of(agg: &Value) -> Option<GroupKind>
    ensures { result ≡ option_and_then agg_named (name_at (codes "agg") (view agg.now)) }
{
    agg_named(agg.get("agg")?.as_str()?)
}

// A column that is made: what is made, of which column, and how it is called.
#[tactic(auto, unfolding(crate::specs::Promise::Written::agg_in))]
fn agg_in(alloc: Global, value: &Value) -> Result<Option<GroupAgg>, OutOfMemory>
    ensures { IfOk result (λ o. o ≡ agg_in (view value.now)) }
{
    if !has_only(value, agg_members()) {
        return Ok(None);
    }
    let Some(agg) = aggregate_of(value) else {
        return Ok(None);
    };
    let Some(column) = name_at(alloc, value, "column")? else {
        return Ok(None);
    };
    let Some(name) = name_at(alloc, value, "name")? else {
        return Ok(None);
    };
    Ok(Some(GroupAgg { column, agg, name }))
}

#[tactic(auto, unfolding(crate::specs::Promise::Written::agg_in))]
fn agg_of(alloc: Global, item: Item<'_>) -> Result<Option<GroupAgg>, OutOfMemory>
    ensures { IfOk result (λ o. o ≡ agg_in (item_view item.entry)) }
{
    match item {
        Item::Whole(_) => Ok(None),
        Item::Lent(value) => agg_in(alloc, value),
    }
}

fn aggs_in(alloc: Global, value: &Value) -> Result<Option<Vec<GroupAgg>>, OutOfMemory>
    ensures { IfOk result (λ o. option_map (λ v. v.items) o ≡ list_of agg_in (view value.now)) }
{
    let Some(items) = value.as_array() else {
        return Ok(None);
    };
    let len = items.len();
    let mut aggs = Vec::with_capacity(alloc, len)?;
    for place in 0..len {
        let Some(agg) = agg_of(alloc, items.at(place))? else {
            return Ok(None);
        };
        aggs.push(agg)?;
    }
    Ok(Some(aggs))
}

fn aggs_at(alloc: Global, object: &Value, name: &str) -> Result<Option<Vec<GroupAgg>>, OutOfMemory>
    ensures { IfOk result (λ o. option_map (λ v. v.items) o
        ≡ option_and_then (list_of agg_in) (get name.now (view object.now))) }
{
    match object.get(name) {
        Some(member) => aggs_in(alloc, member),
        None => Ok(None),
    }
}

/// The members of a request, or None where the value has not the form of one.
#[tactic(auto, unfolding(crate::specs::Promise::Written::group_of))]
pub(crate) fn group_of(alloc: Global, value: Value) -> Result<Option<WrittenGroup>, OutOfMemory>
    ensures { IfOk result (λ o. option_map written_group o ≡ group_of (view value)) }
{
    if !has_only(&value, group_members()) {
        return Ok(None);
    }
    let (Some(format), Some(exec), Some(trace)) = (
        format_of(&value),
        exec_of(&value),
        truth_at(&value, "trace"),
    ) else {
        return Ok(None);
    };
    let Some(by) = texts_at(alloc, &value, "by")? else {
        return Ok(None);
    };
    let Some(aggs) = aggs_at(alloc, &value, "aggs")? else {
        return Ok(None);
    };
    let Some(table) = table_at(alloc, format, value, "table")? else {
        return Ok(None);
    };
    Ok(Some(WrittenGroup {
        table,
        by,
        aggs,
        exec,
        trace,
    }))
}
