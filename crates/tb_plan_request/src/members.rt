//! The members of a request, before the values of its tables are read.
ghost use Rattle.std.specs.Prelude.{◌≡◌, codes, map, option_and_then, option_map, IfOk};
ghost use Rattle.serde_json.specs.Find.{as_str, get};
ghost use Rattle.tb_tree.specs.View.{view};
ghost use Rattle.tb_json.specs.Promise.Lists.{list_of};
ghost use Rattle.tb_node.specs.Seen.{tree_of};
ghost use Rattle.tb_plan_request.specs.Lent.{written_plan, written_table};
ghost use Rattle.tb_plan_request.specs.Promise.Written.{table_in, tree_in, written_of};

use crate::known::{entry_members, plan_members};
use crate::pivots::pivot_of;
use crate::trees::tree_of;
use std::alloc::Global;
use tb_calls::PivotCall;
use tb_node::Node;
use tb_request::{
    ExecNumbers, Format, WrittenColumn, exec_of, format_of, has_only, into_array, into_member,
    name_at, table_at, truth_at,
};
use tb_tree::Value;
use tb_value::{OutOfMemory, PlSmallStr};

/// A table under its name, whose values are not read yet.
#[derive(Drop)]
pub(crate) struct WrittenTable {
    pub name: PlSmallStr,
    pub columns: Vec<WrittenColumn>,
}

/// A request of a plan, the values of whose tables are not read yet.
#[derive(Drop)]
pub(crate) struct WrittenPlan {
    pub tables: Vec<WrittenTable>,
    pub root: Node,
    pub pivot: Option<PivotCall>,
    pub push: bool,
    pub exec: ExecNumbers,
}

#[tactic(auto, unfolding(crate::specs::Promise::Written::table_in))]
fn table_in(
    alloc: Global,
    format: Format,
    value: Value,
) -> Result<Option<WrittenTable>, OutOfMemory>
    ensures { IfOk result (λ o. option_map written_table o ≡ table_in format (view value)) }
{
    if !has_only(&value, entry_members()) {
        return Ok(None);
    }
    let Some(name) = name_at(alloc, &value, "name")? else {
        return Ok(None);
    };
    let Some(columns) = table_at(alloc, format, value, "table")? else {
        return Ok(None);
    };
    Ok(Some(WrittenTable { name, columns }))
}

fn tables_in(
    alloc: Global,
    format: Format,
    value: Value,
) -> Result<Option<Vec<WrittenTable>>, OutOfMemory>
    ensures { IfOk result (λ o.
        option_map (λ v. map written_table v.items) o ≡ list_of (table_in format) (view value)) }
{
    let Some(items) = into_array(alloc, value)? else {
        return Ok(None);
    };
    let mut tables = Vec::with_capacity(alloc, items.len())?;
    for item in items {
        let Some(table) = table_in(alloc, format, item)? else {
            return Ok(None);
        };
        tables.push(table)?;
    }
    Ok(Some(tables))
}

fn tables_at(
    alloc: Global,
    format: Format,
    object: Value,
    name: &str,
) -> Result<Option<Vec<WrittenTable>>, OutOfMemory>
    ensures { IfOk result (λ o. option_map (λ v. map written_table v.items) o
        ≡ option_and_then (list_of (table_in format)) (get name.now (view object))) }
{
    match into_member(object, name) {
        Some(member) => tables_in(alloc, format, member),
        None => Ok(None),
    }
}

fn root_of(alloc: Global, request: &Value) -> Result<Option<Node>, OutOfMemory>
    ensures { IfOk result (λ o. option_map tree_of o
        ≡ option_and_then tree_in (get (codes "root") (view request.now))) }
{
    match request.get("root") {
        Some(member) => tree_of(alloc, member),
        None => Ok(None),
    }
}

/// The members of a request of a plan, or None where the value has not the form of one.
#[tactic(auto, unfolding(crate::specs::Promise::Written::written_of))]
pub(crate) fn written_of(alloc: Global, value: Value) -> Result<Option<WrittenPlan>, OutOfMemory>
    ensures { IfOk result (λ o. option_map written_plan o ≡ written_of (view value)) }
{
    if !has_only(&value, plan_members()) {
        return Ok(None);
    }
    let Some(format) = format_of(&value) else {
        return Ok(None);
    };
    let (Some(exec), Some(push)) = (exec_of(&value), truth_at(&value, "push")) else {
        return Ok(None);
    };
    let Some(pivot) = pivot_of(alloc, &value)? else {
        return Ok(None);
    };
    let Some(root) = root_of(alloc, &value)? else {
        return Ok(None);
    };
    let Some(tables) = tables_at(alloc, format, value, "tables")? else {
        return Ok(None);
    };
    Ok(Some(WrittenPlan {
        tables,
        root,
        pivot,
        push,
        exec,
    }))
}
