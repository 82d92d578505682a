//! The members of a request with one table, before its values are read.
ghost use Rattle.std.specs.Prelude.{◌≡◌, option_map, IfOk};
ghost use Rattle.tb_tree.specs.View.{view};
ghost use Rattle.tb_request.specs.Promise.Written.{agg_named, agg_of, dummies_of, pivot_of, unpivot_of};
ghost use Rattle.tb_request.specs.Lent.{written_dummies, written_pivot, written_unpivot};

use crate::known::{dummies_members, pivot_members, unpivot_members};
use crate::members::{has_only, text_at, texts_at, texts_if_at, truth_at};
use crate::shape::{WrittenColumn, format_of, table_at};
use std::alloc::Global;
use tb_agg::Aggregate;
use tb_tree::Value;
use tb_value::{OutOfMemory, PlSmallStr};

// A request to make a table long, whose values are not read yet.
#[derive(Drop)]
pub(crate) struct WrittenUnpivot {
    pub table: Vec<WrittenColumn>,
    pub on: Vec<PlSmallStr>,
    pub index: Vec<PlSmallStr>,
    pub variable_name: Option<PlSmallStr>,
    pub value_name: Option<PlSmallStr>,
}

/// The members of a request to make a table long, or None where the value has not the form of one.
#[tactic(auto, unfolding(crate::specs::Promise::Written::unpivot_of))]
pub(crate) fn unpivot_of(alloc: Global, value: Value) -> Result<Option<WrittenUnpivot>, OutOfMemory>
    ensures { IfOk result (λ o. option_map written_unpivot o ≡ unpivot_of (view value)) }
{
    if !has_only(&value, unpivot_members()) {
        return Ok(None);
    }
    let on = texts_at(alloc, &value, "on")?;
    let index = texts_at(alloc, &value, "index")?;
    let variable_name = text_at(alloc, &value, "variable_name")?;
    let value_name = text_at(alloc, &value, "value_name")?;
    let Some(format) = format_of(&value) else {
        return Ok(None);
    };
    let table = table_at(alloc, format, value, "table")?;
    let (Some(table), Some(on), Some(index)) = (table, on, index) else {
        return Ok(None);
    };
    let (Some(variable_name), Some(value_name)) = (variable_name, value_name) else {
        return Ok(None);
    };
    Ok(Some(WrittenUnpivot {
        table,
        on,
        index,
        variable_name,
        value_name,
    }))
}

// A request for dummies, whose values are not read yet.
#[derive(Drop)]
pub(crate) struct WrittenDummies {
    pub table: Vec<WrittenColumn>,
    pub columns: Option<Vec<PlSmallStr>>,
    pub separator: Option<PlSmallStr>,
    pub drop_first: bool,
}

/// The members of a request for dummies, or None where the value has not the form of one.
#[tactic(auto, unfolding(crate::specs::Promise::Written::dummies_of))]
pub(crate) fn dummies_of(alloc: Global, value: Value) -> Result<Option<WrittenDummies>, OutOfMemory>
    ensures { IfOk result (λ o. option_map written_dummies o ≡ dummies_of (view value)) }
{
    if !has_only(&value, dummies_members()) {
        return Ok(None);
    }
    let columns = texts_if_at(alloc, &value, "columns")?;
    let separator = text_at(alloc, &value, "separator")?;
    let drop_first = truth_at(&value, "drop_first");
    let Some(format) = format_of(&value) else {
        return Ok(None);
    };
    let table = table_at(alloc, format, value, "table")?;
    let (Some(table), Some(columns), Some(separator), Some(drop_first)) = (
        table, columns, separator, drop_first,
    ) else {
        return Ok(None);
    };
    Ok(Some(WrittenDummies {
        table,
        columns,
        separator,
        drop_first,
    }))
}

// A request to make a table wide, whose values are not read yet.
#[derive(Drop)]
pub(crate) struct WrittenPivot {
    pub table: Vec<WrittenColumn>,
    pub on: Vec<PlSmallStr>,
    pub index: Option<Vec<PlSmallStr>>,
    pub values: Option<Vec<PlSmallStr>>,
    pub sort_columns: bool,
    pub agg: Option<Aggregate>,
    pub separator: Option<PlSmallStr>,
}

/// The aggregate that a word names.
pub fn agg_named(text: &str) -> Option<Aggregate>
    ensures { result ≡ agg_named text.now }
{
    match text {
        "first" => Some(Aggregate::First),
        "sum" => Some(Aggregate::Sum),
        "min" => Some(Aggregate::Min),
        "max" => Some(Aggregate::Max),
        "count" => Some(Aggregate::Count),
        "last" => Some(Aggregate::Last),
        _ => None,
    }
}

/// The aggregate that the member `agg` names, or no aggregate where it is absent; None where it names none.
pub fn agg_of(object: &Value) -> Option<Option<Aggregate>>
    ensures { result ≡ agg_of (view object.now) }
{
    match object.get("agg") {
        Some(member) => Some(Some(agg_named(member.as_str()?)?)),
        None => Some(None),
    }
}

/// The members of a request to make a table wide, or None where the value has not the form of one.
#[tactic(auto, unfolding(crate::specs::Promise::Written::pivot_of))]
pub(crate) fn pivot_of(alloc: Global, value: Value) -> Result<Option<WrittenPivot>, OutOfMemory>
    ensures { IfOk result (λ o. option_map written_pivot o ≡ pivot_of (view value)) }
{
    if !has_only(&value, pivot_members()) {
        return Ok(None);
    }
    let on = texts_at(alloc, &value, "on")?;
    let index = texts_if_at(alloc, &value, "index")?;
    let values = texts_if_at(alloc, &value, "values")?;
    let sort_columns = truth_at(&value, "sort_columns");
    let agg = agg_of(&value);
    let separator = text_at(alloc, &value, "separator")?;
    let Some(format) = format_of(&value) else {
        return Ok(None);
    };
    let table = table_at(alloc, format, value, "table")?;
    let Some(table) = table else {
        return Ok(None);
    };
    let Some(on) = on else {
        return Ok(None);
    };
    let Some(index) = index else {
        return Ok(None);
    };
    let Some(values) = values else {
        return Ok(None);
    };
    let (Some(sort_columns), Some(agg), Some(separator)) = (sort_columns, agg, separator) else {
        return Ok(None);
    };
    Ok(Some(WrittenPivot {
        table,
        on,
        index,
        values,
        sort_columns,
        agg,
        separator,
    }))
}
