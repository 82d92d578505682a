//! The texts of answers.
ghost use Rattle.std.specs.Prelude.{◌≡◌, false, IfOk, map};
ghost use Rattle.serde_json.specs.View.{items_of, items_view, view};
ghost use Rattle.tb_frame.specs.Promise.Table.{table_of};
ghost use Rattle.tb_json.specs.Promise.Text.{traced_text_of};
ghost use Rattle.tb_group_request.specs.Promise.Texts.{count_data, counts_data, grouped_data, grouped_text};

use crate::grouping::GroupedTable;
use serde_json::{Value, json};
use std::alloc::Global;
use tb_frame::DataFrame;
use tb_group::Grouped;
use tb_json::{into_text, traced_text_of};
use tb_text::Text;
use tb_value::OutOfMemory;

fn count_values(alloc: Global, counts: &[usize]) -> Result<Vec<Value>, OutOfMemory>
    ensures { IfOk result (λ v. items_view v.items ≡ items_of (map count_data counts.now)) }
{
    let mut values = Vec::with_capacity(alloc, counts.len())?;
    for count in counts {
        values.push(Value::from(*count))?;
    }
    Ok(values)
}

/// Counts, as an array of numbers.
pub fn counts_value(alloc: Global, counts: &[usize]) -> Result<Value, OutOfMemory>
    ensures { IfOk result (λ v. view v ≡ counts_data counts.now) }
{
    Ok(Value::Array(count_values(alloc, counts)?))
}

fn parts_value(alloc: Global, parts: &Grouped) -> Result<Value, OutOfMemory>
    ensures { IfOk result (λ v. view v ≡ grouped_data parts.now) }
{
    let groups = counts_value(alloc, parts.groups())?;
    let sizes = counts_value(alloc, parts.sizes())?;
    Ok(json!(in alloc; {
        "groups": groups,
        "parts": parts.parts(),
        "sizes": sizes
    })?)
}

fn text_with_parts(alloc: Global, table: DataFrame, parts: &Grouped) -> Result<Text, OutOfMemory>
    ensures { IfOk result (λ t.
        t ≡ traced_text_of (table_of table) (grouped_data parts.now)) }
{
    let parts = parts_value(alloc, parts)?;
    traced_text_of(alloc, table, &parts)
}

/// The text of the table, which is let go, with the member `trace` behind the others where it was asked into which parts the work fell, and
/// the newline that ends it.
pub fn text_of_grouped(alloc: Global, grouped: GroupedTable) -> Result<Text, OutOfMemory>
    ensures { IfOk result (λ t. t ≡ grouped_text (table_of grouped.table) grouped.trace) }
{
    let GroupedTable { table, trace } = grouped;
    match trace {
        Some(parts) => text_with_parts(alloc, table, &parts),
        None => into_text(alloc, table),
    }
}
