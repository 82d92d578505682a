//! Rows in the order of their values.
ghost use Rattle.std.specs.Prelude.{◌≡◌, ◌≤◌, IfOk, OnOk};
ghost use Rattle.tb_value.specs.declared.limits.TheConstants.{MAX_ROWS};
ghost use Rattle.tb_rows.specs.Promise.InOrder.{in_order};
ghost use Rattle.tb_frame.specs.Promise.Table.{table_of};
ghost use Rattle.tb_group_front.specs.Keyed.{AreKeyed};
ghost use Rattle.tb_group_front.specs.Promise.Sorted.{row_cmp, rows_by, sorted_table};

use crate::keyed::{KeyedRow, keyed_rows, numbers_of, sort_keyed};
use crate::row_order::compare_rows;
use std::alloc::Global;
use tb_frame::DataFrame;
use tb_store::Column;
use tb_value::{IdxSize, MAX_ROWS, OutOfMemory};

// Puts rows in the order of these columns.
fn sort_rows(columns: &[Column], rows: &mut Vec<IdxSize>) -> Result<(), OutOfMemory>
    ensures { OnOk result
        (rows.new.items ≡ in_order (row_cmp (table_of columns.now)) rows.old.items) }
{
    rows.sort_by(|a, b| compare_rows(columns, *a as usize, *b as usize))?;
    Ok(())
}

// So many rows in the order of these columns, whose values are compared.
fn rows_by_values(
    alloc: Global,
    columns: &[Column],
    height: usize,
) -> Result<Vec<IdxSize>, OutOfMemory>
    requires { height ≤ MAX_ROWS }
    ensures { IfOk result (λ v. v.items ≡ rows_by (table_of columns.now) height) }
{
    let mut rows = Vec::with_capacity(alloc, height)?;
    for row in 0..height {
        rows.push(row as IdxSize)?;
    }
    sort_rows(columns, &mut rows)?;
    Ok(rows)
}

// The same, whose first column's values stand beside the rows.
fn rows_by_keys(
    alloc: Global,
    columns: &[Column],
    height: usize,
    mut rows: Vec<KeyedRow>,
) -> Result<Vec<IdxSize>, OutOfMemory>
    requires { AreKeyed height (table_of columns.now) rows.items }
    ensures { IfOk result (λ v. v.items ≡ rows_by (table_of columns.now) height) }
{
    sort_keyed(columns, &mut rows)?;
    numbers_of(alloc, &rows)
}

// The same. Where the values of the first column are whole numbers, these decide, and rows are looked up where they tie.
fn rows_by(alloc: Global, columns: &[Column], height: usize) -> Result<Vec<IdxSize>, OutOfMemory>
    requires { height ≤ MAX_ROWS }
    ensures { IfOk result (λ v. v.items ≡ rows_by (table_of columns.now) height) }
{
    match keyed_rows(alloc, columns, height)? {
        Some(rows) => rows_by_keys(alloc, columns, height, rows),
        None => rows_by_values(alloc, columns, height),
    }
}

/// The table with its rows in the order of so many of its first columns.
pub(crate) fn sorted(
    alloc: Global,
    table: &DataFrame,
    count: usize,
) -> Result<DataFrame, OutOfMemory>
    ensures { IfOk result (λ t. table_of t ≡ sorted_table count (table_of table.now)) }
{
    let columns = table.get_columns();
    let first = &columns[..count.min(columns.len())];
    let rows = rows_by(alloc, first, table.height())?;
    table.take(alloc, &rows)
}
