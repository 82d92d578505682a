//! Rows beside whole numbers by which they are put in order.
ghost use Rattle.std.specs.Prelude.{◌≡◌, ◌≤◌, map, IfOk, IfSome, OnOk};
ghost use Rattle.tb_value.specs.See.{lent_value};
ghost use Rattle.tb_value.specs.declared.limits.TheConstants.{MAX_ROWS};
ghost use Rattle.tb_chunk.specs.Promise.Col.{values};
ghost use Rattle.tb_rows.specs.Order.{value_cmp};
ghost use Rattle.tb_rows.specs.Promise.InOrder.{in_order};
ghost use Rattle.tb_frame.specs.Promise.Table.{table_of};
ghost use Rattle.tb_group_front.specs.Keyed.{key_value, keyed_cmp, AreFirst, AreKeyed};

use crate::row_order::{compare_rows, value_or_null};
use std::alloc::Global;
use std::cmp::Ordering;
use tb_store::Column;
use tb_value::{IdxSize, MAX_ROWS, OutOfMemory, ValueRef};

// A whole number or Null.
#[derive(Clone, Copy)]
pub(crate) enum SortKey {
    Null,
    Whole(i64),
}

/// A row, and its value in the first of the columns by which rows are put in order.
#[derive(Clone, Copy)]
pub(crate) struct KeyedRow {
    pub key: SortKey,
    pub row: IdxSize,
}

// The key that the value is, where it is one.
fn key_of(value: ValueRef<'_>) -> Option<SortKey>
    ensures { IfSome result (λ k. lent_value value.entry ≡ key_value k) }
{
    match value {
        ValueRef::Null => Some(SortKey::Null),
        ValueRef::Int(number) => match i64::try_from(number) {
            Ok(number) => Some(SortKey::Whole(number)),
            Err(_) => None,
        },
        _ => None,
    }
}

// So many rows beside their values in a column, where all of these are keys.
fn rows_beside(
    alloc: Global,
    column: &Column,
    height: usize,
) -> Result<Option<Vec<KeyedRow>>, OutOfMemory>
    requires { height ≤ MAX_ROWS }
    ensures { IfOk result (λ o. IfSome o (λ v. AreFirst height (values column.now) v.items)) }
{
    let mut rows = Vec::with_capacity(alloc, height)?;
    for row in 0..height {
        match key_of(value_or_null(column, row)) {
            Some(key) => rows.push(KeyedRow {
                key,
                row: row as IdxSize,
            })?,
            None => return Ok(None),
        }
    }
    Ok(Some(rows))
}

/// So many rows beside their values in the first column, where all of these are whole numbers of 64 bits or Null.
pub(crate) fn keyed_rows(
    alloc: Global,
    columns: &[Column],
    height: usize,
) -> Result<Option<Vec<KeyedRow>>, OutOfMemory>
    requires { height ≤ MAX_ROWS }
    ensures { IfOk result (λ o. IfSome o (λ v. AreKeyed height (table_of columns.now) v.items)) }
{
    match columns.first() {
        Some(column) => rows_beside(alloc, column, height),
        None => Ok(None),
    }
}

fn compare_keys(first: SortKey, second: SortKey) -> Ordering
    ensures { result ≡ value_cmp (key_value first) (key_value second) }
{
    match (first, second) {
        (SortKey::Null, SortKey::Null) => Ordering::Equal,
        (SortKey::Null, SortKey::Whole(_)) => Ordering::Less,
        (SortKey::Whole(_), SortKey::Null) => Ordering::Greater,
        (SortKey::Whole(a), SortKey::Whole(b)) => a.cmp(&b),
    }
}

// How two rows compare: by their keys, and where these tie by all columns.
fn compare_keyed(columns: &[Column], first: &KeyedRow, second: &KeyedRow) -> Ordering
    ensures { result ≡ keyed_cmp (table_of columns.now) first.now second.now }
{
    let order = compare_keys(first.key, second.key);
    if order.is_ne() {
        return order;
    }
    compare_rows(columns, first.row as usize, second.row as usize)
}

/// Puts rows in the order of their keys, and where these tie of all columns.
pub(crate) fn sort_keyed(columns: &[Column], rows: &mut Vec<KeyedRow>) -> Result<(), OutOfMemory>
    ensures { OnOk result
        (rows.new.items ≡ in_order (keyed_cmp (table_of columns.now)) rows.old.items) }
{
    rows.sort_by(|a, b| compare_keyed(columns, a, b))?;
    Ok(())
}

/// The rows without their keys.
pub(crate) fn numbers_of(alloc: Global, rows: &[KeyedRow]) -> Result<Vec<IdxSize>, OutOfMemory>
    ensures { IfOk result (λ v. v.items ≡ map (λ k. k.row) rows.now) }
{
    let mut numbers = Vec::with_capacity(alloc, rows.len())?;
    for keyed in rows {
        numbers.push(keyed.row)?;
    }
    Ok(numbers)
}
