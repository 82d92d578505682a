//! The right rows that match each left row, found by their keys.
ghost use Rattle.std.specs.Prelude.{◌≡◌, ◌<◌, length, map, slice_index_or, IfOk, None};
ghost use Rattle.tb_value.specs.Promise.Pairs.{row_numbers};
ghost use Rattle.tb_alone.specs.Tables.{rows_for};

use crate::table::KeyTable;
use std::alloc::Global;
use tb_build::{KeyCode, KeyList};
use tb_value::{IdxSize, OutOfMemory};

// The rows of the table at the key of a row. No key has none.
fn rows_at<'a, K: KeyCode, L: KeyList<K>>(
    table: &'a KeyTable<K>,
    list: &L,
    row: usize,
) -> &'a [IdxSize]
    requires { row < length (L.list list.now) }
    ensures { result.now ≡ rows_for K.eq table.now (slice_index_or (L.list list.now) row None) }
{
    match list.key(row) {
        Some(key) => table.rows(&key),
        None => &[],
    }
}

/// The rows of the table at the key of each row of a list.
pub(crate) fn rows_at_each<'a, K: KeyCode, L: KeyList<K>>(
    alloc: Global,
    table: &'a KeyTable<K>,
    list: &L,
) -> Result<Vec<&'a [IdxSize]>, OutOfMemory>
    ensures { IfOk result (λ v. map (λ r. r.now) v.items
        ≡ map (λ row. rows_for K.eq table.now (slice_index_or (L.list list.now) row None))
        (row_numbers (length (L.list list.now)))) }
{
    let len = list.len();
    let mut found = Vec::with_capacity(alloc, len)?;
    for row in 0..len {
        found.push(rows_at(table, list, row))?;
    }
    Ok(found)
}
