//! The rows of each part.
ghost use Rattle.std.specs.Prelude.{◌≡◌, ◌<◌, ◌≤◌, None, IfOk, length, map, slice_index_or};
ghost use Rattle.std.specs.List.{All};
ghost use Rattle.tb_value.specs.Promise.Pairs.{row_numbers};
ghost use Rattle.tb_chunk.specs.Lent.{lent_columns};
ghost use Rattle.tb_chunk.specs.Promise.Col.{values};
ghost use Rattle.tb_frame.specs.Promise.Table.{table_of};
ghost use Rattle.tb_rowkey.specs.Promise.Columns.{row_count};
ghost use Rattle.tb_split.specs.Keys.{AreRowsOf, bytes_part};
ghost use Rattle.tb_split.specs.Promise.Split.{rows_by_keys};

use crate::keys::row_keys;
use std::alloc::Global;
use tb_build::{KeyBytes, KeyCode, partition_of};
use tb_numbered::{RowsByNumber, rows_by_number};
use tb_rowkey::RowKeys;
use tb_store::Series;
use tb_value::OutOfMemory;

// The part, of `parts`, into which a row falls. The codes of bytes that differ in the last of them differ little in their
// high bits, by which parts are chosen: so the code is taken as a key, whose code differs there.
fn part_of_row(keys: &RowKeys, row: usize, parts: u32) -> u32
    requires row { row < length keys.now }
    requires some { 1 ≤ parts }
    ensures part { result ≡ bytes_part parts (slice_index_or keys.now row None) }
    ensures below { result < parts }
{
    let code = match keys.get(row) {
        Some(bytes) => KeyBytes { bytes }.code(),
        None => 0,
    };
    partition_of(code.code(), parts)
}

// The part of each row.
fn parts_of_rows(alloc: Global, keys: &RowKeys, parts: u32) -> Result<Vec<u32>, OutOfMemory>
    requires { 1 ≤ parts }
    ensures parts { IfOk result (λ v. v.items ≡ map (bytes_part parts) keys.now) }
    ensures below { IfOk result (λ v. All (λ x. x < parts) v.items) }
{
    let rows = keys.len();
    let mut numbers = Vec::with_capacity(alloc, rows)?;
    for row in 0..rows {
        numbers.push(part_of_row(keys, row, parts))?;
    }
    Ok(numbers)
}

/// The rows of each part, ascending, by these keys.
pub(crate) fn rows_of_parts(
    alloc: Global,
    columns: &[&Series],
    parts: u32,
) -> Result<RowsByNumber, OutOfMemory>
    requires parts { 1 ≤ parts }
    requires some { 0 < length columns.now }
    requires rows { All (λ c. length (values c) ≡ row_count (lent_columns columns.now))
        (lent_columns columns.now) }
    ensures rows { IfOk result (λ g. g ≡ map
        (rows_by_keys (table_of (lent_columns columns.now))
        (row_count (lent_columns columns.now)) parts)
        (row_numbers parts)) }
    ensures each { IfOk result (All (AreRowsOf (row_count (lent_columns columns.now)))) }
{
    let keys = row_keys(alloc, columns)?;
    keys.know_rows();
    let numbers = parts_of_rows(alloc, &keys, parts)?;
    let rows = rows_by_number(alloc, &numbers, parts, 0)?;
    Ok(rows)
}
