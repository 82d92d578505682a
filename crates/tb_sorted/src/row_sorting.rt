//! Keys with their rows, sorted by key, and the rows that pairs of places stand for.
ghost use Rattle.std.specs.Prelude.{◌≡◌, ◌<◌, ◌≤◌, ℕ, ℤ, All, IfOk, length, map};
ghost use Rattle.tb_chunk.specs.Rows.{IsRowOf};
ghost use Rattle.tb_merge.specs.Keys.{key_at};
ghost use Rattle.tb_sorted.specs.SortedRows.{AreSortedRows, numbered_keys, place_on, placed, row_or_none, with_rows};

use crate::cells::WholeCell;
use crate::key_lists::NumberList;
use std::alloc::Global;
use tb_value::{IdxSize, JoinPair, MAX_ROWS, NullableIdxSize, OutOfMemory, Side};

// A key of the list, with its row.
fn key_with_row<N: WholeCell, K: NumberList<N>>(list: &K, row: usize) -> (N, IdxSize)
    requires row { row < length (K.keys list.now) }
    requires few { length (K.keys list.now) ≤ MAX_ROWS }
    ensures number { N.number result.0 ≡ key_at (K.keys list.now) row }
    ensures row { result.1 ≡ row }
{
    (list.key(row), row as IdxSize)
}

// The keys of the list, each with its row.
fn keys_with_rows<N: WholeCell, K: NumberList<N>>(
    alloc: Global,
    list: &K,
) -> Result<Vec<(N, IdxSize)>, OutOfMemory>
    requires { length (K.keys list.now) ≤ MAX_ROWS }
    ensures rows { IfOk result (λ v. numbered_keys N.number v.items ≡ with_rows (K.keys list.now)) }
{
    let len = list.len();
    let mut rows = Vec::with_capacity(alloc, len)?;
    for row in 0..len {
        rows.push(key_with_row(list, row))?;
    }
    Ok(rows)
}

/// The keys of the list with their rows, sorted by key; the rows of one key stay in their order.
pub(crate) fn sorted_rows<N: WholeCell, K: NumberList<N>>(
    alloc: Global,
    list: &K,
) -> Result<Vec<(N, IdxSize)>, OutOfMemory>
    requires { length (K.keys list.now) ≤ MAX_ROWS }
    ensures { IfOk result (λ v. AreSortedRows (K.keys list.now) (numbered_keys N.number v.items)) }
{
    let mut rows = keys_with_rows(alloc, list)?;
    rows.sort_by_key(|row| row.0)?;
    Ok(rows)
}

// The row that stands at the place.
fn row_at<N: WholeCell>(rows: &[(N, IdxSize)], place: NullableIdxSize) -> NullableIdxSize
    requires place { IsRowOf (length rows.now) place }
    requires rows { All (λ (p : ℤ × ℕ). p.1 < MAX_ROWS) (numbered_keys N.number rows.now) }
    ensures { result ≡ row_or_none (numbered_keys N.number rows.now) place }
{
    match place.row() {
        None => NullableIdxSize::null(),
        Some(row) => NullableIdxSize::some(rows[row as usize].1),
    }
}

// The pair whose place on the side is the row that stands there.
fn placed<N: WholeCell>(side: Side, rows: &[(N, IdxSize)], pair: JoinPair) -> JoinPair
    requires place { IsRowOf (length rows.now) (place_on side pair) }
    requires rows { All (λ (p : ℤ × ℕ). p.1 < MAX_ROWS) (numbered_keys N.number rows.now) }
    ensures { result ≡ placed side (numbered_keys N.number rows.now) pair }
{
    let JoinPair { left, right } = pair;
    match side {
        Side::Left => JoinPair {
            left: row_at(rows, left),
            right,
        },
        Side::Right => JoinPair {
            left,
            right: row_at(rows, right),
        },
    }
}

/// The pairs whose places on the side are the rows that stand there.
pub(crate) fn placed_pairs<N: WholeCell>(
    side: Side,
    mut pairs: Vec<JoinPair>,
    rows: &[(N, IdxSize)],
) -> Vec<JoinPair>
    requires places { All (λ p. IsRowOf (length rows.now) (place_on side p)) pairs.items }
    requires rows { All (λ (p : ℤ × ℕ). p.1 < MAX_ROWS) (numbered_keys N.number rows.now) }
    ensures { result.items ≡ map (placed side (numbered_keys N.number rows.now)) pairs.items }
{
    for pair in pairs.iter_mut() {
        *pair = placed(side, rows, *pair);
    }
    pairs
}
