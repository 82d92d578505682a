//! Pairs put behind others: those of one left row.
ghost use Rattle.std.specs.Prelude.{◌≡◌, ◌+◌, ◌-◌, ◌<◌, ◌≤◌, ◌++◌, ◌∷◌, [], length, map, IfOk, OnOk};
ghost use Rattle.std.specs.List.{range_with_len};
ghost use Rattle.tb_value.specs.Promise.Pairs.{both};
ghost use Rattle.tb_merge.specs.Faults.{SettlesCount};
ghost use Rattle.tb_merge.specs.RowPairs.{row_pairs};

use crate::fault::MergeFault;
use std::alloc::Global;
use tb_value::{IdxSize, JoinPair, MAX_ROWS, OutOfMemory};

/// An empty list, with room for a pair of each left row where unmatched rows are kept.
pub fn list_for(
    alloc: Global,
    keep_unmatched: bool,
    left_len: usize,
) -> Result<Vec<JoinPair>, OutOfMemory>
    ensures { IfOk result (λ v. v.items ≡ []) }
{
    if keep_unmatched {
        Ok(Vec::with_capacity(alloc, left_len)?)
    } else {
        Ok(Vec::new(alloc))
    }
}

// Puts a pair behind the others.
fn append_pair(pairs: &mut Vec<JoinPair>, pair: JoinPair) -> Result<(), OutOfMemory>
    ensures { OnOk result (pairs.new.items ≡ pairs.old.items ++ pair ∷ []) }
{
    pairs.push(pair)?;
    Ok(())
}

// Puts a pair behind the others, where there is room.
fn push_pair(pairs: &mut Vec<JoinPair>, pair: JoinPair) -> Result<(), MergeFault>
    requires room { length pairs.old.items ≤ MAX_ROWS }
    ensures settles { SettlesCount result (length pairs.old.items + 1) }
    ensures pairs { OnOk result (pairs.new.items ≡ pairs.old.items ++ pair ∷ []) }
{
    if pairs.len() >= MAX_ROWS {
        return Err(MergeFault::TooManyRows);
    }
    append_pair(pairs, pair)?;
    Ok(())
}

// Puts a left row beside each right row from `start` to before `end` behind the others. The limit is looked at once for
// all of them.
fn push_matched(
    pairs: &mut Vec<JoinPair>,
    left: IdxSize,
    start: usize,
    end: usize,
) -> Result<(), MergeFault>
    requires left { left < u32.MAX }
    requires ordered { start ≤ end }
    requires within { end ≤ MAX_ROWS }
    requires room { length pairs.old.items ≤ MAX_ROWS }
    ensures settles { SettlesCount result (length pairs.old.items + (end - start)) }
    ensures pairs { OnOk result
        (pairs.new.items
        ≡ pairs.old.items ++ map (both left) (range_with_len start (end - start))) }
{
    if end - start > MAX_ROWS - pairs.len() {
        return Err(MergeFault::TooManyRows);
    }
    for right in start..end {
        append_pair(pairs, JoinPair::both(left, right as IdxSize))?;
    }
    Ok(())
}

/// Puts the pairs of a left row behind the others: beside each right row from `start` to before `end`. A row without a
/// right row stands alone where unmatched rows are kept.
pub fn push_row(
    pairs: &mut Vec<JoinPair>,
    keep_unmatched: bool,
    left: IdxSize,
    start: usize,
    end: usize,
) -> Result<(), MergeFault>
    requires left { left < u32.MAX }
    requires ordered { start ≤ end }
    requires within { end ≤ MAX_ROWS }
    requires room { length pairs.old.items ≤ MAX_ROWS }
    ensures settles { SettlesCount result
        (length pairs.old.items + length
        (row_pairs keep_unmatched left (range_with_len start (end - start)))) }
    ensures pairs { OnOk result
        (pairs.new.items
        ≡ pairs.old.items
        ++ row_pairs keep_unmatched left (range_with_len start (end - start))) }
{
    if start < end {
        return push_matched(pairs, left, start, end);
    }
    if keep_unmatched {
        return push_pair(pairs, JoinPair::left_only(left));
    }
    Ok(())
}
