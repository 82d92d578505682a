//! Two lists of keys, of which one is sorted first.
ghost use Rattle.std.specs.Prelude.{◌≤◌, false, length, IfOk, IsSorted, IsPermutation};
ghost use Rattle.std.specs.Ordering.{int_cmp};
ghost use Rattle.tb_frame.specs.declared.args.Direction.TheVariants.{ByLeft, Free};
ghost use Rattle.tb_sorted.specs.Listed.{AreKeysMerged};

use crate::cells::WholeCell;
use crate::key_lists::{NumberList, SortedRows};
use crate::merging::merged_lists;
use crate::row_sorting::{placed_pairs, sorted_rows};
use std::alloc::Global;
use tb_merge::Merged;
use tb_pool::Exec;
use tb_value::{JoinPair, MAX_ROWS, PolarsResult, Side};

/// The pairs of a Left join, or of an Inner one, of a left list that ascends and a right one that is sorted first, in the
/// order of the left rows.
pub(crate) fn right_sorted_lists<N: WholeCell, A: NumberList<N>, B: NumberList<N>>(
    alloc: Global,
    keep_unmatched: bool,
    left: &A,
    right: &B,
    exec: &Exec,
) -> PolarsResult<(Vec<JoinPair>, Merged)>
    requires left_sorted { IsSorted int_cmp (A.keys left.now) }
    requires left_few { length (A.keys left.now) ≤ MAX_ROWS }
    requires right_few { length (B.keys right.now) ≤ MAX_ROWS }
    ensures { AreKeysMerged ByLeft keep_unmatched (A.keys left.now) (B.keys right.now) result }
{
    let rows = sorted_rows(alloc, right)?;
    let sorted = SortedRows { rows: &rows };
    let (pairs, merged) = merged_lists(alloc, keep_unmatched, left, &sorted, exec)?;
    Ok((placed_pairs(Side::Right, pairs, sorted.rows), merged))
}

/// The pairs of an Inner join of a left list that is sorted first and a right one that ascends.
pub(crate) fn left_sorted_lists<N: WholeCell, A: NumberList<N>, B: NumberList<N>>(
    alloc: Global,
    left: &A,
    right: &B,
    exec: &Exec,
) -> PolarsResult<(Vec<JoinPair>, Merged)>
    requires right_sorted { IsSorted int_cmp (B.keys right.now) }
    requires left_few { length (A.keys left.now) ≤ MAX_ROWS }
    requires right_few { length (B.keys right.now) ≤ MAX_ROWS }
    ensures { AreKeysMerged Free false (A.keys left.now) (B.keys right.now) result }
{
    let rows = sorted_rows(alloc, left)?;
    let sorted = SortedRows { rows: &rows };
    let (pairs, merged) = merged_lists(alloc, false, &sorted, right, exec)?;
    Ok((placed_pairs(Side::Left, pairs, sorted.rows), merged))
}
