//! Keys by the type that they are stored as.
ghost use Rattle.std.specs.Prelude.{◌≡◌, true, false, length, map};
ghost use Rattle.tb_value.specs.Promise.Typed.{is_whole_physical};
ghost use Rattle.tb_chunk.specs.Promise.Col.{concatenation};
ghost use Rattle.tb_chunk.specs.Seen.{chunk_lists, storage};
ghost use Rattle.tb_sorted.specs.Columns.{AreMergeKeys, MayMerge, cell_lists};
ghost use Rattle.tb_sorted.specs.Listed.{AreValuesMerged};
ghost use Rattle.tb_sorted.specs.Path.{order_after};

use crate::cells::WholeCell;
use crate::key_lists::LentValues;
use crate::merging::merged_lists;
use crate::one_sorted::{left_sorted_lists, right_sorted_lists};
use crate::path::SortedFirst;
use std::alloc::Global;
use tb_merge::Merged;
use tb_pool::Exec;
use tb_store::{Cells, Chunks};
use tb_value::{JoinPair, PolarsResult};

// The pairs of two lists of values.
fn merged_values<N: WholeCell>(
    alloc: Global,
    first: SortedFirst,
    keep_unmatched: bool,
    left: &LentValues<'_, N>,
    right: &LentValues<'_, N>,
    exec: &Exec,
) -> PolarsResult<(Vec<JoinPair>, Merged)>
    requires may { MayMerge first keep_unmatched (map N.shows left.now.values.now)
        (map N.shows right.now.values.now) }
    ensures { AreValuesMerged (order_after first) keep_unmatched (map N.shows left.now.values.now)
        (map N.shows right.now.values.now) result }
{
    match first {
        SortedFirst::Neither => merged_lists(alloc, keep_unmatched, left, right, exec),
        SortedFirst::Right => right_sorted_lists(alloc, keep_unmatched, left, right, exec),
        SortedFirst::Left => left_sorted_lists(alloc, left, right, exec),
    }
}

// The values of the one chunk, none of which is Null.
fn lone_values<N: WholeCell>(chunks: &[Cells<N>]) -> LentValues<'_, N>
    requires one { length (cell_lists N.shows chunks.now) ≡ 1 }
    requires keys { AreMergeKeys (concatenation (cell_lists N.shows chunks.now)) }
    ensures { map N.shows result.values.now ≡ concatenation (cell_lists N.shows chunks.now) }
{
    match chunks[0].as_values() {
        Some(values) => LentValues { values },
        None => unreachable!(),
    }
}

// The pairs of two sides, each of one chunk of cells of one type.
fn pairs_of_cells<N: WholeCell>(
    alloc: Global,
    first: SortedFirst,
    keep_unmatched: bool,
    left: &[Cells<N>],
    right: &[Cells<N>],
    exec: &Exec,
) -> PolarsResult<(Vec<JoinPair>, Merged)>
    requires left_one { length (cell_lists N.shows left.now) ≡ 1 }
    requires right_one { length (cell_lists N.shows right.now) ≡ 1 }
    requires may { MayMerge first keep_unmatched (concatenation (cell_lists N.shows left.now))
        (concatenation (cell_lists N.shows right.now)) }
    ensures { AreValuesMerged (order_after first) keep_unmatched
        (concatenation (cell_lists N.shows left.now)) (concatenation (cell_lists N.shows right.now))
        result }
{
    let left = lone_values(left);
    let right = lone_values(right);
    merged_values(alloc, first, keep_unmatched, &left, &right, exec)
}

/// The pairs of a Left join, or of an Inner one, of two chunks of whole numbers, of which one may be sorted first.
pub(crate) fn pairs_of_chunks(
    alloc: Global,
    first: SortedFirst,
    keep_unmatched: bool,
    left: &Chunks,
    right: &Chunks,
    exec: &Exec,
) -> PolarsResult<(Vec<JoinPair>, Merged)>
    requires whole { is_whole_physical (storage left.now) ≡ true }
    requires same { storage left.now ≡ storage right.now }
    requires left_one { length (chunk_lists left.now) ≡ 1 }
    requires right_one { length (chunk_lists right.now) ≡ 1 }
    requires may { MayMerge first keep_unmatched (concatenation (chunk_lists left.now))
        (concatenation (chunk_lists right.now)) }
    ensures { AreValuesMerged (order_after first) keep_unmatched
        (concatenation (chunk_lists left.now)) (concatenation (chunk_lists right.now)) result }
{
    match (left, right) {
        (Chunks::Int8Type(l), Chunks::Int8Type(r)) => {
            pairs_of_cells(alloc, first, keep_unmatched, l, r, exec)
        }
        (Chunks::Int16Type(l), Chunks::Int16Type(r)) => {
            pairs_of_cells(alloc, first, keep_unmatched, l, r, exec)
        }
        (Chunks::Int32Type(l), Chunks::Int32Type(r)) => {
            pairs_of_cells(alloc, first, keep_unmatched, l, r, exec)
        }
        (Chunks::Int64Type(l), Chunks::Int64Type(r)) => {
            pairs_of_cells(alloc, first, keep_unmatched, l, r, exec)
        }
        (Chunks::Int128Type(l), Chunks::Int128Type(r)) => {
            pairs_of_cells(alloc, first, keep_unmatched, l, r, exec)
        }
        (Chunks::UInt8Type(l), Chunks::UInt8Type(r)) => {
            pairs_of_cells(alloc, first, keep_unmatched, l, r, exec)
        }
        (Chunks::UInt16Type(l), Chunks::UInt16Type(r)) => {
            pairs_of_cells(alloc, first, keep_unmatched, l, r, exec)
        }
        (Chunks::UInt32Type(l), Chunks::UInt32Type(r)) => {
            pairs_of_cells(alloc, first, keep_unmatched, l, r, exec)
        }
        (Chunks::UInt64Type(l), Chunks::UInt64Type(r)) => {
            pairs_of_cells(alloc, first, keep_unmatched, l, r, exec)
        }
        _ => unreachable!(),
    }
}
