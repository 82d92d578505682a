//! Pairs in the order that is asked.
ghost use Rattle.std.specs.Prelude.{◌≡◌, ◌≤◌, All, IfOk, IsTrue};
ghost use Rattle.tb_frame.specs.Answer.{IsListed, IsPairOf};
ghost use Rattle.tb_frame.specs.Promise.Join.{Ascends};
ghost use Rattle.tb_frame.specs.Promise.Table.{height, table_of};
ghost use Rattle.tb_pairs.specs.Directions.{suffices};

use std::alloc::Global;
use tb_frame::{Direction, arrange, cut_pairs, direction_of};
use tb_keys::LentRequest;
use tb_ordered::{by_left_rows, by_right_rows};
use tb_sorted::DirectedPairs;
use tb_value::{JoinPair, MAX_ROWS, OutOfMemory};

// Fewer pairs are compared in less time than it takes to count.
const WORTH_COUNTING: usize = 4_096;

// Whether pairs that stand in the one order stand in the order that is asked.
fn is_in_order(found: Direction, asked: Direction) -> bool
    ensures { result ≡ suffices found asked }
{
    asked == Direction::Free || asked == found
}

// Whether so many pairs are sorted by counts.
fn is_worth_counting(pairs: usize) -> bool
    ensures few { IsTrue result → pairs ≤ MAX_ROWS }
{
    WORTH_COUNTING <= pairs && pairs <= MAX_ROWS
}

/// The pairs of a request in the order that is asked of it, and of them those that the slice keeps. Pairs that ascend by
/// the rows of the other side are sorted by counts, where they are many, and any others by comparison, where they stand in another order.
pub(crate) fn arranged(
    alloc: Global,
    found: DirectedPairs,
    request: &LentRequest<'_>,
) -> Result<Vec<JoinPair>, OutOfMemory>
    requires ascends { Ascends found.order found.pairs.items }
    requires pairs { All
        (IsPairOf (height (table_of request.now.left.now))
        (height (table_of request.now.right.now)))
        found.pairs.items }
    ensures { IfOk result (λ v.
        IsListed request.now.how request.now.args.now.maintain_order request.now.args.now.slice
        found.pairs.items v.items) }
{
    let args = request.args;
    if is_in_order(found.order, direction_of(request.how, args.maintain_order)) {
        return Ok(cut_pairs(found.pairs, args.slice));
    }
    if !is_worth_counting(found.pairs.len()) {
        return arrange(found.pairs, request.how, args);
    }
    let pairs = match found.order {
        Direction::Free => return arrange(found.pairs, request.how, args),
        Direction::ByLeft => by_right_rows(alloc, found.pairs, request.right.height())?,
        Direction::ByRight => by_left_rows(alloc, found.pairs, request.left.height())?,
    };
    Ok(cut_pairs(pairs, args.slice))
}
