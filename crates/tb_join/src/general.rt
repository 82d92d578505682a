//! The columns of an answer.
ghost use Rattle.std.specs.Prelude.{◌≡◌, ◌<◌, ◌≤◌, ◌⊎◌, ◌++◌, [], All, IfOk, None, false, length, map, true};
ghost use Rattle.tb_value.specs.Refusals.{Settles};
ghost use Rattle.tb_chunk.specs.Rows.{IsRowOf};
ghost use Rattle.tb_frame.specs.Answer.{ArePairsOf, IsPairOf, fill};
ghost use Rattle.tb_frame.specs.Promise.Join.{listing, out};
ghost use Rattle.tb_frame.specs.Promise.Naming.{coalesces, coalesces_keys};
ghost use Rattle.tb_frame.specs.Promise.Refusal.{repeated_name};
ghost use Rattle.tb_frame.specs.Promise.Table.{height, table_of};
ghost use Rattle.tb_gather.specs.Ids.{AreAllRowsInOrder};
ghost use Rattle.tb_keys.specs.Asked.{asked_request};
ghost use Rattle.tb_keys.specs.Promise.Answers.{IsJoinUnless};
ghost use Rattle.tb_join.specs.AnswerColumns.{answer_columns, right_part, side_by_side};
ghost use Rattle.tb_join.specs.Ready.{CanCoalesceKeys};
ghost use Rattle.tb_join.specs.RowOrder.{AscendAsAsked, right_order_asked};

use crate::coalescing::coalesced_columns;
use crate::kept::side_rows;
use crate::names::side_by_side;
use crate::row_order::{left_order, right_order};
use std::alloc::Global;
use std::thread::Threads;
use tb_frame::{DataFrame, gone_left, gone_right, has_right, suffix_of};
use tb_gather::{LeftRow, RightRow};
use tb_keys::LentRequest;
use tb_store::Column;
use tb_value::{JoinPair, MAX_ROWS, OutOfMemory, PolarsResult};

// The right columns over the pairs, but for those that go.
fn right_columns(
    rt: &(impl Threads + Sync),
    alloc: Global,
    request: &LentRequest<'_>,
    pairs: &[JoinPair],
) -> Result<Vec<Column>, OutOfMemory>
    requires pairs { All (λ p. IsRowOf (height (table_of request.now.right.now)) p.right)
        pairs.now }
    requires in_order { AreAllRowsInOrder (right_order_asked (asked_request request.now).args)
        (map (λ p. p.right) pairs.now) }
    requires few { length pairs.now ≤ MAX_ROWS }
    ensures { IfOk result (λ v.
        v.items
        ≡ right_part (asked_request request.now).args request.now.right_on.now pairs.now
        request.now.right.now) }
{
    if !has_right(request.how) {
        return Ok(Vec::new(alloc));
    }
    let gone = gone_right(request.how, request.args, request.right_on);
    let sorted = right_order(request.how, request.args);
    side_rows::<RightRow>(rt, alloc, request.right, gone, pairs, sorted)
}

// The left columns over the pairs, and then the right ones, of which none are coalesced.
fn plain_columns(
    rt: &(impl Threads + Sync),
    alloc: Global,
    request: &LentRequest<'_>,
    pairs: &[JoinPair],
) -> Result<Vec<Column>, OutOfMemory>
    requires pairs { All
        (IsPairOf (height (table_of request.now.left.now))
        (height (table_of request.now.right.now)))
        pairs.now }
    requires in_order { AscendAsAsked (asked_request request.now).args pairs.now }
    requires few { length pairs.now ≤ MAX_ROWS }
    ensures { IfOk result (λ v. v.items ≡ answer_columns
        (asked_request request.now).args request.now.left_on.now request.now.right_on.now pairs.now request.now.left.now request.now.right.now) }
{
    let gone = gone_left(request.how, request.args, request.left_on);
    let sorted = left_order(request.how, request.args);
    let left = side_rows::<LeftRow>(rt, alloc, request.left, gone, pairs, sorted)?;
    let right = right_columns(rt, alloc, request, pairs)?;
    side_by_side(alloc, left, right, suffix_of(request.args))
}

// The columns of the answer over the pairs. Only memory may be wanting.
fn answer_columns(
    rt: &(impl Threads + Sync),
    alloc: Global,
    request: &LentRequest<'_>,
    pairs: &[JoinPair],
) -> PolarsResult<Vec<Column>>
    requires pairs { All
        (IsPairOf (height (table_of request.now.left.now))
        (height (table_of request.now.right.now)))
        pairs.now }
    requires in_order { AscendAsAsked (asked_request request.now).args pairs.now }
    requires few { length pairs.now ≤ MAX_ROWS }
    requires coalescing { CanCoalesceKeys (asked_request request.now) }
    ensures settles { Settles result None }
    ensures columns { IfOk result (λ v.
        table_of v.items ≡ map (fill pairs.now) (out (asked_request request.now))) }
{
    if request.coalesces_keys() {
        coalesced_columns(rt, alloc, request, pairs)
    } else {
        Ok(plain_columns(rt, alloc, request, pairs)?)
    }
}

/// The table of the columns over the pairs of a request. Only memory may be wanting.
pub fn finish_join(
    rt: &(impl Threads + Sync),
    alloc: Global,
    request: &LentRequest<'_>,
    pairs: &[JoinPair],
) -> PolarsResult<DataFrame>
    requires named { repeated_name (asked_request request.now) ≡ None }
    requires few { length (listing (asked_request request.now)) ≤ MAX_ROWS }
    requires coalescing { CanCoalesceKeys (asked_request request.now) }
    requires some { (0 < length (out (asked_request request.now))) ⊎ (pairs.now ≡ []) }
    requires listed { ArePairsOf (asked_request request.now) pairs.now }
    ensures { IsJoinUnless None (asked_request request.now) result }
{
    let columns = answer_columns(rt, alloc, request, pairs)?;
    DataFrame::new(alloc, columns)
}
