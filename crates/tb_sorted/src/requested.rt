//! The pairs of a request whose keys are merged.
ghost use Rattle.std.specs.Prelude.{◌≡◌, true, IfOk, IfSome, is_some, map};
ghost use Rattle.tb_value.specs.Pairs.{turn};
ghost use Rattle.tb_value.specs.Promise.Refusals.{first_cause};
ghost use Rattle.tb_value.specs.Refusals.{Settles};
ghost use Rattle.tb_chunk.specs.Promise.Col.{Col, values};
ghost use Rattle.tb_chunk.specs.Lent.{lent_columns};
ghost use Rattle.tb_frame.specs.Promise.Join.{listing};
ghost use Rattle.tb_frame.specs.Promise.Refusal.{row_causes};
ghost use Rattle.tb_keys.specs.Asked.{asked_request};
ghost use Rattle.tb_sorted.specs.Columns.{IsInOneChunk};
ghost use Rattle.tb_sorted.specs.Keys.{kind_of_merge};
ghost use Rattle.tb_sorted.specs.Listed.{AreMergedPairs, AreMergedPairsOf, AreValuesMerged, IsListedIn, IsMergeWithin, merge_refusal, requested_sizes};
ghost use Rattle.tb_sorted.specs.Path.{AreKeysToMerge, order_after, sorted_first, takes_merge_path};

use crate::one_chunk::{joined_key, lone_chunk};
use crate::pairs::{DirectedPairs, MergedPairs};
use crate::path::{order_after, sorted_first, takes_key_path};
use crate::typed::pairs_of_chunks;
use std::alloc::Global;
use tb_frame::{Direction, JoinType};
use tb_keys::LentRequest;
use tb_merge::Merged;
use tb_pool::Exec;
use tb_store::Series;
use tb_value::{JoinPair, PolarsResult};

// The pairs of a Left join, or of an Inner one, of two keys that have the order for a merge.
fn ordered_pairs(
    alloc: Global,
    keep_unmatched: bool,
    left: &Series,
    right: &Series,
    exec: &Exec,
) -> PolarsResult<(Vec<JoinPair>, Merged)>
    requires { AreKeysToMerge (kind_of_merge keep_unmatched) exec.now left.now right.now }
    ensures { AreValuesMerged (order_after (sorted_first left.now right.now)) keep_unmatched
        (values left.now) (values right.now) result }
{
    let _lengths = (left.len(), right.len());
    let left_joined = joined_key(alloc, left)?;
    let right_joined = joined_key(alloc, right)?;
    pairs_of_chunks(
        alloc,
        sorted_first(left, right),
        keep_unmatched,
        lone_chunk(left, &left_joined),
        lone_chunk(right, &right_joined),
        exec,
    )
}

// The same pairs, turned round.
fn turned(mut pairs: Vec<JoinPair>) -> Vec<JoinPair>
    ensures { result.items ≡ map turn pairs.items }
{
    for pair in pairs.iter_mut() {
        *pair = JoinPair {
            left: pair.right,
            right: pair.left,
        };
    }
    pairs
}

// The pairs of a Left join, or of an Inner one, of two keys that are merged.
fn left_way_pairs(
    alloc: Global,
    keep_unmatched: bool,
    left: &Series,
    right: &Series,
    exec: &Exec,
) -> PolarsResult<MergedPairs>
    requires { AreKeysToMerge (kind_of_merge keep_unmatched) exec.now left.now right.now }
    ensures { AreMergedPairsOf (kind_of_merge keep_unmatched) (values left.now) (values right.now)
        result }
{
    let (pairs, merged) = ordered_pairs(alloc, keep_unmatched, left, right, exec)?;
    let order = order_after(sorted_first(left, right));
    let listed = DirectedPairs { pairs, order };
    Ok(MergedPairs { listed, merged })
}

// The pairs of a Right join of two keys that are merged: those of the Left join of the right side, turned round.
fn right_way_pairs(
    alloc: Global,
    left: &Series,
    right: &Series,
    exec: &Exec,
) -> PolarsResult<MergedPairs>
    requires { AreKeysToMerge JoinType.Right exec.now left.now right.now }
    ensures { AreMergedPairsOf JoinType.Right (values left.now) (values right.now) result }
{
    let (pairs, merged) = ordered_pairs(alloc, true, right, left, exec)?;
    let order = Direction::ByRight;
    let pairs = turned(pairs);
    let listed = DirectedPairs { pairs, order };
    Ok(MergedPairs { listed, merged })
}

// The pairs of two keys that are merged.
fn sorted_pairs(
    alloc: Global,
    how: JoinType,
    left: &Series,
    right: &Series,
    exec: &Exec,
) -> PolarsResult<MergedPairs>
    requires { AreKeysToMerge how exec.now left.now right.now }
    ensures { AreMergedPairsOf how (values left.now) (values right.now) result }
{
    match how {
        JoinType::Inner => left_way_pairs(alloc, false, left, right, exec),
        JoinType::Left => left_way_pairs(alloc, true, left, right, exec),
        JoinType::Right => right_way_pairs(alloc, left, right, exec),
        _ => unreachable!(),
    }
}

// Whether the keys of the request are merged.
fn takes_merge_path(request: &LentRequest<'_>, exec: &Exec) -> bool
    ensures { result ≡ takes_merge_path request.now exec.now }
{
    let (lefts, rights) = (request.left_keys, request.right_keys);
    if lefts.len() != 1 || rights.len() != 1 {
        return false;
    }
    let (left, right) = (lefts[0], rights[0]);
    takes_key_path(request.how, request.args.validation, exec, left, right)
}

// The pairs of a request whose keys are merged.
fn taken_pairs(alloc: Global, request: &LentRequest<'_>, exec: &Exec) -> PolarsResult<MergedPairs>
    requires alike { map (λ (c : Col). c.kind) (lent_columns request.now.left_keys.now)
        ≡ map (λ (c : Col). c.kind) (lent_columns request.now.right_keys.now) }
    requires taken { takes_merge_path request.now exec.now ≡ true }
    ensures { AreMergedPairs (first_cause (row_causes (asked_request request.now)))
        (listing (asked_request request.now)) (requested_sizes request.now) result }
{
    let left = request.left_keys[0];
    let right = request.right_keys[0];
    sorted_pairs(alloc, request.how, left, right, exec)
}

/// The pairs of a request whose keys are merged, with what the merge was, and none where they are hashed. They are merged exactly where the kind
/// is Inner, Left or Right, nothing is asked of either side's keys (ManyToMany), there is one key on each side, stored
/// as whole numbers of which none is Null, and one of these holds, for keys of l left and r right rows:
///
/// 1. Both keys are flagged as ascending.
/// 2. The left key is, and `r * den < num * l`. The right rows are sorted by key first.
/// 3. The kind is Inner, the right key is flagged, and `l * den < num * r`. The left rows are sorted by key first.
///
/// A Right join is judged and merged with its sides exchanged, also in what is told of the merge: how many keys of each
/// side there were, how many pairs of rows matched, and how many comparisons were made, which are at most
/// `2 * l + r`. Its pairs stand by right rows. Those of the others stand
/// by left rows, and in no order under 3.
///
/// # Errors
///
/// Where the keys are merged: `TooManyRows` where there are more than `MAX_ROWS` pairs, or `OutOfMemory`.
pub fn merged_pairs(
    alloc: Global,
    request: &LentRequest<'_>,
    exec: &Exec,
) -> PolarsResult<Option<MergedPairs>>
    requires alike { map (λ (c : Col). c.kind) (lent_columns request.now.left_keys.now)
        ≡ map (λ (c : Col). c.kind) (lent_columns request.now.right_keys.now) }
    ensures taken { IfOk result (λ o. is_some o ≡ takes_merge_path request.now exec.now) }
    ensures settles { Settles result (merge_refusal request.now exec.now) }
    ensures found { IfOk result (λ o.
        IfSome o (λ m. IsListedIn (listing (asked_request request.now)) m.listed)) }
    ensures merged { IfOk result (λ o.
        IfSome o (λ m. IsMergeWithin (requested_sizes request.now) m.merged)) }
{
    if !takes_merge_path(request, exec) {
        return Ok(None);
    }
    let merged = taken_pairs(alloc, request, exec)?;
    Ok(Some(merged))
}
