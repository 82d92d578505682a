//! The pairs of a request.
ghost use Rattle.std.specs.Prelude.{◌≡◌, ◌↔◌, ◌<◌, IfOk, IfSome, IsSome, length, map, true};
ghost use Rattle.std.specs.List.{All};
ghost use Rattle.tb_value.specs.Promise.Datum.{binary};
ghost use Rattle.tb_value.specs.Refusals.{Settles};
ghost use Rattle.tb_chunk.specs.Chunk.{or_null};
ghost use Rattle.tb_chunk.specs.Promise.Col.{values};
ghost use Rattle.tb_chunk.specs.Lent.{lent_columns};
ghost use Rattle.tb_frame.specs.Promise.Join.{flag_at, listing};
ghost use Rattle.tb_rowkey.specs.Promise.Columns.{keys_at, row_count};
ghost use Rattle.tb_rowkey.specs.Columns.{AreShortRows};
ghost use Rattle.tb_sorted.specs.Listed.{IsListedIn};
ghost use Rattle.tb_keys.specs.Asked.{asked_request};
ghost use Rattle.tb_pairs.specs.KeyColumns.{AreKeysAlike};
ghost use Rattle.tb_pairs.specs.Promise.Trace.{IsFound, lacks_keys};
ghost use Rattle.tb_pairs.specs.Traced.{ArePairsFound, ArePairsTraced, ArePairsUnless, row_refusal};

use crate::arranged::arranged;
use crate::hashed::{pairs_by_key, pairs_by_row_key};
use crate::trace::{FoundPairs, JoinTrace, ListedPairs};
use std::alloc::Global;
use std::thread::Threads;
use tb_frame::{Direction, JoinNulls};
use tb_keys::{LentRequest, check_sides, check_size, list_pairs};
use tb_pool::{Exec, Gate, OpenGate};
use tb_rowkey::RowKeys;
use tb_sorted::{DirectedPairs, merged_pairs};
use tb_store::Series;
use tb_value::{JoinPair, OutOfMemory, PolarsResult};

// The pairs of a request, whose fields are compared one by one.
fn pairs_by_field(alloc: Global, request: &LentRequest<'_>) -> PolarsResult<DirectedPairs>
    ensures settles { Settles result (row_refusal request.now) }
    ensures found { IfOk result (IsListedIn (listing (asked_request request.now))) }
{
    check_sides(request)?;
    let pairs = list_pairs(alloc, request)?;
    check_size(&pairs)?;
    let order = Direction::Free;
    Ok(DirectedPairs { pairs, order })
}

// The same, where a row is too long for a key, with their trace.
fn plain_pairs(alloc: Global, request: &LentRequest<'_>, exec: &Exec) -> PolarsResult<FoundPairs>
    requires long { lacks_keys (lent_columns request.now.left_keys.now)
        (lent_columns request.now.right_keys.now)
        ≡ true }
    ensures settles { Settles result (row_refusal request.now) }
    ensures found { IfOk result (IsFound request.now exec.now) }
    ensures plain { IfOk result (λ f. f.trace ≡ JoinTrace.Plain) }
{
    let listed = pairs_by_field(alloc, request)?;
    let trace = JoinTrace::Plain;
    Ok(FoundPairs { listed, trace })
}

// The keys of the rows of one side, of which a row without a key matches nothing; or none where a row is too long for one.
fn row_keys(
    alloc: Global,
    nulls: &JoinNulls,
    columns: &[&Series],
) -> Result<Option<RowKeys>, OutOfMemory>
    requires some { 0 < length columns.now }
    requires rows { All (λ c. length (values c) ≡ row_count (lent_columns columns.now))
        (lent_columns columns.now) }
    ensures short { IfOk result (λ keys. IsSome keys ↔ AreShortRows (lent_columns columns.now)) }
    ensures keys { IfOk result (λ keys.
        IfSome keys (λ k.
        map (or_null binary) k ≡ keys_at (lent_columns columns.now) (flag_at nulls.now))) }
{
    let flags = nulls.flags(alloc, columns.len())?;
    RowKeys::of_columns(alloc, columns, &flags)
}

// The pairs of a request by several keys: by the keys of its rows, or where a row is too long to have one by its fields.
fn pairs_by_rows<G: Gate>(
    rt: &(impl Threads + Sync),
    alloc: Global,
    request: &LentRequest<'_>,
    exec: &Exec,
    gate: &G,
) -> PolarsResult<FoundPairs>
    requires several { 1 < length request.now.left_keys.now }
    requires alike { AreKeysAlike request.now }
    ensures { ArePairsFound request.now exec.now (G.lets_in gate.now) result }
{
    let nulls = &request.args.join_nulls;
    let left = row_keys(alloc, nulls, request.left_keys)?;
    let right = row_keys(alloc, nulls, request.right_keys)?;
    match (&left, &right) {
        (Some(left), Some(right)) => {
            pairs_by_row_key(rt, alloc, request, left, right, exec, gate)
        }
        _ => plain_pairs(alloc, request, exec),
    }
}

// The pairs of a request, in the order in which they are found.
fn found_pairs<G: Gate>(
    rt: &(impl Threads + Sync),
    alloc: Global,
    request: &LentRequest<'_>,
    exec: &Exec,
    gate: &G,
) -> PolarsResult<FoundPairs>
    requires alike { AreKeysAlike request.now }
    ensures { ArePairsFound request.now exec.now (G.lets_in gate.now) result }
{
    if let Some(merged) = merged_pairs(alloc, request, exec)? {
        return Ok(FoundPairs {
            listed: merged.listed,
            trace: JoinTrace::Merge(merged.merged),
        });
    }
    if request.left_keys.len() == 1 {
        pairs_by_key(rt, alloc, request, exec, gate)
    } else {
        pairs_by_rows(rt, alloc, request, exec, gate)
    }
}

/// The pairs of a request, in the order that is asked, and of them those that the slice keeps, with how they were found.
/// There are as many keys
/// on each side, one at least, of equal key types.
///
/// One key on each side is merged where `tb_sorted` says so, and else hashed as it is; of several each row's key is
/// hashed. Where a row of either side is too long for a key, which takes 2^32 bytes, each left row is compared with each
/// right one, field by field. Of what is hashed the gate has let in each part.
///
/// # Errors
///
/// `Validation` of a side that is asked to have each key once and has a key twice, the left one first; Semi and Anti
/// look at neither. `TooManyRows` where there are more than `MAX_ROWS` pairs before they are cut, or `OutOfMemory`.
pub fn traced_pairs<G: Gate>(
    rt: &(impl Threads + Sync),
    alloc: Global,
    request: &LentRequest<'_>,
    exec: &Exec,
    gate: &G,
) -> PolarsResult<ListedPairs>
    requires alike { AreKeysAlike request.now }
    ensures { ArePairsTraced (row_refusal request.now) request.now exec.now (G.lets_in gate.now)
        result }
{
    let found = found_pairs(rt, alloc, request, exec, gate)?;
    let pairs = arranged(alloc, found.listed, request)?;
    Ok(ListedPairs {
        pairs,
        trace: found.trace,
    })
}

/// The pairs of `traced_pairs` alone.
///
/// # Errors
///
/// As of `traced_pairs`.
pub fn listed_pairs(
    rt: &(impl Threads + Sync),
    alloc: Global,
    request: &LentRequest<'_>,
    exec: &Exec,
) -> PolarsResult<Vec<JoinPair>>
    requires alike { AreKeysAlike request.now }
    ensures { ArePairsUnless (row_refusal request.now) (asked_request request.now) result }
{
    Ok(traced_pairs(rt, alloc, request, exec, &OpenGate)?.pairs)
}
