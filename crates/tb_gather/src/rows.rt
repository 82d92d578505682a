//! Rows of columns, named by the rows of pairs.
ghost use Rattle.std.specs.Prelude.{◌≡◌, ◌≤◌, All, IfOk, length, map};
ghost use Rattle.tb_chunk.specs.Promise.Col.{Col, values};
ghost use Rattle.tb_chunk.specs.Lent.{lent_columns};
ghost use Rattle.tb_chunk.specs.Rows.{IsRowOf};
ghost use Rattle.tb_gather.specs.Gathered.{gathered_rows};
ghost use Rattle.tb_gather.specs.Ids.{AreCutForIds, AreAllRowsInOrder};

use crate::ids::ids_by;
use crate::keep::Keep;
use crate::lent::{are_cut_for_ids, are_in_one_chunk};
use crate::row_of::RowOf;
use crate::side_by_side::{gather_side_by_side, pick_side_by_side};
use std::alloc::Global;
use std::thread::Threads;
use tb_store::Column;
use tb_value::{IsSorted, JoinPair, MAX_ROWS, OutOfMemory, StandardChunkId};

/// The rows of columns that are lent which the pairs name on one side, each in one chunk, Null for none. `sorted` says how
/// the rows run, which are all there unless it is Not, and with the flag of a column makes the flag of what is gathered from
/// it: the same flag where they ascend.
///
/// Columns that are cut alike are gathered by ids of chunks and rows, and others as they are where they are in one
/// chunk. One that is cut in another way than the first, or into `TOO_MANY_CHUNKS`, is put into one chunk for it.
pub fn gather_rows<S: RowOf<JoinPair>>(
    rt: &(impl Threads + Sync),
    alloc: Global,
    columns: &[&Column],
    pairs: &[JoinPair],
    sorted: IsSorted,
) -> Result<Vec<Column>, OutOfMemory>
    requires rows { All (λ (c : Col). All (IsRowOf (length (values c))) (map S.number pairs.now))
        (lent_columns columns.now) }
    requires in_order { AreAllRowsInOrder sorted (map S.number pairs.now) }
    requires few { length pairs.now ≤ MAX_ROWS }
    ensures { IfOk result (λ v.
        v.items ≡ map (gathered_rows (map S.number pairs.now) sorted) (lent_columns columns.now)) }
{
    if are_in_one_chunk(columns) || !are_cut_for_ids(columns) {
        pick_side_by_side::<S>(rt, alloc, columns, pairs, sorted)
    } else {
        gather_by_ids::<S>(rt, alloc, columns, pairs, sorted)
    }
}

// The rows of columns for which one list of ids serves.
fn gather_by_ids<S: RowOf<JoinPair>>(
    rt: &(impl Threads + Sync),
    alloc: Global,
    columns: &[&Column],
    pairs: &[JoinPair],
    sorted: IsSorted,
) -> Result<Vec<Column>, OutOfMemory>
    requires cut { AreCutForIds (lent_columns columns.now) }
    requires rows { All (λ (c : Col). All (IsRowOf (length (values c))) (map S.number pairs.now))
        (lent_columns columns.now) }
    requires in_order { AreAllRowsInOrder sorted (map S.number pairs.now) }
    requires few { length pairs.now ≤ MAX_ROWS }
    ensures { IfOk result (λ v.
        v.items ≡ map (gathered_rows (map S.number pairs.now) sorted) (lent_columns columns.now)) }
{
    match columns.first() {
        None => Ok(Vec::new(alloc)),
        Some(first) => {
            let series = first.as_materialized_series();
            let ids: Vec<StandardChunkId> = ids_by::<S, JoinPair, 24>(alloc, series, pairs)?;
            gather_side_by_side(rt, alloc, columns, &ids, sorted, Keep::All)
        }
    }
}
