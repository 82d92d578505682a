//! Ids made from row numbers.
ghost use Rattle.std.specs.Prelude.{◌≡◌, ◌<◌, ◌≤◌, ◌^◌, ◌-◌, All, IfOk, Some, length, map, nat_le, slice_index_or};
ghost use Rattle.tb_value.specs.declared.sorted.IsSorted.{IsSorted};
ghost use Rattle.tb_chunk.specs.Promise.Col.{values};
ghost use Rattle.tb_chunk.specs.Col.{IsColumn};
ghost use Rattle.tb_chunk.specs.Rows.{IsRowOf};
ghost use Rattle.tb_frame.specs.Frame.{lens};
ghost use Rattle.tb_gather.specs.Ids.{AreStarts, NamesRow, RowsStandInOrder, StandInOrder, row_or_none};
ghost use Rattle.tb_gather.specs.Gathered.{NameRows};

use crate::row_of::{OwnRow, RowOf};
use std::alloc::Global;
use tb_store::Series;
use tb_value::{ChunkId, IdxSize, NullableIdxSize, OutOfMemory};

// Where each chunk starts, as a row number.
fn starts_of(alloc: Global, column: &Series) -> Result<Vec<usize>, OutOfMemory>
    ensures { IfOk result (λ v. AreStarts (lens column.now) v.items) }
{
    let _len = column.len();
    let count = column.n_chunks();
    let mut starts = Vec::with_capacity(alloc, count)?;
    let mut start = 0;
    for chunk in 0..count {
        starts.push(start)?;
        start += column.chunk_len(chunk);
    }
    Ok(starts)
}

// The last chunk that starts at the row or before it.
fn chunk_of(column: &Series, starts: &[usize], row: usize) -> usize
    requires column { IsColumn column.now }
    requires starts { AreStarts (lens column.now) starts.now }
    requires row { row < length (values column.now) }
    ensures start { slice_index_or starts.now result 0 ≤ row }
    ensures named { NamesRow (lens column.now)
        (Some (result, row - slice_index_or starts.now result 0)) }
{
    let after = starts.partition_point(
        |start: &usize| -> bool
            ensures { result ≡ nat_le start.now row }
        { *start <= row },
    );
    after - 1
}

// The id of a row.
fn id_of<const B: u64>(column: &Series, starts: &[usize], row: IdxSize) -> ChunkId<B>
    requires bits { (0 < B) × (B ≤ 32) }
    requires column { IsColumn column.now }
    requires few { length column.now.chunks < 2 ^ B - 1 }
    requires starts { AreStarts (lens column.now) starts.now }
    requires row { row < length (values column.now) }
    ensures named { NamesRow (lens column.now) result }
    ensures row { row_or_none (lens column.now) result ≡ Some row }
{
    let chunk = chunk_of(column, starts, row as usize);
    ChunkId::store(chunk as u32, (row as usize - starts[chunk]) as u32)
}

fn id_or_null<const B: u64>(column: &Series, starts: &[usize], row: Option<IdxSize>) -> ChunkId<B>
    requires bits { (0 < B) × (B ≤ 32) }
    requires column { IsColumn column.now }
    requires few { length column.now.chunks < 2 ^ B - 1 }
    requires starts { AreStarts (lens column.now) starts.now }
    requires row { IsRowOf (length (values column.now)) row }
    ensures named { NamesRow (lens column.now) result }
    ensures row { row_or_none (lens column.now) result ≡ row }
{
    match row {
        None => ChunkId::null(),
        Some(row) => id_of(column, starts, row),
    }
}

/// The ids that name the rows of these items in a column, and in each column that is cut into chunks alike; null for none. It
/// takes steps in the number of chunks, and for each item in the number of digits of that number.
pub fn ids_by<R: RowOf<T>, T, const B: u64>(
    alloc: Global,
    column: &Series,
    items: &[T],
) -> Result<Vec<ChunkId<B>>, OutOfMemory>
    requires bits { (0 < B) × (B ≤ 32) }
    requires few { length column.now.chunks < 2 ^ B - 1 }
    requires rows { All (IsRowOf (length (values column.now))) (map R.number items.now) }
    ensures named { IfOk result (λ v. NameRows v.items column.now) }
    ensures rows { IfOk result (λ v.
        map (row_or_none (lens column.now)) v.items ≡ map R.number items.now) }
    ensures in_order { IfOk result (λ v.
        (sorted : IsSorted) → RowsStandInOrder sorted (map R.number items.now)
        → StandInOrder sorted v.items) }
{
    let _len = column.len();
    let starts = starts_of(alloc, column)?;
    let mut ids = Vec::with_capacity(alloc, items.len())?;
    for item in items {
        ids.push(id_or_null(column, &starts, R::number(item)))?;
    }
    Ok(ids)
}

/// The ids that name these rows, as `ids_by`.
pub fn ids_of<const B: u64>(
    alloc: Global,
    column: &Series,
    rows: &[NullableIdxSize],
) -> Result<Vec<ChunkId<B>>, OutOfMemory>
    requires bits { (0 < B) × (B ≤ 32) }
    requires few { length column.now.chunks < 2 ^ B - 1 }
    requires rows { All (IsRowOf (length (values column.now))) rows.now }
    ensures named { IfOk result (λ v. NameRows v.items column.now) }
    ensures rows { IfOk result (λ v. map (row_or_none (lens column.now)) v.items ≡ rows.now) }
    ensures in_order { IfOk result (λ v.
        (sorted : IsSorted) → RowsStandInOrder sorted rows.now → StandInOrder sorted v.items) }
{
    ids_by::<OwnRow, NullableIdxSize, B>(alloc, column, rows)
}
