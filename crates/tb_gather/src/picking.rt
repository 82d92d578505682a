//! Rows of columns, picked by pairs of row numbers.
ghost use Rattle.std.specs.Prelude.{◌≡◌, ◌<◌, ◌≤◌, ◌^◌, ◌∷◌, [], All, IfOk, length, map};
ghost use Rattle.tb_chunk.specs.Promise.Col.{concatenation, values};
ghost use Rattle.tb_chunk.specs.Flag.{FlagHolds};
ghost use Rattle.tb_chunk.specs.Rows.{IsRowOf, value_or_null};
ghost use Rattle.tb_chunk.specs.ChunkViewArrays.{chunk_view_arrays};
ghost use Rattle.tb_chunk.specs.Seen.{chunk_lists, storage};
ghost use Rattle.tb_chunk.specs.ViewArrays.{picked_of, view_arrays_of, joined_view_array};
ghost use Rattle.tb_frame.specs.Frame.{opt_taken_rows};
ghost use Rattle.tb_gather.specs.Gathered.{gathered_rows};
ghost use Rattle.tb_gather.specs.Ids.{AreAllRowsInOrder};

use crate::directions::gathered_flag;
use crate::row_of::RowOf;
use std::alloc::Global;
use tb_store::{Chunk, Chunks, Column, Growing, Series, Stored};
use tb_value::{IsSorted, JoinPair, MAX_ROWS, OutOfMemory};

// The values of these rows of the only chunk, Null for none.
fn pick_rows<S: RowOf<JoinPair>, C: Chunk>(
    alloc: Global,
    chunks: &[C],
    pairs: &[JoinPair],
) -> Result<C, OutOfMemory>
    requires one { length chunks.now ≡ 1 }
    requires rows { All
        (λ p. IsRowOf (length (concatenation (map C.shown chunks.now))) (S.number p)) pairs.now }
    requires few { length pairs.now < 2 ^ 32 }
    ensures shown { IfOk result (λ c.
        C.shown c
        ≡ map (λ p. value_or_null (concatenation (map C.shown chunks.now)) (S.number p))
        pairs.now) }
    ensures views { IfOk result (λ c.
        C.views c
        ≡ (picked_of S.number pairs.now (joined_view_array (view_arrays_of C.views C.buffers chunks.now))).views) }
    ensures buffers { IfOk result (λ c.
        C.buffers c ≡ (joined_view_array (view_arrays_of C.views C.buffers chunks.now)).buffers) }
{
    let mut out = Growing::over(alloc, chunks, pairs.len())?;
    for pair in pairs {
        match S::number(pair) {
            Some(row) => out.push(alloc, chunks, 0, row as usize)?,
            None => out.push_null()?,
        }
    }
    Ok(out.finish())
}

// These rows of the only chunk, as the only chunk of a column.
fn pick_stored<S: RowOf<JoinPair>, C: Stored>(
    alloc: Global,
    chunks: &[C],
    pairs: &[JoinPair],
) -> Result<Chunks, OutOfMemory>
    requires one { length (map C.shown chunks.now) ≡ 1 }
    requires rows { All
        (λ p. IsRowOf (length (concatenation (map C.shown chunks.now))) (S.number p)) pairs.now }
    requires few { length pairs.now < 2 ^ 32 }
    ensures lists { IfOk result (λ c.
        chunk_lists c
        ≡ map (λ p. value_or_null (concatenation (map C.shown chunks.now)) (S.number p))
        pairs.now
        ∷ []) }
    ensures storage { IfOk result (λ c. storage c ≡ C.kind) }
    ensures view_arrays { IfOk result (λ c.
        chunk_view_arrays c
        ≡ picked_of S.number pairs.now
        (joined_view_array (view_arrays_of C.views C.buffers chunks.now))
        ∷ []) }
{
    let mut one = Vec::new(alloc);
    one.push(pick_rows::<S, C>(alloc, chunks, pairs)?)?;
    Ok(C::wrap(one))
}

// These rows of the only chunk, in one of the same kind.
fn pick_chunk<S: RowOf<JoinPair>>(
    alloc: Global,
    chunks: &Chunks,
    pairs: &[JoinPair],
) -> Result<Chunks, OutOfMemory>
    requires one { length (chunk_lists chunks.now) ≡ 1 }
    requires rows { All
        (λ p. IsRowOf (length (concatenation (chunk_lists chunks.now))) (S.number p)) pairs.now }
    requires few { length pairs.now < 2 ^ 32 }
    ensures lists { IfOk result (λ c.
        chunk_lists c
        ≡ map (λ p. value_or_null (concatenation (chunk_lists chunks.now)) (S.number p))
        pairs.now
        ∷ []) }
    ensures storage { IfOk result (λ c. storage c ≡ storage chunks.now) }
    ensures view_arrays { IfOk result (λ c.
        chunk_view_arrays c
        ≡ picked_of S.number pairs.now (joined_view_array (chunk_view_arrays chunks.now))
        ∷ []) }
{
    match chunks {
        Chunks::BooleanType(chunks) => pick_stored::<S, _>(alloc, chunks, pairs),
        Chunks::Int8Type(chunks) => pick_stored::<S, _>(alloc, chunks, pairs),
        Chunks::Int16Type(chunks) => pick_stored::<S, _>(alloc, chunks, pairs),
        Chunks::Int32Type(chunks) => pick_stored::<S, _>(alloc, chunks, pairs),
        Chunks::Int64Type(chunks) => pick_stored::<S, _>(alloc, chunks, pairs),
        Chunks::Int128Type(chunks) => pick_stored::<S, _>(alloc, chunks, pairs),
        Chunks::UInt8Type(chunks) => pick_stored::<S, _>(alloc, chunks, pairs),
        Chunks::UInt16Type(chunks) => pick_stored::<S, _>(alloc, chunks, pairs),
        Chunks::UInt32Type(chunks) => pick_stored::<S, _>(alloc, chunks, pairs),
        Chunks::UInt64Type(chunks) => pick_stored::<S, _>(alloc, chunks, pairs),
        Chunks::StringType(chunks) => pick_stored::<S, _>(alloc, chunks, pairs),
        Chunks::BinaryType(chunks) => pick_stored::<S, _>(alloc, chunks, pairs),
        Chunks::ListType(chunks) => pick_stored::<S, _>(alloc, chunks, pairs),
        Chunks::StructType(chunks) => pick_stored::<S, _>(alloc, chunks, pairs),
        Chunks::Null(chunks) => pick_stored::<S, _>(alloc, chunks, pairs),
    }
}

// These rows of a series of one chunk, with this flag.
fn pick_series<S: RowOf<JoinPair>>(
    alloc: Global,
    series: &Series,
    pairs: &[JoinPair],
    flag: IsSorted,
) -> Result<Series, OutOfMemory>
    requires one { length series.now.chunks ≡ 1 }
    requires rows { All (IsRowOf (length (values series.now))) (map S.number pairs.now) }
    requires few { length pairs.now ≤ MAX_ROWS }
    requires flag { FlagHolds flag series.now.kind
        (map (value_or_null (values series.now)) (map S.number pairs.now)) }
    ensures { IfOk result (λ s.
        s ≡ record (opt_taken_rows (map S.number pairs.now) series.now) { flag = flag }) }
{
    let _len = series.len();
    let name = series.name().copy(alloc)?;
    let dtype = series.dtype().copy(alloc)?;
    let chunks = pick_chunk::<S>(alloc, series.chunks(), pairs)?;
    Ok(Series::from_parts(name, dtype, chunks, flag))
}

/// The rows of a column that the pairs name, in one chunk, with the flag that the column's and `sorted` make. A column of more
/// chunks than one is put into one for it.
pub(crate) fn pick_column<S: RowOf<JoinPair>>(
    alloc: Global,
    column: &Column,
    pairs: &[JoinPair],
    sorted: IsSorted,
) -> Result<Column, OutOfMemory>
    requires rows { All (IsRowOf (length (values column.now))) (map S.number pairs.now) }
    requires in_order { AreAllRowsInOrder sorted (map S.number pairs.now) }
    requires few { length pairs.now ≤ MAX_ROWS }
    ensures { IfOk result (λ c. c ≡ gathered_rows (map S.number pairs.now) sorted column.now) }
{
    let _len = column.len();
    let flag = gathered_flag(sorted, column.is_sorted_flag());
    let series = column.as_materialized_series();
    if series.n_chunks() == 1 {
        return Ok(pick_series::<S>(alloc, series, pairs, flag)?.into_column());
    }
    let whole = series.rechunk(alloc)?;
    Ok(pick_series::<S>(alloc, &whole, pairs, flag)?.into_column())
}
