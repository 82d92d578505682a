//! Chunks made of the rows that ids name.
ghost use Rattle.std.specs.Prelude.{◌≡◌, ◌<◌, ◌^◌, ◌∷◌, ◌++◌, [], All, IfOk, OnOk, length, map};
ghost use Rattle.tb_chunk.specs.Held.{AreHeld};
ghost use Rattle.tb_chunk.specs.ChunkViewArrays.{chunk_view_arrays};
ghost use Rattle.tb_chunk.specs.Seen.{chunk_lists, storage};
ghost use Rattle.tb_chunk.specs.ViewArrays.{AreBases, picked_of, view_arrays_of, view_or_none, joined_view_array};
ghost use Rattle.tb_gather.specs.Ids.{NamesRow, row_or_none};
ghost use Rattle.tb_frame.specs.Frame.{lengths};
ghost use Rattle.tb_gather.specs.Gathered.{value_of_id};
ghost use Rattle.tb_gather.specs.Kept.{kept_view_array, keeps_used};

use crate::keep::Keep;
use crate::used::gather_used;
use std::alloc::Global;
use tb_store::{Chunk, Chunks, Growing, Stored};
use tb_value::{ChunkId, OutOfMemory};

// Appends the row that an id names, Null for none.
fn push_named<C: Chunk, const B: u64>(
    alloc: Global,
    out: &mut Growing<C>,
    chunks: &[C],
    id: &ChunkId<B>,
) -> Result<(), OutOfMemory>
    requires held { AreHeld (C.buffers out.old.chunk) out.old.bases.items
        (map C.buffers chunks.now) }
    requires room { length (C.shown out.old.chunk) < 2 ^ 63 }
    requires bases { AreBases out.old.bases.items (view_arrays_of C.views C.buffers chunks.now) }
    requires named { NamesRow (lengths (map C.shown chunks.now)) id.now }
    ensures shown { OnOk result
        (C.shown out.new.chunk
        ≡ C.shown out.old.chunk ++ value_of_id (map C.shown chunks.now) id.now
        ∷ []) }
    ensures held { AreHeld (C.buffers out.new.chunk) out.new.bases.items
        (map C.buffers chunks.now) }
    ensures views { OnOk result (C.views out.new.chunk ≡ C.views out.old.chunk
        ++ view_or_none (joined_view_array (view_arrays_of C.views C.buffers chunks.now)).views (row_or_none (lengths (map C.shown chunks.now)) id.now) ∷ []) }
    ensures buffers { C.buffers out.new.chunk ≡ C.buffers out.old.chunk }
    ensures bases { out.new.bases.items ≡ out.old.bases.items }
{
    if id.is_null() {
        return out.push_null();
    }
    let (chunk, row) = id.extract();
    out.push(alloc, chunks, chunk as usize, row as usize)
}

// The rows that the ids name, Null for none, over the buffers of all chunks. It takes steps in the number of ids, and of buffers.
fn gather_all<C: Chunk, const B: u64>(
    alloc: Global,
    chunks: &[C],
    ids: &[ChunkId<B>],
) -> Result<C, OutOfMemory>
    requires named { All (NamesRow (lengths (map C.shown chunks.now))) ids.now }
    requires few { length ids.now < 2 ^ 32 }
    ensures shown { IfOk result (λ c.
        C.shown c ≡ map (value_of_id (map C.shown chunks.now)) ids.now) }
    ensures views { IfOk result (λ c.
        C.views c
        ≡ (picked_of (row_or_none (lengths (map C.shown chunks.now))) ids.now (joined_view_array (view_arrays_of C.views C.buffers chunks.now))).views) }
    ensures buffers { IfOk result (λ c.
        C.buffers c ≡ (joined_view_array (view_arrays_of C.views C.buffers chunks.now)).buffers) }
{
    let mut out = Growing::over(alloc, chunks, ids.len())?;
    for id in ids {
        push_named(alloc, &mut out, chunks, id)?;
    }
    Ok(out.finish())
}

// Whether only buffers in use are kept, of so many chunks and for so many ids.
fn keeps_used(keep: Keep, chunks: usize, ids: usize) -> bool
    ensures { result ≡ keeps_used keep chunks ids }
{
    match keep {
        Keep::All => false,
        Keep::Used => chunks > 1 && ids < chunks,
    }
}

// The rows that the ids name, Null for none.
fn gather<C: Chunk, const B: u64>(
    alloc: Global,
    chunks: &[C],
    ids: &[ChunkId<B>],
    keep: Keep,
) -> Result<C, OutOfMemory>
    requires named { All (NamesRow (lengths (map C.shown chunks.now))) ids.now }
    requires few { length ids.now < 2 ^ 32 }
    ensures shown { IfOk result (λ c.
        C.shown c ≡ map (value_of_id (map C.shown chunks.now)) ids.now) }
    ensures views { IfOk result (λ c.
        C.views c
        ≡ (kept_view_array keep (lengths (map C.shown chunks.now)) ids.now (view_arrays_of C.views C.buffers chunks.now)).views) }
    ensures buffers { IfOk result (λ c.
        C.buffers c
        ≡ (kept_view_array keep (lengths (map C.shown chunks.now)) ids.now (view_arrays_of C.views C.buffers chunks.now)).buffers) }
{
    if keeps_used(keep, chunks.len(), ids.len()) {
        gather_used(alloc, chunks, ids)
    } else {
        gather_all(alloc, chunks, ids)
    }
}

/// The rows that the ids name, as the only chunk.
pub(crate) fn gather_one<C: Chunk, const B: u64>(
    alloc: Global,
    chunks: &[C],
    ids: &[ChunkId<B>],
    keep: Keep,
) -> Result<Vec<C>, OutOfMemory>
    requires named { All (NamesRow (lengths (map C.shown chunks.now))) ids.now }
    requires few { length ids.now < 2 ^ 32 }
    ensures shown { IfOk result (λ v.
        map C.shown v.items ≡ map (value_of_id (map C.shown chunks.now)) ids.now ∷ []) }
    ensures view_arrays { IfOk result (λ v.
        view_arrays_of C.views C.buffers v.items
        ≡ kept_view_array keep (lengths (map C.shown chunks.now)) ids.now
        (view_arrays_of C.views C.buffers chunks.now)
        ∷ []) }
{
    let chunk = gather(alloc, chunks, ids, keep)?;
    let mut one = Vec::new(alloc);
    one.push(chunk)?;
    Ok(one)
}

// The same, as those of a column.
fn gather_stored<C: Stored, const B: u64>(
    alloc: Global,
    chunks: &[C],
    ids: &[ChunkId<B>],
    keep: Keep,
) -> Result<Chunks, OutOfMemory>
    requires named { All (NamesRow (lengths (map C.shown chunks.now))) ids.now }
    requires few { length ids.now < 2 ^ 32 }
    ensures lists { IfOk result (λ c.
        chunk_lists c ≡ map (value_of_id (map C.shown chunks.now)) ids.now ∷ []) }
    ensures storage { IfOk result (λ c. storage c ≡ C.kind) }
    ensures view_arrays { IfOk result (λ c.
        chunk_view_arrays c
        ≡ kept_view_array keep (lengths (map C.shown chunks.now)) ids.now
        (view_arrays_of C.views C.buffers chunks.now)
        ∷ []) }
{
    Ok(C::wrap(gather_one(alloc, chunks, ids, keep)?))
}

/// The rows that the ids name, in one chunk of the same kind, Null for none.
pub(crate) fn gather_chunks<const B: u64>(
    alloc: Global,
    chunks: &Chunks,
    ids: &[ChunkId<B>],
    keep: Keep,
) -> Result<Chunks, OutOfMemory>
    requires named { All (NamesRow (lengths (chunk_lists chunks.now))) ids.now }
    requires few { length ids.now < 2 ^ 32 }
    ensures lists { IfOk result (λ c.
        chunk_lists c ≡ map (value_of_id (chunk_lists chunks.now)) ids.now ∷ []) }
    ensures storage { IfOk result (λ c. storage c ≡ storage chunks.now) }
    ensures view_arrays { IfOk result (λ c.
        chunk_view_arrays c
        ≡ kept_view_array keep (lengths (chunk_lists chunks.now)) ids.now
        (chunk_view_arrays chunks.now)
        ∷ []) }
{
    match chunks {
        Chunks::BooleanType(chunks) => gather_stored(alloc, chunks, ids, keep),
        Chunks::Int8Type(chunks) => gather_stored(alloc, chunks, ids, keep),
        Chunks::Int16Type(chunks) => gather_stored(alloc, chunks, ids, keep),
        Chunks::Int32Type(chunks) => gather_stored(alloc, chunks, ids, keep),
        Chunks::Int64Type(chunks) => gather_stored(alloc, chunks, ids, keep),
        Chunks::Int128Type(chunks) => gather_stored(alloc, chunks, ids, keep),
        Chunks::UInt8Type(chunks) => gather_stored(alloc, chunks, ids, keep),
        Chunks::UInt16Type(chunks) => gather_stored(alloc, chunks, ids, keep),
        Chunks::UInt32Type(chunks) => gather_stored(alloc, chunks, ids, keep),
        Chunks::UInt64Type(chunks) => gather_stored(alloc, chunks, ids, keep),
        Chunks::StringType(chunks) => gather_stored(alloc, chunks, ids, keep),
        Chunks::BinaryType(chunks) => gather_stored(alloc, chunks, ids, keep),
        Chunks::ListType(chunks) => gather_stored(alloc, chunks, ids, keep),
        Chunks::StructType(chunks) => gather_stored(alloc, chunks, ids, keep),
        Chunks::Null(chunks) => gather_stored(alloc, chunks, ids, keep),
    }
}
