//! Chunks made of the rows of others.
ghost use Rattle.std.specs.Prelude.{◌≡◌, ◌<◌, ◌≤◌, ◌^◌, ◌+◌, ◌++◌, ◌∷◌, [], IfOk, OnOk, get_or, length, map, take, drop};
ghost use Rattle.tb_chunk.specs.Promise.Col.{concatenation};
ghost use Rattle.tb_view.specs.Held.{AreHeld};
ghost use Rattle.tb_view.specs.Moved.{moved_view};
ghost use Rattle.tb_chunk.specs.ChunkViewArrays.{chunk_view_arrays};
ghost use Rattle.tb_chunk.specs.Seen.{chunk_lists, storage};
ghost use Rattle.tb_view.specs.ViewArrays.{view_arrays_of, joined_view_array, window_of};

use crate::chunk::Chunk;
use crate::chunks::Chunks;
use crate::each::for_chunks;
use crate::growing::Growing;
use crate::stored::Stored;
use std::alloc::Global;
use tb_value::OutOfMemory;

// Appends these rows of one of the chunks, one by one.
fn push_each<C: Chunk>(
    alloc: Global,
    out: &mut Growing<C>,
    chunks: &[C],
    chunk: usize,
    from: usize,
    count: usize,
) -> Result<(), OutOfMemory>
    requires held { AreHeld (C.buffers out.old.chunk) out.old.bases.items
        (map C.buffers chunks.now) }
    requires room { length (C.shown out.old.chunk) + count < 2 ^ 63 }
    requires chunk { chunk < length chunks.now }
    requires within { from + count ≤ length (get_or (map C.shown chunks.now) chunk []) }
    ensures shown { OnOk result
        (C.shown out.new.chunk
        ≡ C.shown out.old.chunk
        ++ take count (drop from (get_or (map C.shown chunks.now) chunk []))) }
    ensures held { AreHeld (C.buffers out.new.chunk) out.new.bases.items
        (map C.buffers chunks.now) }
    ensures views { OnOk result (C.views out.new.chunk ≡ C.views out.old.chunk
        ++ map (moved_view (get_or out.old.bases.items chunk 0)) (take count (drop from (get_or (map C.views chunks.now) chunk [])))) }
    ensures buffers { C.buffers out.new.chunk ≡ C.buffers out.old.chunk }
    ensures bases { out.new.bases.items ≡ out.old.bases.items }
{
    let _rows = chunks[chunk].len();
    for i in 0..count {
        out.push(alloc, chunks, chunk, from + i)?;
    }
    Ok(())
}

// Appends these rows of one of the chunks.
fn push_rows<C: Chunk>(
    alloc: Global,
    out: &mut Growing<C>,
    chunks: &[C],
    chunk: usize,
    from: usize,
    count: usize,
) -> Result<(), OutOfMemory>
    requires held { AreHeld (C.buffers out.old.chunk) out.old.bases.items
        (map C.buffers chunks.now) }
    requires room { length (C.shown out.old.chunk) + count < 2 ^ 63 }
    requires chunk { chunk < length chunks.now }
    requires within { from + count ≤ length (get_or (map C.shown chunks.now) chunk []) }
    ensures shown { OnOk result
        (C.shown out.new.chunk
        ≡ C.shown out.old.chunk
        ++ take count (drop from (get_or (map C.shown chunks.now) chunk []))) }
    ensures held { AreHeld (C.buffers out.new.chunk) out.new.bases.items
        (map C.buffers chunks.now) }
    ensures views { OnOk result (C.views out.new.chunk ≡ C.views out.old.chunk
        ++ map (moved_view (get_or out.old.bases.items chunk 0)) (take count (drop from (get_or (map C.views chunks.now) chunk [])))) }
    ensures buffers { C.buffers out.new.chunk ≡ C.buffers out.old.chunk }
    ensures bases { out.new.bases.items ≡ out.old.bases.items }
{
    let _rows = chunks[chunk].len();
    let block = out.append_block(alloc, chunks, chunk, from, count)?;
    push_each(alloc, out, chunks, chunk, from + block, count - block)?;
    Ok(())
}

// The rows from `start` on, pushed into a new chunk.
fn join_parts<C: Chunk>(
    alloc: Global,
    chunks: &[C],
    start: usize,
    len: usize,
) -> Result<C, OutOfMemory>
    requires within { start + len ≤ length (concatenation (map C.shown chunks.now)) }
    requires short { length (concatenation (map C.shown chunks.now)) < 2 ^ 32 }
    ensures shown { IfOk result (λ c.
        C.shown c ≡ take len (drop start (concatenation (map C.shown chunks.now)))) }
    ensures views { IfOk result (λ c.
        C.views c
        ≡ (window_of start len (joined_view_array (view_arrays_of C.views C.buffers chunks.now))).views) }
    ensures buffers { IfOk result (λ c.
        C.buffers c ≡ (joined_view_array (view_arrays_of C.views C.buffers chunks.now)).buffers) }
{
    let mut out = Growing::over(alloc, chunks, len)?;
    let mut skip = start;
    let mut left = len;
    for chunk in 0..chunks.len() {
        let rows = chunks[chunk].len();
        let from = skip.min(rows);
        let count = left.min(rows - from);
        push_rows(alloc, &mut out, chunks, chunk, from, count)?;
        skip -= from;
        left -= count;
    }
    Ok(out.finish())
}

/// The rows from `start` on, in one chunk, with the buffers of all. Where they are those of the only chunk, no row is looked at.
pub fn join_rows<C: Chunk>(
    alloc: Global,
    chunks: &[C],
    start: usize,
    len: usize,
) -> Result<C, OutOfMemory>
    requires within { start + len ≤ length (concatenation (map C.shown chunks.now)) }
    requires short { length (concatenation (map C.shown chunks.now)) < 2 ^ 32 }
    ensures shown { IfOk result (λ c.
        C.shown c ≡ take len (drop start (concatenation (map C.shown chunks.now)))) }
    ensures views { IfOk result (λ c.
        C.views c
        ≡ (window_of start len (joined_view_array (view_arrays_of C.views C.buffers chunks.now))).views) }
    ensures buffers { IfOk result (λ c.
        C.buffers c ≡ (joined_view_array (view_arrays_of C.views C.buffers chunks.now)).buffers) }
{
    if chunks.len() == 1 {
        let only = &chunks[0];
        let rows = only.len();
        if rows == len {
            let copy = only.copy(alloc)?;
            return Ok(copy);
        }
    }
    join_parts(alloc, chunks, start, len)
}

/// The rows from `start` on, as the only chunk.
pub fn join_one<C: Chunk>(
    alloc: Global,
    chunks: &[C],
    start: usize,
    len: usize,
) -> Result<Vec<C>, OutOfMemory>
    requires within { start + len ≤ length (concatenation (map C.shown chunks.now)) }
    requires short { length (concatenation (map C.shown chunks.now)) < 2 ^ 32 }
    ensures shown { IfOk result (λ v.
        map C.shown v.items ≡ take len (drop start (concatenation (map C.shown chunks.now))) ∷ []) }
    ensures view_arrays { IfOk result (λ v.
        view_arrays_of C.views C.buffers v.items
        ≡ window_of start len
        (joined_view_array (view_arrays_of C.views C.buffers chunks.now))
        ∷ []) }
{
    let chunk = join_rows(alloc, chunks, start, len)?;
    let mut one = Vec::new(alloc);
    one.push(chunk)?;
    Ok(one)
}

// The same, as those of a column.
fn join_stored<C: Stored>(
    alloc: Global,
    chunks: &[C],
    start: usize,
    len: usize,
) -> Result<Chunks, OutOfMemory>
    requires within { start + len ≤ length (concatenation (map C.shown chunks.now)) }
    requires short { length (concatenation (map C.shown chunks.now)) < 2 ^ 32 }
    ensures lists { IfOk result (λ c.
        chunk_lists c ≡ take len (drop start (concatenation (map C.shown chunks.now))) ∷ []) }
    ensures storage { IfOk result (λ c. storage c ≡ C.kind) }
    ensures view_arrays { IfOk result (λ c.
        chunk_view_arrays c
        ≡ window_of start len
        (joined_view_array (view_arrays_of C.views C.buffers chunks.now))
        ∷ []) }
{
    Ok(C::wrap(join_one(alloc, chunks, start, len)?))
}

impl Chunks {
    /// The rows from `start` on, in one chunk.
    pub fn joined(&self, alloc: Global, start: usize, len: usize) -> Result<Chunks, OutOfMemory>
        requires within { start + len ≤ length (concatenation (chunk_lists self.now)) }
        requires short { length (concatenation (chunk_lists self.now)) < 2 ^ 32 }
        ensures lists { IfOk result (λ c.
            chunk_lists c ≡ take len (drop start (concatenation (chunk_lists self.now))) ∷ []) }
        ensures storage { IfOk result (λ c. storage c ≡ storage self.now) }
        ensures view_arrays { IfOk result (λ c.
            chunk_view_arrays c
            ≡ window_of start len (joined_view_array (chunk_view_arrays self.now))
            ∷ []) }
    {
        for_chunks!(self, chunks => join_stored(alloc, chunks, start, len))
    }
}
