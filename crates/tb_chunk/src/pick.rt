//! Columns made of rows of others.
ghost use Rattle.std.specs.Prelude.{◌≡◌, ◌<◌, ◌^◌, ◌∷◌, [], IfOk, length, map};
ghost use Rattle.std.specs.List.{All};
ghost use Rattle.tb_chunk.specs.Promise.Col.{concatenation};
ghost use Rattle.tb_chunk.specs.Rows.{IsRowOf, value_or_null};
ghost use Rattle.tb_chunk.specs.ChunkViewArrays.{chunk_view_arrays};
ghost use Rattle.tb_chunk.specs.Seen.{chunk_lists, storage};
ghost use Rattle.tb_view.specs.ViewArrays.{picked_of, view_arrays_of, joined_view_array};

use crate::chunk::Chunk;
use crate::chunks::{Chunks, rows_in};
use crate::each::for_chunks;
use crate::grow::join_one;
use crate::growing::Growing;
use crate::stored::Stored;
use std::alloc::Global;
use tb_cell::RowNumber;
use tb_value::OutOfMemory;

// The values of these rows of the only chunk.
fn pick_rows<C: Chunk, R: RowNumber>(
    alloc: Global,
    chunks: &[C],
    rows: &[R],
) -> Result<C, OutOfMemory>
    requires one { length chunks.now ≡ 1 }
    requires rows { All
        (λ r. IsRowOf (length (concatenation (map C.shown chunks.now))) (R.number r)) rows.now }
    requires few { length rows.now < 2 ^ 32 }
    ensures shown { IfOk result (λ c.
        C.shown c
        ≡ map (λ r. value_or_null (concatenation (map C.shown chunks.now)) (R.number r))
        rows.now) }
    ensures views { IfOk result (λ c.
        C.views c
        ≡ (picked_of R.number rows.now (joined_view_array (view_arrays_of C.views C.buffers chunks.now))).views) }
    ensures buffers { IfOk result (λ c.
        C.buffers c ≡ (joined_view_array (view_arrays_of C.views C.buffers chunks.now)).buffers) }
{
    let mut out = Growing::over(alloc, chunks, rows.len())?;
    for row in rows {
        match row.number() {
            Some(row) => out.push(alloc, chunks, 0, row as usize)?,
            None => out.push_null()?,
        }
    }
    Ok(out.finish())
}

// The values of these rows of all chunks. One chunk is picked from as it is, and more are joined first.
fn pick<C: Chunk, R: RowNumber>(alloc: Global, chunks: &[C], rows: &[R]) -> Result<C, OutOfMemory>
    requires rows { All
        (λ r. IsRowOf (length (concatenation (map C.shown chunks.now))) (R.number r)) rows.now }
    requires few { length rows.now < 2 ^ 32 }
    requires short { length (concatenation (map C.shown chunks.now)) < 2 ^ 32 }
    ensures shown { IfOk result (λ c.
        C.shown c
        ≡ map (λ r. value_or_null (concatenation (map C.shown chunks.now)) (R.number r))
        rows.now) }
    ensures views { IfOk result (λ c.
        C.views c
        ≡ (picked_of R.number rows.now (joined_view_array (view_arrays_of C.views C.buffers chunks.now))).views) }
    ensures buffers { IfOk result (λ c.
        C.buffers c ≡ (joined_view_array (view_arrays_of C.views C.buffers chunks.now)).buffers) }
{
    if chunks.len() == 1 {
        return pick_rows(alloc, chunks, rows);
    }
    let joined = join_one(alloc, chunks, 0, rows_in(chunks))?;
    pick_rows(alloc, &joined, rows)
}

// The same, as the only chunk of a column.
fn pick_stored<C: Stored, R: RowNumber>(
    alloc: Global,
    chunks: &[C],
    rows: &[R],
) -> Result<Chunks, OutOfMemory>
    requires rows { All
        (λ r. IsRowOf (length (concatenation (map C.shown chunks.now))) (R.number r)) rows.now }
    requires few { length rows.now < 2 ^ 32 }
    requires short { length (concatenation (map C.shown chunks.now)) < 2 ^ 32 }
    ensures lists { IfOk result (λ c.
        chunk_lists c
        ≡ map (λ r. value_or_null (concatenation (map C.shown chunks.now)) (R.number r))
        rows.now
        ∷ []) }
    ensures storage { IfOk result (λ c. storage c ≡ C.kind) }
    ensures view_arrays { IfOk result (λ c.
        chunk_view_arrays c
        ≡ picked_of R.number rows.now
        (joined_view_array (view_arrays_of C.views C.buffers chunks.now))
        ∷ []) }
{
    let mut one = Vec::new(alloc);
    one.push(pick(alloc, chunks, rows)?)?;
    Ok(C::wrap(one))
}

impl Chunks {
    /// The values of these rows, in one chunk. It takes steps in the number of rows, and where there
    /// are more chunks than one, in the number of values too.
    pub fn picked<R: RowNumber>(&self, alloc: Global, rows: &[R]) -> Result<Chunks, OutOfMemory>
        requires rows { All
            (λ r. IsRowOf (length (concatenation (chunk_lists self.now))) (R.number r)) rows.now }
        requires few { length rows.now < 2 ^ 32 }
        requires short { length (concatenation (chunk_lists self.now)) < 2 ^ 32 }
        ensures lists { IfOk result (λ c.
            chunk_lists c
            ≡ map (λ r. value_or_null (concatenation (chunk_lists self.now)) (R.number r))
            rows.now
            ∷ []) }
        ensures storage { IfOk result (λ c. storage c ≡ storage self.now) }
        ensures view_arrays { IfOk result (λ c.
            chunk_view_arrays c
            ≡ picked_of R.number rows.now (joined_view_array (chunk_view_arrays self.now))
            ∷ []) }
    {
        for_chunks!(self, chunks => pick_stored(alloc, chunks, rows))
    }
}
