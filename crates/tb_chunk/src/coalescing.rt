//! Columns made of two others, of which the second stands in where the first has no value.
ghost use Rattle.std.specs.Prelude.{◌≡◌, ◌<◌, ◌^◌, ◌∷◌, ◌++◌, [], IfOk, get_or, length, map};
ghost use Rattle.tb_chunk.specs.Promise.Col.{concatenation};
ghost use Rattle.tb_chunk.specs.Coalesced.{coalesced_values, coalesced_view_array};
ghost use Rattle.tb_chunk.specs.ChunkViewArrays.{chunk_view_arrays};
ghost use Rattle.tb_chunk.specs.Seen.{chunk_lists, storage};
ghost use Rattle.tb_view.specs.ViewArrays.{view_array_at, view_arrays_of, joined_view_array};

use crate::chunk::Chunk;
use crate::chunks::{Chunks, rows_in};
use crate::each::for_chunks;
use crate::grow::join_rows;
use crate::growing::Growing;
use crate::stored::Stored;
use std::alloc::Global;
use tb_value::{OutOfMemory, ValueRef};

// The values of the first of two chunks, and those of the second where they are Null.
fn coalesce_rows<C: Chunk>(alloc: Global, pair: &[C]) -> Result<C, OutOfMemory>
    requires pair { length pair.now ≡ 2 }
    requires same_len { length (get_or (map C.shown pair.now) 0 [])
        ≡ length (get_or (map C.shown pair.now) 1 []) }
    requires short { length (get_or (map C.shown pair.now) 0 []) < 2 ^ 32 }
    ensures shown { IfOk result (λ c.
        C.shown c
        ≡ coalesced_values (get_or (map C.shown pair.now) 0 [])
        (get_or (map C.shown pair.now) 1 [])) }
    ensures views { IfOk result (λ c. C.views c
        ≡ (coalesced_view_array (get_or (map C.shown pair.now) 0 []) (view_array_at (view_arrays_of C.views C.buffers pair.now) 0) (view_array_at (view_arrays_of C.views C.buffers pair.now) 1)).views) }
    ensures buffers { IfOk result (λ c. C.buffers c
        ≡ (view_array_at (view_arrays_of C.views C.buffers pair.now) 0).buffers ++ (view_array_at (view_arrays_of C.views C.buffers pair.now) 1).buffers) }
{
    let first = &pair[0];
    let mut out = Growing::over(alloc, pair, first.len())?;
    for row in 0..first.len() {
        match first.value(row) {
            ValueRef::Null => out.push(alloc, pair, 1, row)?,
            _ => out.push(alloc, pair, 0, row)?,
        }
    }
    Ok(out.finish())
}

// The values of all chunks, and those of others where they are Null, as the only chunk.
fn coalesce_one<C: Stored>(alloc: Global, first: &[C], second: &[C]) -> Result<Chunks, OutOfMemory>
    requires same_len { length (concatenation (map C.shown first.now))
        ≡ length (concatenation (map C.shown second.now)) }
    requires short { length (concatenation (map C.shown first.now)) < 2 ^ 32 }
    ensures lists { IfOk result (λ c.
        chunk_lists c
        ≡ coalesced_values (concatenation (map C.shown first.now))
        (concatenation (map C.shown second.now))
        ∷ []) }
    ensures storage { IfOk result (λ c. storage c ≡ C.kind) }
    ensures view_arrays { IfOk result (λ c. chunk_view_arrays c
        ≡ coalesced_view_array (concatenation (map C.shown first.now)) (joined_view_array (view_arrays_of C.views C.buffers first.now)) (joined_view_array (view_arrays_of C.views C.buffers second.now)) ∷ []) }
{
    let mut pair = Vec::with_capacity(alloc, 2)?;
    pair.push(join_rows(alloc, first, 0, rows_in(first))?)?;
    pair.push(join_rows(alloc, second, 0, rows_in(second))?)?;
    let chunk = coalesce_rows(alloc, &pair)?;
    let mut one = Vec::new(alloc);
    one.push(chunk)?;
    Ok(C::wrap(one))
}

// The same, where the others are those of a column that is stored alike.
fn coalesce_stored<C: Stored>(
    alloc: Global,
    first: &[C],
    other: &Chunks,
) -> Result<Chunks, OutOfMemory>
    requires same_storage { C.kind ≡ storage other.now }
    requires same_len { length (concatenation (map C.shown first.now))
        ≡ length (concatenation (chunk_lists other.now)) }
    requires short { length (concatenation (map C.shown first.now)) < 2 ^ 32 }
    ensures lists { IfOk result (λ c.
        chunk_lists c
        ≡ coalesced_values (concatenation (map C.shown first.now))
        (concatenation (chunk_lists other.now))
        ∷ []) }
    ensures storage { IfOk result (λ c. storage c ≡ C.kind) }
    ensures view_arrays { IfOk result (λ c. chunk_view_arrays c
        ≡ coalesced_view_array (concatenation (map C.shown first.now)) (joined_view_array (view_arrays_of C.views C.buffers first.now)) (joined_view_array (chunk_view_arrays other.now)) ∷ []) }
{
    match C::stored_in(other) {
        Some(second) => coalesce_one(alloc, first, second),
        None => unreachable!(),
    }
}

impl Chunks {
    /// The values, and those of chunks of the same storage where they are Null, in one chunk.
    pub fn coalesce(&self, alloc: Global, other: &Chunks) -> Result<Chunks, OutOfMemory>
        requires same_storage { storage self.now ≡ storage other.now }
        requires same_len { length (concatenation (chunk_lists self.now))
            ≡ length (concatenation (chunk_lists other.now)) }
        requires short { length (concatenation (chunk_lists self.now)) < 2 ^ 32 }
        ensures lists { IfOk result (λ c.
            chunk_lists c
            ≡ coalesced_values (concatenation (chunk_lists self.now))
            (concatenation (chunk_lists other.now))
            ∷ []) }
        ensures storage { IfOk result (λ c. storage c ≡ storage self.now) }
        ensures view_arrays { IfOk result (λ c.
            chunk_view_arrays c
            ≡ coalesced_view_array (concatenation (chunk_lists self.now))
            (joined_view_array (chunk_view_arrays self.now))
            (joined_view_array (chunk_view_arrays other.now))
            ∷ []) }
    {
        for_chunks!(self, chunks => coalesce_stored(alloc, chunks, other))
    }
}
