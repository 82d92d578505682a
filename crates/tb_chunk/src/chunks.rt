//! The chunks of a column, by the type that they are stored as.
ghost use Rattle.std.specs.Prelude.{◌≡◌, ◌<◌, ◌^◌, [], IfOk, length, get_or, map};
ghost use Rattle.tb_value.specs.Promise.Datum.{null};
ghost use Rattle.tb_value.specs.See.{lent_value, IsText};
ghost use Rattle.tb_chunk.specs.Promise.Col.{concatenation};
ghost use Rattle.tb_cell.specs.Promise.Flag.{nulls};
ghost use Rattle.tb_chunk.specs.ChunkViewArrays.{chunk_view_arrays};
ghost use Rattle.tb_chunk.specs.Seen.{chunk_lists, storage};
ghost use Rattle.tb_view.specs.ViewArrays.{AreViewed, view_arrays_of};

use crate::chunk::{Chunk, StringChunk};
use crate::each::for_chunks;
use crate::owned_chunks::{BinaryChunk, ListChunk, StructChunk};
use crate::stored::Stored;
use std::alloc::Global;
use tb_cell::Cells;
use tb_value::{OutOfMemory, ValueRef};

/// The chunks of a column. A variant is the type by which the values are stored; `Null` holds the
/// lengths of chunks of nulls alone.
#[derive(Drop)]
pub enum Chunks {
    BooleanType(Vec<Cells<bool>>),
    Int8Type(Vec<Cells<i8>>),
    Int16Type(Vec<Cells<i16>>),
    Int32Type(Vec<Cells<i32>>),
    Int64Type(Vec<Cells<i64>>),
    Int128Type(Vec<Cells<i128>>),
    UInt8Type(Vec<Cells<u8>>),
    UInt16Type(Vec<Cells<u16>>),
    UInt32Type(Vec<Cells<u32>>),
    UInt64Type(Vec<Cells<u64>>),
    StringType(Vec<StringChunk>),
    BinaryType(Vec<BinaryChunk>),
    ListType(Vec<ListChunk>),
    StructType(Vec<StructChunk>),
    Null(Vec<usize>),
}

/// The number of values.
#[tactic(auto, using(crate::proofs::Lists::flat_drop))]
pub fn rows_in<C: Chunk>(chunks: &[C]) -> usize
    requires { length (concatenation (map C.shown chunks.now)) < 2 ^ 64 }
    ensures { result ≡ length (concatenation (map C.shown chunks.now)) }
{
    let mut rows = 0;
    for chunk in chunks {
        rows += chunk.len();
    }
    rows
}

/// The number of nulls.
#[tactic(auto, using(tb_cell::proofs::Nulls::nulls_at_most, crate::proofs::Nulls::nulls_drop))]
pub fn nulls_in<C: Chunk>(chunks: &[C]) -> usize
    requires { length (concatenation (map C.shown chunks.now)) < 2 ^ 64 }
    ensures { result ≡ length (nulls (concatenation (map C.shown chunks.now))) }
{
    let mut nulls = 0;
    for chunk in chunks {
        nulls += chunk.null_count();
    }
    nulls
}

/// The value of a row.
#[tactic(auto, using(crate::proofs::Lists::flat_drop))]
pub fn value_in<C: Chunk>(chunks: &[C], row: usize) -> ValueRef<'_>
    requires { row < length (concatenation (map C.shown chunks.now)) }
    ensures value { lent_value result ≡ get_or (concatenation (map C.shown chunks.now)) row null }
    ensures text { IsText result }
{
    let mut left = row;
    for chunk in chunks {
        let len = chunk.len();
        if left < len {
            return chunk.value(left);
        }
        left -= len;
    }
    unreachable!()
}

/// Equal chunks.
pub fn copy_chunks<C: Chunk>(alloc: Global, chunks: &[C]) -> Result<Vec<C>, OutOfMemory>
    ensures shown { IfOk result (λ v. map C.shown v.items ≡ map C.shown chunks.now) }
    ensures view_arrays { IfOk result (λ v.
        view_arrays_of C.views C.buffers v.items ≡ view_arrays_of C.views C.buffers chunks.now) }
{
    let mut copies = Vec::with_capacity(alloc, chunks.len())?;
    for chunk in chunks {
        copies.push(chunk.copy(alloc)?)?;
    }
    Ok(copies)
}

// Chunks of the same values.
fn copied<C: Stored>(alloc: Global, chunks: &[C]) -> Result<Chunks, OutOfMemory>
    ensures lists { IfOk result (λ c. chunk_lists c ≡ map C.shown chunks.now) }
    ensures storage { IfOk result (λ c. storage c ≡ C.kind) }
    ensures view_arrays { IfOk result (λ c.
        chunk_view_arrays c ≡ view_arrays_of C.views C.buffers chunks.now) }
{
    Ok(C::wrap(copy_chunks(alloc, chunks)?))
}

impl Chunks {
    /// The number of chunks. Each has a view or none for each of its values.
    #[tactic(auto, using(crate::proofs::ChunkViewArrays::chunks_viewed))]
    pub fn count(&self) -> usize
        ensures count { result ≡ length (chunk_lists self.now) }
        ensures viewed { AreViewed (chunk_lists self.now) (chunk_view_arrays self.now) }
    {
        for_chunks!(self, chunks => chunks.len())
    }

    /// The number of values of all chunks.
    pub fn rows(&self) -> usize
        requires { length (concatenation (chunk_lists self.now)) < 2 ^ 64 }
        ensures { result ≡ length (concatenation (chunk_lists self.now)) }
    {
        for_chunks!(self, chunks => rows_in(chunks))
    }

    /// The number of nulls of all chunks.
    pub fn nulls(&self) -> usize
        requires { length (concatenation (chunk_lists self.now)) < 2 ^ 64 }
        ensures { result ≡ length (nulls (concatenation (chunk_lists self.now))) }
    {
        for_chunks!(self, chunks => nulls_in(chunks))
    }

    /// The number of values of a chunk.
    pub fn rows_of(&self, chunk: usize) -> usize
        requires { chunk < length (chunk_lists self.now) }
        ensures { result ≡ length (get_or (chunk_lists self.now) chunk []) }
    {
        for_chunks!(self, chunks => chunks[chunk].len())
    }

    /// The value of a row, counted through all chunks.
    pub fn value(&self, row: usize) -> ValueRef<'_>
        requires { row < length (concatenation (chunk_lists self.now)) }
        ensures value { lent_value result ≡ get_or (concatenation (chunk_lists self.now)) row null }
        ensures text { IsText result }
    {
        for_chunks!(self, chunks => value_in(chunks, row))
    }

    /// Chunks of the same values.
    pub fn copy(&self, alloc: Global) -> Result<Chunks, OutOfMemory>
        ensures lists { IfOk result (λ c. chunk_lists c ≡ chunk_lists self.now) }
        ensures storage { IfOk result (λ c. storage c ≡ storage self.now) }
        ensures view_arrays { IfOk result (λ c. chunk_view_arrays c ≡ chunk_view_arrays self.now) }
    {
        for_chunks!(self, chunks => copied(alloc, chunks))
    }
}
