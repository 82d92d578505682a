//! Typed chunks, looked at before a column is made of them.
ghost use Rattle.std.specs.Prelude.{◌≡◌, ◌↔◌, IfOk, IsTrue, map};
ghost use Rattle.std.specs.List.{All};
ghost use Rattle.tb_value.specs.SeeKind.{kind_of};
ghost use Rattle.tb_value.specs.Promise.Typed.{HasType};
ghost use Rattle.tb_cell.specs.Physical.{physical};
ghost use Rattle.tb_chunk.specs.Promise.Made.{at_least_one};
ghost use Rattle.tb_chunk.specs.Made.{IsTyped, IsShort};
ghost use Rattle.tb_cell.specs.Physical.{kind_for};
ghost use Rattle.tb_chunk.specs.Fresh.{or_one_view_array};
ghost use Rattle.tb_chunk.specs.ChunkViewArrays.{chunk_view_arrays};
ghost use Rattle.tb_chunk.specs.Seen.{chunk_lists, storage};
ghost use Rattle.tb_chunk.specs.Stored.{AreMade};
ghost use Rattle.tb_view.specs.ViewArrays.{view_arrays_of, HaveFewBuffers};

use crate::chunk::Chunk;
use crate::chunks::Chunks;
use crate::each::for_chunks;
use crate::stored::Stored;
use std::alloc::Global;
use tb_cell::Physical;
use tb_value::{ComputeCause, DataType, MAX_ROWS, OutOfMemory, PolarsError, PolarsResult};

fn is_chunk_of<C: Chunk>(dtype: &DataType, chunk: &C) -> bool
    ensures { IsTrue result ↔ All (HasType (kind_of dtype.now)) (C.shown chunk.now) }
{
    for row in 0..chunk.len() {
        if !dtype.is_of_ref(chunk.value(row)) {
            return false;
        }
    }
    true
}

fn are_chunks_of<C: Chunk>(dtype: &DataType, chunks: &[C]) -> bool
    ensures { IsTrue result ↔ IsTyped (kind_of dtype.now) (map C.shown chunks.now) }
{
    for chunk in chunks {
        if !is_chunk_of(dtype, chunk) {
            return false;
        }
    }
    true
}

// Whether there are few enough values.
#[tactic(auto, using(crate::proofs::Lists::flat_drop))]
fn are_few<C: Chunk>(chunks: &[C]) -> bool
    ensures { IsTrue result ↔ IsShort (map C.shown chunks.now) }
{
    let mut room = MAX_ROWS;
    for chunk in chunks {
        let rows = chunk.len();
        if rows > room {
            return false;
        }
        room -= rows;
    }
    true
}

// Whether all buffers are few enough for their numbers.
#[tactic(auto, using(crate::proofs::Few::buffers_drop))]
fn have_few_buffers<C: Chunk>(chunks: &[C]) -> bool
    ensures { IsTrue result ↔ HaveFewBuffers (view_arrays_of C.views C.buffers chunks.now) }
{
    let mut room = u32::MAX as usize;
    for chunk in chunks {
        let buffers = chunk.buffer_count();
        if buffers > room {
            return false;
        }
        room -= buffers;
    }
    true
}

// No chunk at all makes one empty chunk.
fn or_empty<C: Chunk>(alloc: Global, chunks: Vec<C>) -> Result<Vec<C>, OutOfMemory>
    ensures shown { IfOk result (λ v.
        map C.shown v.items ≡ at_least_one (map C.shown chunks.items)) }
    ensures view_arrays { IfOk result (λ v.
        view_arrays_of C.views C.buffers v.items
        ≡ or_one_view_array (view_arrays_of C.views C.buffers chunks.items)) }
{
    if !chunks.is_empty() {
        return Ok(chunks);
    }
    let mut one = Vec::new(alloc);
    one.push(C::empty(alloc))?;
    Ok(one)
}

// One or more chunks of values that are of the type, few enough.
fn within_limits<C: Stored>(
    alloc: Global,
    _dtype: &DataType,
    chunks: Vec<C>,
) -> PolarsResult<Chunks>
    requires typed { IsTyped (kind_of _dtype.now) (map C.shown chunks.items) }
    ensures made { AreMade (kind_of _dtype.now) C.kind (map C.shown chunks.items)
        (view_arrays_of C.views C.buffers chunks.items) result }
    ensures few { IfOk result (λ c. HaveFewBuffers (chunk_view_arrays c)) }
{
    if !are_few(&chunks) {
        return Err(PolarsError::ComputeError(ComputeCause::TooManyRows));
    }
    if !have_few_buffers(&chunks) {
        return Err(PolarsError::OutOfMemory);
    }
    Ok(C::wrap(or_empty(alloc, chunks)?))
}

// The same of values that may be of another type.
fn checked<C: Stored>(alloc: Global, dtype: &DataType, chunks: Vec<C>) -> PolarsResult<Chunks>
    ensures made { AreMade (kind_of dtype.now) C.kind (map C.shown chunks.items)
        (view_arrays_of C.views C.buffers chunks.items) result }
    ensures few { IfOk result (λ c. HaveFewBuffers (chunk_view_arrays c)) }
{
    if !are_chunks_of(dtype, &chunks) {
        return Err(PolarsError::SchemaMismatch);
    }
    within_limits(alloc, dtype, chunks)
}

impl Chunks {
    /// The type by which the values are stored.
    pub fn physical(&self) -> Physical
        ensures { kind_for result ≡ storage self.now }
    {
        match self {
            Chunks::BooleanType(_) => Physical::Boolean,
            Chunks::Int8Type(_) => Physical::Int8,
            Chunks::Int16Type(_) => Physical::Int16,
            Chunks::Int32Type(_) => Physical::Int32,
            Chunks::Int64Type(_) => Physical::Int64,
            Chunks::Int128Type(_) => Physical::Int128,
            Chunks::UInt8Type(_) => Physical::UInt8,
            Chunks::UInt16Type(_) => Physical::UInt16,
            Chunks::UInt32Type(_) => Physical::UInt32,
            Chunks::UInt64Type(_) => Physical::UInt64,
            Chunks::StringType(_) => Physical::String,
            Chunks::BinaryType(_) => Physical::Binary,
            Chunks::ListType(_) => Physical::List,
            Chunks::StructType(_) => Physical::Struct,
            Chunks::Null(_) => Physical::Null,
        }
    }

    /// Whether the buffers of all chunks are few enough for their numbers, fewer than 2^32.
    pub fn has_few_buffers(&self) -> bool
        ensures { IsTrue result ↔ HaveFewBuffers (chunk_view_arrays self.now) }
    {
        for_chunks!(self, chunks => have_few_buffers(chunks))
    }

    /// The same chunks, for a column of the type. No chunk at all becomes one empty chunk.
    ///
    /// # Errors
    ///
    /// 1 SchemaMismatch where a value is not of the type, 2 TooManyRows where the values number more
    /// than `MAX_ROWS`, and OutOfMemory, which stands for 2^32 buffers or more too.
    pub fn checked(self, alloc: Global, dtype: &DataType) -> PolarsResult<Chunks>
        ensures few { IfOk result (λ c. HaveFewBuffers (chunk_view_arrays c)) }
        ensures made { AreMade (kind_of dtype.now) (storage self) (chunk_lists self)
            (chunk_view_arrays self) result }
    {
        for_chunks!(self, arrays => checked(alloc, dtype, arrays))
    }

    /// The same of chunks whose values are known to be of the type: none of them is looked at.
    ///
    /// # Errors
    ///
    /// TooManyRows where the values number more than `MAX_ROWS`, and OutOfMemory, which stands for 2^32 buffers or more too.
    pub fn within_limits(self, alloc: Global, dtype: &DataType) -> PolarsResult<Chunks>
        requires typed { IsTyped (kind_of dtype.now) (chunk_lists self) }
        ensures few { IfOk result (λ c. HaveFewBuffers (chunk_view_arrays c)) }
        ensures made { AreMade (kind_of dtype.now) (storage self) (chunk_lists self)
            (chunk_view_arrays self) result }
    {
        for_chunks!(self, arrays => within_limits(alloc, dtype, arrays))
    }
}
