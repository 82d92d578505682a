//! Chunks made of values.
ghost use Rattle.std.specs.Prelude.{◌≡◌, ◌≤◌, ◌↔◌, IfOk, IsTrue, length, map};
ghost use Rattle.std.specs.List.{All};
ghost use Rattle.tb_value.specs.See.{data_of};
ghost use Rattle.tb_value.specs.SeeKind.{kind_of};
ghost use Rattle.tb_value.specs.Promise.Typed.{HasType};
ghost use Rattle.tb_chunk.specs.Promise.Col.{concatenation};
ghost use Rattle.tb_cell.specs.Physical.{physical};
ghost use Rattle.tb_cell.specs.Fits.{Fits};
ghost use Rattle.tb_chunk.specs.Promise.Made.{at_least_one};
ghost use Rattle.tb_chunk.specs.Made.{lists_of};
ghost use Rattle.tb_chunk.specs.Promise.Fresh.{fresh_view_arrays};
ghost use Rattle.tb_chunk.specs.ChunkViewArrays.{chunk_view_arrays};
ghost use Rattle.tb_chunk.specs.Seen.{chunk_lists, storage};
ghost use Rattle.tb_chunk.specs.Stored.{AreMade};
ghost use Rattle.tb_view.specs.ViewArrays.{view_arrays_of, HaveFewBuffers};

use crate::chunk::{Chunk, StringChunk};
use crate::chunks::Chunks;
use crate::owned_chunks::{BinaryChunk, ListChunk, StructChunk};
use crate::stored::Stored;
use std::alloc::Global;
use tb_cell::Cells;
use tb_value::{
    AnyValue, ComputeCause, DataType, MAX_ROWS, OutOfMemory, PolarsError, PolarsResult,
};

#[tactic(auto, using(crate::proofs::Alls::all_next))]
fn are_of(dtype: &DataType, values: &[AnyValue]) -> bool
    ensures { IsTrue result ↔ All (HasType (kind_of dtype.now)) (data_of values.now) }
{
    for value in values {
        if !dtype.is_of(value) {
            return false;
        }
    }
    true
}

#[tactic(auto, using(crate::proofs::Alls::all_next_list))]
fn all_are_of(dtype: &DataType, chunks: &[Vec<AnyValue>]) -> bool
    ensures { IsTrue result ↔ All (HasType (kind_of dtype.now))
        (concatenation (lists_of chunks.now)) }
{
    for chunk in chunks {
        if !are_of(dtype, chunk) {
            return false;
        }
    }
    true
}

// Whether there are few enough values.
#[tactic(auto, using(crate::proofs::Lists::flat_drop))]
fn is_short(chunks: &[Vec<AnyValue>]) -> bool
    ensures { IsTrue result ↔ (length (concatenation (lists_of chunks.now)) ≤ MAX_ROWS) }
{
    let mut room = MAX_ROWS;
    for chunk in chunks {
        if chunk.len() > room {
            return false;
        }
        room -= chunk.len();
    }
    true
}

#[tactic(auto, using(crate::proofs::Alls::all_next_list))]
fn build<C: Chunk>(alloc: Global, lists: &[Vec<AnyValue>]) -> Result<Vec<C>, OutOfMemory>
    requires { All (Fits C.kind) (concatenation (lists_of lists.now)) }
    ensures shown { IfOk result (λ v. map C.shown v.items ≡ lists_of lists.now) }
    ensures view_arrays { IfOk result (λ v.
        view_arrays_of C.views C.buffers v.items ≡ fresh_view_arrays (lists_of lists.now)) }
{
    let mut chunks = Vec::with_capacity(alloc, lists.len())?;
    for list in lists {
        chunks.push(C::from_values(alloc, list)?)?;
    }
    Ok(chunks)
}

// The same, as those of a column.
fn build_stored<C: Stored>(alloc: Global, lists: &[Vec<AnyValue>]) -> Result<Chunks, OutOfMemory>
    requires { All (Fits C.kind) (concatenation (lists_of lists.now)) }
    ensures lists { IfOk result (λ c. chunk_lists c ≡ lists_of lists.now) }
    ensures storage { IfOk result (λ c. storage c ≡ C.kind) }
    ensures view_arrays { IfOk result (λ c.
        chunk_view_arrays c ≡ fresh_view_arrays (lists_of lists.now)) }
{
    Ok(C::wrap(build(alloc, lists)?))
}

fn build_chunks(
    alloc: Global,
    dtype: &DataType,
    lists: &[Vec<AnyValue>],
) -> Result<Chunks, OutOfMemory>
    requires { All (Fits (physical (kind_of dtype.now))) (concatenation (lists_of lists.now)) }
    ensures lists { IfOk result (λ c. chunk_lists c ≡ lists_of lists.now) }
    ensures storage { IfOk result (λ c. storage c ≡ physical (kind_of dtype.now)) }
    ensures view_arrays { IfOk result (λ c.
        chunk_view_arrays c ≡ fresh_view_arrays (lists_of lists.now)) }
{
    match dtype {
        DataType::Null => build_stored::<usize>(alloc, lists),
        DataType::Boolean => build_stored::<Cells<bool>>(alloc, lists),
        DataType::Int8 => build_stored::<Cells<i8>>(alloc, lists),
        DataType::Int16 => build_stored::<Cells<i16>>(alloc, lists),
        DataType::Int32 | DataType::Date => build_stored::<Cells<i32>>(alloc, lists),
        DataType::Int64 | DataType::Datetime(_, _) | DataType::Duration(_) | DataType::Time =>
            build_stored::<Cells<i64>>(alloc, lists),
        DataType::Int128 => build_stored::<Cells<i128>>(alloc, lists),
        DataType::UInt8 => build_stored::<Cells<u8>>(alloc, lists),
        DataType::UInt16 => build_stored::<Cells<u16>>(alloc, lists),
        DataType::UInt32 => build_stored::<Cells<u32>>(alloc, lists),
        DataType::UInt64 => build_stored::<Cells<u64>>(alloc, lists),
        DataType::String => build_stored::<StringChunk>(alloc, lists),
        DataType::Binary => build_stored::<BinaryChunk>(alloc, lists),
        DataType::List(_) => build_stored::<ListChunk>(alloc, lists),
        DataType::Struct(_) => build_stored::<StructChunk>(alloc, lists),
    }
}

// No chunk at all makes one empty chunk.
fn or_one_empty(
    alloc: Global,
    chunks: Vec<Vec<AnyValue>>,
) -> Result<Vec<Vec<AnyValue>>, OutOfMemory>
    ensures { IfOk result (λ v. lists_of v.items ≡ at_least_one (lists_of chunks.items)) }
{
    if !chunks.is_empty() {
        return Ok(chunks);
    }
    let mut one = Vec::new(alloc);
    one.push(Vec::new(alloc))?;
    Ok(one)
}

impl Chunks {
    /// The chunks of these lists of values, stored as the type asks. No list at all makes one empty
    /// chunk.
    ///
    /// # Errors
    ///
    /// 1 SchemaMismatch where a value is not of the type, 2 TooManyRows where the values number more
    /// than `MAX_ROWS`, and OutOfMemory.
    #[tactic(auto, using(crate::proofs::Fitting::fitting))]
    pub fn from_lists(
        alloc: Global,
        dtype: &DataType,
        lists: Vec<Vec<AnyValue>>,
    ) -> PolarsResult<Chunks>
        ensures few { IfOk result (λ c. HaveFewBuffers (chunk_view_arrays c)) }
        ensures made { AreMade (kind_of dtype.now) (physical (kind_of dtype.now))
            (lists_of lists.items) (fresh_view_arrays (lists_of lists.items)) result }
    {
        if !all_are_of(dtype, &lists) {
            return Err(PolarsError::SchemaMismatch);
        }
        if !is_short(&lists) {
            return Err(PolarsError::ComputeError(ComputeCause::TooManyRows));
        }
        let lists = or_one_empty(alloc, lists)?;
        Ok(build_chunks(alloc, dtype, &lists)?)
    }
}
