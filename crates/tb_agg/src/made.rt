//! The chunks of columns of numbers that were counted or summed.
ghost use Rattle.std.specs.Prelude.{◌≡◌, ◌∷◌, [], IfOk, MatchOption, Some, true, false, length, map, pos};
ghost use Rattle.tb_value.specs.Promise.Datum.{int};
ghost use Rattle.tb_value.specs.Promise.Kind as kind;
ghost use Rattle.tb_value.specs.See.{datum};
ghost use Rattle.tb_value.specs.SeeKind.{kind_of};
ghost use Rattle.tb_value.specs.Promise.Typed.{HasType};
ghost use Rattle.tb_cell.specs.Physical.{physical};
ghost use Rattle.tb_chunk.specs.Seen.{chunk_lists, storage};
ghost use Rattle.tb_agg.specs.Promise.Aggregates.{sum_kind};
ghost use Rattle.tb_agg.specs.Promise.Outcome.{are_in_range};
ghost use Rattle.tb_agg.specs.Running.{sum_so_far};
ghost use Rattle.tb_agg.specs.Sums.{shown_sums};

use crate::running::{Running, exact};
use crate::sums::Sums;
use std::alloc::Global;
use tb_store::{Cell, Cells, Chunk, Chunks, Stored};
use tb_value::{AnyValue, DataType, IdxSize, OutOfMemory, ValueRef};

// The only chunk.
fn one_chunk<C: Drop>(alloc: Global, chunk: C) -> Result<Vec<C>, OutOfMemory>
    ensures { IfOk result (λ v. v.items ≡ chunk ∷ []) }
{
    let mut chunks = Vec::with_capacity(alloc, 1)?;
    chunks.push(chunk)?;
    Ok(chunks)
}

// The chunk of counts, as that of a column.
pub(crate) fn count_chunks(alloc: Global, counts: Vec<IdxSize>) -> Result<Chunks, OutOfMemory>
    ensures lists { IfOk result (λ c.
        chunk_lists c ≡ map (λ n. int (pos n)) counts.items ∷ []) }
    ensures storage { IfOk result (λ c. storage c ≡ kind.uint32) }
{
    let cells = Cells::from_vec(alloc, counts);
    Ok(Chunks::UInt32Type(one_chunk(alloc, cells)?))
}

// The sum, where it is a number of the type.
fn sum_value(dtype: &DataType, sum: Running) -> Option<AnyValue>
    ensures { MatchOption result (¬ HasType (kind_of dtype.now) (int (sum_so_far sum))) (λ v.
        (datum v ≡ int (sum_so_far sum)) × HasType (kind_of dtype.now) (datum v)) }
{
    match exact(sum) {
        Some(sum) if dtype.is_of_ref(ValueRef::Int(sum)) => Some(AnyValue::Int(sum)),
        _ => None,
    }
}

// The sums as they are stored, where they are numbers of the type.
fn sum_cells<N: Cell>(
    alloc: Global,
    dtype: &DataType,
    sums: &Sums,
) -> Result<Option<Vec<N>>, OutOfMemory>
    requires { physical (kind_of dtype.now) ≡ N.kind }
    ensures { IfOk result (λ o. MatchOption o
        (are_in_range (Some (kind_of dtype.now)) (shown_sums sums.now) ≡ false)
        (λ v. (are_in_range (Some (kind_of dtype.now)) (shown_sums sums.now) ≡ true)
        × (map N.shows v.items ≡ map int (shown_sums sums.now)))) }
{
    let mut cells = Vec::with_capacity(alloc, sums.len())?;
    for place in 0..sums.len() {
        match sum_value(dtype, sums.get(place)) {
            Some(value) => cells.push(N::from_value(alloc, &value)?)?,
            None => return Ok(None),
        }
    }
    Ok(Some(cells))
}

/// A chunk of sums.
trait SumChunk: Chunk {
    /// The chunk of these sums, where they are numbers of the type.
    fn of_sums(alloc: Global, dtype: &DataType, sums: &Sums) -> Result<Option<Self>, OutOfMemory>
        requires { physical (kind_of dtype.now) ≡ Self.kind }
        ensures { IfOk result (λ o. MatchOption o
            (are_in_range (Some (kind_of dtype.now)) (shown_sums sums.now) ≡ false)
            (λ c. (are_in_range (Some (kind_of dtype.now)) (shown_sums sums.now) ≡ true)
            × (Self.shown c ≡ map int (shown_sums sums.now)))) };
}

impl<N: Cell> SumChunk for Cells<N> {
    fn of_sums(
        alloc: Global,
        dtype: &DataType,
        sums: &Sums,
    ) -> Result<Option<Cells<N>>, OutOfMemory> {
        match sum_cells(alloc, dtype, sums)? {
            Some(cells) => Ok(Some(Cells::from_vec(alloc, cells))),
            None => Ok(None),
        }
    }
}

// The one chunk of sums, as that of a column.
fn stored_sums<C: SumChunk + Stored>(
    alloc: Global,
    dtype: &DataType,
    sums: &Sums,
) -> Result<Option<Chunks>, OutOfMemory>
    requires { physical (kind_of dtype.now) ≡ C.kind }
    ensures { IfOk result (λ o. MatchOption o
        (are_in_range (Some (kind_of dtype.now)) (shown_sums sums.now) ≡ false)
        (λ c. (are_in_range (Some (kind_of dtype.now)) (shown_sums sums.now) ≡ true)
        × (storage c ≡ C.kind)
        × (chunk_lists c ≡ map int (shown_sums sums.now) ∷ []))) }
{
    match C::of_sums(alloc, dtype, sums)? {
        Some(chunk) => Ok(Some(C::wrap(one_chunk(alloc, chunk)?))),
        None => Ok(None),
    }
}

// The chunk of sums, as that of a column of a type of sums, and none where a sum is outside the range of the type.
pub(crate) fn sum_chunks(
    alloc: Global,
    dtype: &DataType,
    sums: &Sums,
) -> Result<Option<Chunks>, OutOfMemory>
    requires { sum_kind (kind_of dtype.now) ≡ Some (kind_of dtype.now) }
    ensures { IfOk result (λ o. MatchOption o
        (are_in_range (Some (kind_of dtype.now)) (shown_sums sums.now) ≡ false)
        (λ c. (are_in_range (Some (kind_of dtype.now)) (shown_sums sums.now) ≡ true)
        × (storage c ≡ physical (kind_of dtype.now))
        × (chunk_lists c ≡ map int (shown_sums sums.now) ∷ []))) }
{
    match dtype {
        DataType::Int32 => stored_sums::<Cells<i32>>(alloc, dtype, sums),
        DataType::Int64 | DataType::Duration(_) => stored_sums::<Cells<i64>>(alloc, dtype, sums),
        DataType::Int128 => stored_sums::<Cells<i128>>(alloc, dtype, sums),
        DataType::UInt32 => stored_sums::<Cells<u32>>(alloc, dtype, sums),
        DataType::UInt64 => stored_sums::<Cells<u64>>(alloc, dtype, sums),
        DataType::Null
        | DataType::Boolean
        | DataType::Int8
        | DataType::Int16
        | DataType::UInt8
        | DataType::UInt16
        | DataType::String
        | DataType::Binary
        | DataType::Date
        | DataType::Datetime(_, _)
        | DataType::Time
        | DataType::List(_)
        | DataType::Struct(_) => unreachable!(),
    }
}
