//! Chunks made of runs: values, each with a count that says how often it stands.
ghost use Rattle.std.specs.Prelude.{◌≡◌, ◌↔◌, ◌<◌, ◌≤◌, ◌++◌, ◌∷◌, [], IfOk, OnOk, IsTrue, MatchOption, length, map, replicate};
ghost use Rattle.std.specs.List.{All};
ghost use Rattle.tb_value.specs.Promise.Datum.{Datum};
ghost use Rattle.tb_value.specs.See.{data_of, datum};
ghost use Rattle.tb_value.specs.SeeKind.{kind_of};
ghost use Rattle.tb_value.specs.Promise.Typed.{HasType};
ghost use Rattle.tb_cell.specs.Shown.{or_null};
ghost use Rattle.tb_cell.specs.Physical.{physical};
ghost use Rattle.tb_cell.specs.Fits.{Fits};
ghost use Rattle.tb_chunk.specs.Made.{IsShort, IsTyped};
ghost use Rattle.tb_chunk.specs.RunLayout.{AreFewRows, AreRunsOf, IsChunkOfRuns, expansion, total_of};
ghost use Rattle.tb_view.specs.RunViews.{data_runs, laid_runs, text_runs};
ghost use Rattle.tb_chunk.specs.ChunkViewArrays.{chunk_view_arrays};
ghost use Rattle.tb_chunk.specs.Seen.{chunk_lists, storage};

use crate::chunk::{Chunk, StringChunk};
use crate::chunks::Chunks;
use crate::owned_chunks::{BinaryChunk, ListChunk, StructChunk};
use crate::stored::Stored;
use std::alloc::Global;
use tb_cell::{Cell, Cells, cell_of, copy_cell};
use tb_value::{
    AnyValue, ComputeCause, DataType, MAX_ROWS, OutOfMemory, PolarsError, PolarsResult,
};
use tb_view::ViewChunk;

// A chunk that can be made of runs.
trait RunChunk: Chunk {
    // The chunk of these runs, which have so many rows. The text of a run is put once, and that of a run of no row isn't.
    fn from_runs(alloc: Global, runs: &[(AnyValue, u64)], rows: usize) -> Result<Self, OutOfMemory>
        requires fits { All (Fits Self.kind) (map (λ r. datum r.0) runs.now) }
        requires rows { rows ≡ total_of runs.now }
        ensures shown { IfOk result (λ c. Self.shown c ≡ expansion (data_runs runs.now)) }
        ensures views { IfOk result (λ c.
            Self.views c ≡ (laid_runs (text_runs (data_runs runs.now))).views) }
        ensures buffers { IfOk result (λ c. Self.buffers c ≡ (laid_runs (text_runs (data_runs runs.now))).buffers) };
}

// Appends a cell so many times.
fn push_cells<N: Cell>(
    alloc: Global,
    cells: &mut Cells<N>,
    cell: &Option<N>,
    times: u64,
) -> Result<(), OutOfMemory>
    ensures { OnOk result
        (map (or_null N.shows) cells.new
        ≡ map (or_null N.shows) cells.old ++ replicate times (or_null N.shows cell.now)) }
{
    for _ in 0..times {
        cells.push(copy_cell(alloc, cell.as_ref())?)?;
    }
    Ok(())
}

impl<N: Cell> RunChunk for Cells<N> {
    fn from_runs(
        alloc: Global,
        runs: &[(AnyValue, u64)],
        rows: usize,
    ) -> Result<Cells<N>, OutOfMemory> {
        let mut cells = Cells::with_capacity(alloc, rows)?;
        for (value, times) in runs {
            push_cells(alloc, &mut cells, &cell_of(alloc, value)?, *times)?;
        }
        Ok(cells)
    }
}

// Nulls alone.
impl RunChunk for usize {
    fn from_runs(
        alloc: Global,
        runs: &[(AnyValue, u64)],
        rows: usize,
    ) -> Result<usize, OutOfMemory> {
        Ok(rows)
    }
}

impl RunChunk for StringChunk {
    fn from_runs(
        alloc: Global,
        runs: &[(AnyValue, u64)],
        rows: usize,
    ) -> Result<StringChunk, OutOfMemory> {
        Ok(StringChunk {
            inner: ViewChunk::from_runs(alloc, runs, rows)?,
        })
    }
}

impl RunChunk for BinaryChunk {
    fn from_runs(
        alloc: Global,
        runs: &[(AnyValue, u64)],
        rows: usize,
    ) -> Result<BinaryChunk, OutOfMemory> {
        Ok(BinaryChunk {
            inner: ViewChunk::from_runs(alloc, runs, rows)?,
        })
    }
}

impl RunChunk for ListChunk {
    fn from_runs(
        alloc: Global,
        runs: &[(AnyValue, u64)],
        rows: usize,
    ) -> Result<ListChunk, OutOfMemory> {
        Ok(ListChunk {
            inner: Cells::from_runs(alloc, runs, rows)?,
        })
    }
}

impl RunChunk for StructChunk {
    fn from_runs(
        alloc: Global,
        runs: &[(AnyValue, u64)],
        rows: usize,
    ) -> Result<StructChunk, OutOfMemory> {
        Ok(StructChunk {
            inner: Cells::from_runs(alloc, runs, rows)?,
        })
    }
}

#[tactic(auto, using(crate::proofs::Alls::all_next))]
fn are_of(dtype: &DataType, runs: &[(AnyValue, u64)]) -> bool
    ensures { IsTrue result ↔ All (HasType (kind_of dtype.now)) (map (λ r. datum r.0) runs.now) }
{
    for (value, _) in runs {
        if !dtype.is_of(value) {
            return false;
        }
    }
    true
}

// The rows of all, none where they are more than a column can have. The counts are never added: they are taken from the room.
#[tactic(auto, using(crate::proofs::RunLayout::total_drop))]
fn rows_of_all(runs: &[(AnyValue, u64)]) -> Option<usize>
    ensures { MatchOption result (¬ AreFewRows runs.now) (λ n.
        (n ≡ total_of runs.now) × AreFewRows runs.now) }
{
    let mut room = MAX_ROWS as u64;
    for (_, times) in runs {
        room = room.checked_sub(*times)?;
    }
    Some(MAX_ROWS - room as usize)
}

// The only chunk, as that of a column.
fn build_run<C: RunChunk + Stored>(
    alloc: Global,
    runs: &[(AnyValue, u64)],
    rows: usize,
) -> Result<Chunks, OutOfMemory>
    requires fits { All (Fits C.kind) (map (λ r. datum r.0) runs.now) }
    requires rows { rows ≡ total_of runs.now }
    ensures lists { IfOk result (λ c. chunk_lists c ≡ expansion (data_runs runs.now) ∷ []) }
    ensures storage { IfOk result (λ c. storage c ≡ C.kind) }
    ensures view_arrays { IfOk result (λ c.
        chunk_view_arrays c ≡ laid_runs (text_runs (data_runs runs.now)) ∷ []) }
{
    let mut chunks = Vec::with_capacity(alloc, 1)?;
    chunks.push(C::from_runs(alloc, runs, rows)?)?;
    Ok(C::wrap(chunks))
}

fn build_runs(
    alloc: Global,
    dtype: &DataType,
    runs: &[(AnyValue, u64)],
    rows: usize,
) -> Result<Chunks, OutOfMemory>
    requires fits { All (Fits (physical (kind_of dtype.now))) (map (λ r. datum r.0) runs.now) }
    requires rows { rows ≡ total_of runs.now }
    ensures lists { IfOk result (λ c. chunk_lists c ≡ expansion (data_runs runs.now) ∷ []) }
    ensures storage { IfOk result (λ c. storage c ≡ physical (kind_of dtype.now)) }
    ensures view_arrays { IfOk result (λ c.
        chunk_view_arrays c ≡ laid_runs (text_runs (data_runs runs.now)) ∷ []) }
{
    match dtype {
        DataType::Null => build_run::<usize>(alloc, runs, rows),
        DataType::Boolean => build_run::<Cells<bool>>(alloc, runs, rows),
        DataType::Int8 => build_run::<Cells<i8>>(alloc, runs, rows),
        DataType::Int16 => build_run::<Cells<i16>>(alloc, runs, rows),
        DataType::Int32 | DataType::Date => build_run::<Cells<i32>>(alloc, runs, rows),
        DataType::Int64 | DataType::Datetime(_, _) | DataType::Duration(_) | DataType::Time =>
            build_run::<Cells<i64>>(alloc, runs, rows),
        DataType::Int128 => build_run::<Cells<i128>>(alloc, runs, rows),
        DataType::UInt8 => build_run::<Cells<u8>>(alloc, runs, rows),
        DataType::UInt16 => build_run::<Cells<u16>>(alloc, runs, rows),
        DataType::UInt32 => build_run::<Cells<u32>>(alloc, runs, rows),
        DataType::UInt64 => build_run::<Cells<u64>>(alloc, runs, rows),
        DataType::String => build_run::<StringChunk>(alloc, runs, rows),
        DataType::Binary => build_run::<BinaryChunk>(alloc, runs, rows),
        DataType::List(_) => build_run::<ListChunk>(alloc, runs, rows),
        DataType::Struct(_) => build_run::<StructChunk>(alloc, runs, rows),
    }
}

impl Chunks {
    /// The only chunk of these runs of values, stored as the type asks. A run of no row gives none, but its value has to be of
    /// the type. The text of a run stands once.
    ///
    /// # Errors
    ///
    /// 1 SchemaMismatch where a value is not of the type, 2 TooManyRows where the counts add up to more than `MAX_ROWS`, and
    /// OutOfMemory.
    pub fn from_runs(
        alloc: Global,
        dtype: &DataType,
        runs: &[(AnyValue, u64)],
    ) -> PolarsResult<Chunks>
        ensures typed { IfOk result (λ c. IsTyped (kind_of dtype.now) (chunk_lists c)) }
        ensures short { IfOk result (λ c. IsShort (chunk_lists c)) }
        ensures made { IsChunkOfRuns (kind_of dtype.now) (physical (kind_of dtype.now))
            (data_runs runs.now) result }
    {
        if !are_of(dtype, runs) {
            return Err(PolarsError::SchemaMismatch);
        }
        let Some(rows) = rows_of_all(runs) else {
            return Err(PolarsError::ComputeError(ComputeCause::TooManyRows));
        };
        Ok(build_runs(alloc, dtype, runs, rows)?)
    }
}
