//! Typed chunks, read from JSON.
ghost use Rattle.std.specs.Prelude.{◌≡◌, [], ◌∷◌, map, replicate, option_map, IfOk, IfSome, is_some};
ghost use Rattle.std.specs.List.{All, list_all};
ghost use Rattle.serde_json.specs.Find.{as_null};
ghost use Rattle.tb_tree.specs.View.{view, item_view, listed};
ghost use Rattle.tb_value.specs.Promise.Datum.{null};
ghost use Rattle.tb_value.specs.Promise.Kind.{Kind};
ghost use Rattle.tb_value.specs.Promise.Kind as kind;
ghost use Rattle.tb_value.specs.SeeKind.{kind_of};
ghost use Rattle.tb_value.specs.Promise.Typed.{HasType};
ghost use Rattle.tb_chunk.specs.Chunk.{or_null};
ghost use Rattle.tb_chunk.specs.Col.{physical};
ghost use Rattle.tb_chunk.specs.Made.{IsTyped};
ghost use Rattle.tb_chunk.specs.RunLayout.{expansion, total_of};
ghost use Rattle.tb_chunk.specs.Seen.{chunk_lists, storage};
ghost use Rattle.tb_json.specs.Promise.Lists.{each, list_in};
ghost use Rattle.tb_json.specs.Promise.Cells.{cell_in, run_in};
ghost use Rattle.tb_json.specs.Runs.{lists_in, run_view, values_in_runs, AreCounted};

use crate::read_cell::ReadCell;
use crate::read_runs::{run_bytes, run_cells, run_nulls, run_texts};
use crate::read_texts::{bytes_chunk, text_chunk};
use std::alloc::Global;
use tb_store::{
    BinaryChunk, Cells, Chunk, Chunks, ListChunk, Physical, Stored, StringChunk, StructChunk,
    physical_of,
};
use tb_tree::{Item, Items, Value};
use tb_value::{DataType, OutOfMemory};

/// A value that may be null, or None where it is none of the type.
pub(crate) fn cell_of<N: ReadCell>(
    alloc: Global,
    dtype: &DataType,
    item: Item<'_>,
) -> Result<Option<Option<N>>, OutOfMemory>
    requires { physical (kind_of dtype.now) ≡ N.stored }
    ensures value { IfOk result (λ o.
        option_map (or_null N.shows) o ≡ cell_in (kind_of dtype.now) (item_view item.entry)) }
    ensures typed { IfOk result (λ o.
        IfSome o (λ c. HasType (kind_of dtype.now) (or_null N.shows c))) }
{
    if item.is_null() {
        return Ok(Some(None));
    }
    match N::read(alloc, dtype, item)? {
        Some(cell) => Ok(Some(Some(cell))),
        None => Ok(None),
    }
}

fn cells_of<N: ReadCell>(
    alloc: Global,
    dtype: &DataType,
    items: Items<'_>,
) -> Result<Option<Cells<N>>, OutOfMemory>
    requires { physical (kind_of dtype.now) ≡ N.stored }
    ensures cells { IfOk result (λ o. option_map (λ c. map (or_null N.shows) c) o
        ≡ each (cell_in (kind_of dtype.now)) (listed items.entry)) }
    ensures typed { IfOk result (λ o. IfSome o
        (λ c. All (HasType (kind_of dtype.now)) (map (or_null N.shows) c))) }
{
    let len = items.len();
    let mut cells = Cells::with_capacity(alloc, len)?;
    for i in 0..len {
        let Some(cell) = cell_of(alloc, dtype, items.at(i))? else {
            return Ok(None);
        };
        cells.push(cell)?;
    }
    Ok(Some(cells))
}

fn are_null(items: Items<'_>) -> bool
    ensures { result ≡ list_all (λ d. is_some (as_null d)) (listed items.entry) }
{
    for i in 0..items.len() {
        if !items.at(i).is_null() {
            return false;
        }
    }
    true
}

// The number of nulls, where all values are null.
fn nulls_of(items: Items<'_>) -> Option<usize>
    ensures { option_map (λ n. replicate n null) result
        ≡ each (cell_in kind.null) (listed items.entry) }
{
    if are_null(items) {
        Some(items.len())
    } else {
        None
    }
}

/// A chunk of a column, read from JSON. `stored` is the type that its values are stored as.
trait ReadChunk: Chunk {
    ghost stored: { Kind };

    /// The chunk of these values, or None where one of them is none of the type.
    fn read(alloc: Global, dtype: &DataType, items: Items<'_>) -> Result<Option<Self>, OutOfMemory>
        requires { physical (kind_of dtype.now) ≡ stored }
        ensures values { IfOk result (λ o. option_map Self.shown o
            ≡ each (cell_in (kind_of dtype.now)) (listed items.entry)) }
        ensures typed { IfOk result (λ o. IfSome o (λ c. All (HasType (kind_of dtype.now)) (Self.shown c))) };

    /// The chunk of these runs, which have so many rows, or None where one of their values is none of the type.
    fn read_runs(
        alloc: Global,
        dtype: &DataType,
        runs: &[Value],
        rows: usize,
    ) -> Result<Option<Self>, OutOfMemory>
        requires stored { physical (kind_of dtype.now) ≡ stored }
        requires rows { rows ≡ total_of (map run_view runs.now) }
        ensures values { IfOk result (λ o. option_map Self.shown o
            ≡ values_in_runs (kind_of dtype.now) (map run_view runs.now)) }
        ensures typed { IfOk result (λ o. IfSome o (λ c. All (HasType (kind_of dtype.now)) (Self.shown c))) };
}

impl<N: ReadCell> ReadChunk for Cells<N> {
    ghost stored = { N.stored };

    fn read(
        alloc: Global,
        dtype: &DataType,
        items: Items<'_>,
    ) -> Result<Option<Cells<N>>, OutOfMemory> {
        cells_of(alloc, dtype, items)
    }

    fn read_runs(
        alloc: Global,
        dtype: &DataType,
        runs: &[Value],
        rows: usize,
    ) -> Result<Option<Cells<N>>, OutOfMemory> {
        run_cells(alloc, dtype, runs, rows)
    }
}

impl ReadChunk for StringChunk {
    ghost stored = { kind.string };

    fn read(
        alloc: Global,
        dtype: &DataType,
        items: Items<'_>,
    ) -> Result<Option<StringChunk>, OutOfMemory> {
        text_chunk(alloc, items)
    }

    fn read_runs(
        alloc: Global,
        dtype: &DataType,
        runs: &[Value],
        rows: usize,
    ) -> Result<Option<StringChunk>, OutOfMemory> {
        run_texts(alloc, runs, rows)
    }
}

impl ReadChunk for BinaryChunk {
    ghost stored = { kind.binary };

    fn read(
        alloc: Global,
        dtype: &DataType,
        items: Items<'_>,
    ) -> Result<Option<BinaryChunk>, OutOfMemory> {
        bytes_chunk(alloc, items)
    }

    fn read_runs(
        alloc: Global,
        dtype: &DataType,
        runs: &[Value],
        rows: usize,
    ) -> Result<Option<BinaryChunk>, OutOfMemory> {
        run_bytes(alloc, runs, rows)
    }
}

impl ReadChunk for ListChunk {
    ghost stored = { kind.list kind.null };

    fn read(
        alloc: Global,
        dtype: &DataType,
        items: Items<'_>,
    ) -> Result<Option<ListChunk>, OutOfMemory> {
        match cells_of(alloc, dtype, items)? {
            Some(inner) => Ok(Some(ListChunk { inner })),
            None => Ok(None),
        }
    }

    fn read_runs(
        alloc: Global,
        dtype: &DataType,
        runs: &[Value],
        rows: usize,
    ) -> Result<Option<ListChunk>, OutOfMemory> {
        match run_cells(alloc, dtype, runs, rows)? {
            Some(inner) => Ok(Some(ListChunk { inner })),
            None => Ok(None),
        }
    }
}

impl ReadChunk for StructChunk {
    ghost stored = { kind.struct kind.end };

    fn read(
        alloc: Global,
        dtype: &DataType,
        items: Items<'_>,
    ) -> Result<Option<StructChunk>, OutOfMemory> {
        match cells_of(alloc, dtype, items)? {
            Some(inner) => Ok(Some(StructChunk { inner })),
            None => Ok(None),
        }
    }

    fn read_runs(
        alloc: Global,
        dtype: &DataType,
        runs: &[Value],
        rows: usize,
    ) -> Result<Option<StructChunk>, OutOfMemory> {
        match run_cells(alloc, dtype, runs, rows)? {
            Some(inner) => Ok(Some(StructChunk { inner })),
            None => Ok(None),
        }
    }
}

impl ReadChunk for usize {
    ghost stored = { kind.null };

    fn read(
        alloc: Global,
        dtype: &DataType,
        items: Items<'_>,
    ) -> Result<Option<usize>, OutOfMemory> {
        Ok(nulls_of(items))
    }

    fn read_runs(
        alloc: Global,
        dtype: &DataType,
        runs: &[Value],
        rows: usize,
    ) -> Result<Option<usize>, OutOfMemory> {
        Ok(run_nulls(runs, rows))
    }
}

// The values of an array, and none of any other value.
fn items_of(value: &Value) -> Items<'_>
    ensures { listed result ≡ list_in (view value.now) }
{
    match value.as_array() {
        Some(items) => items,
        None => Items::Values(&[]),
    }
}

fn chunks_of<C: ReadChunk>(
    alloc: Global,
    dtype: &DataType,
    written: &[Value],
) -> Result<Option<Vec<C>>, OutOfMemory>
    requires { physical (kind_of dtype.now) ≡ C.stored }
    ensures chunks { IfOk result (λ o. option_map (λ v. map C.shown v.items) o
        ≡ each (each (cell_in (kind_of dtype.now))) (map (λ v. list_in (view v)) written.now)) }
    ensures typed { IfOk result (λ o.
        IfSome o (λ v. IsTyped (kind_of dtype.now) (map C.shown v.items))) }
{
    let mut chunks = Vec::with_capacity(alloc, written.len())?;
    for value in written {
        let Some(chunk) = C::read(alloc, dtype, items_of(value))? else {
            return Ok(None);
        };
        chunks.push(chunk)?;
    }
    Ok(Some(chunks))
}

// The only chunk, of these runs.
fn chunk_of_runs<C: ReadChunk>(
    alloc: Global,
    dtype: &DataType,
    runs: &[Value],
    rows: usize,
) -> Result<Option<Vec<C>>, OutOfMemory>
    requires stored { physical (kind_of dtype.now) ≡ C.stored }
    requires rows { rows ≡ total_of (map run_view runs.now) }
    ensures chunks { IfOk result (λ o. option_map (λ v. map C.shown v.items) o
        ≡ option_map (λ vs. expansion vs ∷ []) (each (run_in (kind_of dtype.now)) (map run_view runs.now))) }
    ensures typed { IfOk result (λ o.
        IfSome o (λ v. IsTyped (kind_of dtype.now) (map C.shown v.items))) }
{
    let Some(chunk) = C::read_runs(alloc, dtype, runs, rows)? else {
        return Ok(None);
    };
    let mut chunks = Vec::with_capacity(alloc, 1)?;
    chunks.push(chunk)?;
    Ok(Some(chunks))
}

/// The values of a column, as they are written.
#[derive(Clone, Copy)]
enum LentLists<'v> {
    /// Chunks, each of which is an array.
    Chunks(&'v [Value]),
    /// The runs of one chunk, and how many rows they have.
    Runs(&'v [Value], usize),
}

fn read_lists<C: ReadChunk>(
    alloc: Global,
    dtype: &DataType,
    written: LentLists<'_>,
) -> Result<Option<Vec<C>>, OutOfMemory>
    requires stored { physical (kind_of dtype.now) ≡ C.stored }
    requires counted { AreCounted written }
    ensures chunks { IfOk result (λ o.
        option_map (λ v. map C.shown v.items) o ≡ lists_in (kind_of dtype.now) written.entry) }
    ensures typed { IfOk result (λ o.
        IfSome o (λ v. IsTyped (kind_of dtype.now) (map C.shown v.items))) }
{
    match written {
        LentLists::Chunks(chunks) => chunks_of(alloc, dtype, chunks),
        LentLists::Runs(runs, rows) => chunk_of_runs(alloc, dtype, runs, rows),
    }
}

// The same, as those of a column.
fn read_stored<C: ReadChunk + Stored>(
    alloc: Global,
    dtype: &DataType,
    written: LentLists<'_>,
) -> Result<Option<Chunks>, OutOfMemory>
    requires stored { physical (kind_of dtype.now) ≡ C.stored }
    requires counted { AreCounted written }
    ensures chunks { IfOk result (λ o.
        option_map chunk_lists o ≡ lists_in (kind_of dtype.now) written.entry) }
    ensures typed { IfOk result (λ o. IfSome o (λ c. IsTyped (kind_of dtype.now) (chunk_lists c))) }
    ensures stored { IfOk result (λ o. IfSome o (λ c. storage c ≡ C.kind)) }
{
    match read_lists::<C>(alloc, dtype, written)? {
        Some(chunks) => Ok(Some(C::wrap(chunks))),
        None => Ok(None),
    }
}

fn stored_in(
    alloc: Global,
    dtype: &DataType,
    written: LentLists<'_>,
) -> Result<Option<Chunks>, OutOfMemory>
    requires { AreCounted written }
    ensures chunks { IfOk result (λ o.
        option_map chunk_lists o ≡ lists_in (kind_of dtype.now) written.entry) }
    ensures typed { IfOk result (λ o. IfSome o (λ c. IsTyped (kind_of dtype.now) (chunk_lists c))) }
    ensures stored { IfOk result (λ o. IfSome o (λ c. storage c ≡ physical (kind_of dtype.now))) }
{
    match physical_of(dtype) {
        Physical::Null => read_stored::<usize>(alloc, dtype, written),
        Physical::Boolean => read_stored::<Cells<bool>>(alloc, dtype, written),
        Physical::Int8 => read_stored::<Cells<i8>>(alloc, dtype, written),
        Physical::Int16 => read_stored::<Cells<i16>>(alloc, dtype, written),
        Physical::Int32 => read_stored::<Cells<i32>>(alloc, dtype, written),
        Physical::Int64 => read_stored::<Cells<i64>>(alloc, dtype, written),
        Physical::Int128 => read_stored::<Cells<i128>>(alloc, dtype, written),
        Physical::UInt8 => read_stored::<Cells<u8>>(alloc, dtype, written),
        Physical::UInt16 => read_stored::<Cells<u16>>(alloc, dtype, written),
        Physical::UInt32 => read_stored::<Cells<u32>>(alloc, dtype, written),
        Physical::UInt64 => read_stored::<Cells<u64>>(alloc, dtype, written),
        Physical::String => read_stored::<StringChunk>(alloc, dtype, written),
        Physical::Binary => read_stored::<BinaryChunk>(alloc, dtype, written),
        Physical::List => read_stored::<ListChunk>(alloc, dtype, written),
        Physical::Struct => read_stored::<StructChunk>(alloc, dtype, written),
    }
}

/// The chunks of a column, each of which is an array, or None where a value is none of the type.
pub fn arrays_in(
    alloc: Global,
    dtype: &DataType,
    written: &[Value],
) -> Result<Option<Chunks>, OutOfMemory>
    ensures chunks { IfOk result (λ o. option_map chunk_lists o
        ≡ each (each (cell_in (kind_of dtype.now))) (map (λ v. list_in (view v)) written.now)) }
    ensures typed { IfOk result (λ o. IfSome o (λ c. IsTyped (kind_of dtype.now) (chunk_lists c))) }
    ensures stored { IfOk result (λ o. IfSome o (λ c. storage c ≡ physical (kind_of dtype.now))) }
{
    stored_in(alloc, dtype, LentLists::Chunks(written))
}

/// The only chunk of a column whose values stand in runs, arrays of a value and its count, which have so many rows together;
/// or None where a value is none of the type. A text stands in the chunk once for each run.
pub fn run_array_in(
    alloc: Global,
    dtype: &DataType,
    runs: &[Value],
    rows: usize,
) -> Result<Option<Chunks>, OutOfMemory>
    requires { rows ≡ total_of (map run_view runs.now) }
    ensures chunks { IfOk result (λ o. option_map chunk_lists o
        ≡ option_map (λ vs. expansion vs ∷ []) (each (run_in (kind_of dtype.now)) (map run_view runs.now))) }
    ensures typed { IfOk result (λ o. IfSome o (λ c. IsTyped (kind_of dtype.now) (chunk_lists c))) }
    ensures stored { IfOk result (λ o. IfSome o (λ c. storage c ≡ physical (kind_of dtype.now))) }
{
    stored_in(alloc, dtype, LentLists::Runs(runs, rows))
}
