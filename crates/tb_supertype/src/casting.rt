//! Columns whose values are cast to a type.
ghost use Rattle.std.specs.Prelude.{◌≡◌, ◌<◌, ◌≤◌, ◌++◌, ◌∷◌, [], IfOk, OnOk, Some, length, map, replicate, pos};
ghost use Rattle.std.specs.List.{All};
ghost use Rattle.std.specs.Str.{IsUtf8};
ghost use Rattle.tb_value.specs.Promise.Datum.{binary, null, string};
ghost use Rattle.tb_value.specs.Promise.Kind as kind;
ghost use Rattle.tb_value.specs.See.{datum, lent_value, IsText};
ghost use Rattle.tb_value.specs.SeeKind.{kind_of};
ghost use Rattle.tb_value.specs.Promise.Typed.{HasType};
ghost use Rattle.tb_chunk.specs.Chunk.{or_null};
ghost use Rattle.tb_chunk.specs.Promise.Col.{values, concatenation};
ghost use Rattle.tb_chunk.specs.Col.{physical};
ghost use Rattle.tb_chunk.specs.Fits.{Fits};
ghost use Rattle.tb_chunk.specs.Lent.{lent_columns};
ghost use Rattle.tb_chunk.specs.Promise.Made.{at_least_one};
ghost use Rattle.tb_chunk.specs.Seen.{chunk_lists, storage};
ghost use Rattle.tb_supertype.specs.Promise.Cast.{cast, cast_to, truth_number};
ghost use Rattle.tb_supertype.specs.Columns.{cast_values, CastsTo, IsStacked};

use crate::class::{Class, class_of};
use itoa::Buffer;
use std::alloc::Global;
use tb_chunk::join_one;
use tb_label::{truth_text, value_text};
use tb_store::{
    BinaryBuilder, BinaryChunk, Cell, Cells, Chunk, Chunks, IsSorted, ListChunk, MAX_ROWS,
    Physical, Series, Stored, StringBuilder, StringChunk, StructChunk, physical_of,
};
use tb_value::{AnyValue, DataType, OutOfMemory, PlSmallStr, ValueRef};

fn truth_number(value: bool) -> i128
    ensures { result ≡ truth_number value }
{
    if value { 1 } else { 0 }
}

// The value cast to a type of the class.
fn cast_value(alloc: Global, class: Class, value: ValueRef<'_>) -> Result<AnyValue, OutOfMemory>
    requires { IsText value }
    ensures { IfOk result (λ v. datum v ≡ cast_to class (lent_value value.entry)) }
{
    match (class, value) {
        (Class::Text, ValueRef::Int(_) | ValueRef::Boolean(_)) => Ok(AnyValue::String(value_text(
            alloc, value,
        )?)),
        (Class::Signed(_) | Class::Unsigned(_), ValueRef::Boolean(b)) => Ok(AnyValue::Int(
            truth_number(b),
        )),
        _ => value.to_value(alloc),
    }
}

fn cell_of<N: Cell>(
    alloc: Global,
    class: Class,
    value: ValueRef<'_>,
) -> Result<Option<N>, OutOfMemory>
    requires text { IsText value }
    requires fits { Fits N.kind (cast_to class (lent_value value)) }
    ensures { IfOk result (λ c. or_null N.shows c ≡ cast_to class (lent_value value.entry)) }
{
    let cast = cast_value(alloc, class, value)?;
    match cast {
        AnyValue::Null => Ok(None),
        _ => Ok(Some(N::from_value(alloc, &cast)?)),
    }
}

fn cells_of<N: Cell>(
    alloc: Global,
    dtype: &DataType,
    column: &Series,
) -> Result<Cells<N>, OutOfMemory>
    requires { All (Fits N.kind) (cast_values (kind_of dtype.now) column.now) }
    ensures { IfOk result (λ c.
        map (or_null N.shows) c ≡ cast_values (kind_of dtype.now) column.now) }
{
    let class = class_of(dtype);
    let rows = column.len();
    let mut cells = Cells::with_capacity(alloc, rows)?;
    for row in 0..rows {
        cells.push(cell_of(alloc, class, column.get(row))?)?;
    }
    Ok(cells)
}

// Appends a text.
fn push_text(alloc: Global, builder: &mut StringBuilder, text: &[u8]) -> Result<(), OutOfMemory>
    requires { IsUtf8 text.now }
    ensures { OnOk result (builder.new.rows ≡ builder.old.rows ++ Some text.now ∷ []) }
{
    match str::from_utf8(text) {
        Ok(text) => builder.push(alloc, text),
        Err(_) => unreachable!(),
    }
}

// Appends the text that a value becomes.
fn push_cast(
    alloc: Global,
    builder: &mut StringBuilder,
    value: ValueRef<'_>,
) -> Result<(), OutOfMemory>
    requires text { IsText value }
    requires fits { Fits kind.string (cast kind.string (lent_value value)) }
    ensures { OnOk result
        (map (or_null string) builder.new.rows
        ≡ map (or_null string) builder.old.rows ++ cast kind.string (lent_value value.entry)
        ∷ []) }
{
    match value {
        ValueRef::Null => builder.push_null(),
        ValueRef::Boolean(b) => builder.push(alloc, truth_text(b)),
        ValueRef::Int(number) => builder.push(alloc, Buffer::new().format(number)),
        ValueRef::String(text) => push_text(alloc, builder, text),
        ValueRef::Binary(_) | ValueRef::List(_) | ValueRef::Struct(_) => unreachable!(),
    }
}

// The texts that the values of a column become.
fn cast_texts(alloc: Global, column: &Series) -> Result<StringChunk, OutOfMemory>
    requires { All (Fits kind.string) (cast_values kind.string column.now) }
    ensures { IfOk result (λ c.
        ⟦<StringChunk as Chunk>⟧.shown c ≡ cast_values kind.string column.now) }
{
    let rows = column.len();
    let mut builder = StringBuilder::with_capacity(alloc, rows)?;
    for row in 0..rows {
        push_cast(alloc, &mut builder, column.get(row))?;
    }
    builder.finish(alloc)
}

// Appends the bytes that a value is.
fn push_bytes(
    alloc: Global,
    builder: &mut BinaryBuilder,
    value: ValueRef<'_>,
) -> Result<(), OutOfMemory>
    requires { Fits kind.binary (lent_value value) }
    ensures { OnOk result
        (map (or_null binary) builder.new.rows
        ≡ map (or_null binary) builder.old.rows ++ lent_value value.entry
        ∷ []) }
{
    match value {
        ValueRef::Null => builder.push_null(),
        ValueRef::Binary(bytes) => builder.push(alloc, bytes),
        ValueRef::Boolean(_)
        | ValueRef::Int(_)
        | ValueRef::String(_)
        | ValueRef::List(_)
        | ValueRef::Struct(_) => unreachable!(),
    }
}

// The bytes of a column, which stay as they are.
fn cast_bytes(alloc: Global, column: &Series) -> Result<BinaryChunk, OutOfMemory>
    requires { All (Fits kind.binary) (cast_values kind.binary column.now) }
    ensures { IfOk result (λ c.
        ⟦<BinaryChunk as Chunk>⟧.shown c ≡ cast_values kind.binary column.now) }
{
    let rows = column.len();
    let mut builder = BinaryBuilder::with_capacity(alloc, rows)?;
    for row in 0..rows {
        push_bytes(alloc, &mut builder, column.get(row))?;
    }
    builder.finish(alloc)
}

/// A chunk of a column's values that are cast.
trait CastChunk: Chunk {
    /// The chunk of the column's values cast to the type, which is stored so. A row is found in as many steps as
    /// the column has chunks.
    fn cast_of(alloc: Global, dtype: &DataType, column: &Series) -> Result<Self, OutOfMemory>
        requires stored { physical (kind_of dtype.now) ≡ Self.kind }
        requires typed { CastsTo (kind_of dtype.now) column.now }
        ensures { IfOk result (λ c. Self.shown c ≡ cast_values (kind_of dtype.now) column.now) };
}

impl<N: Cell> CastChunk for Cells<N> {
    fn cast_of(alloc: Global, dtype: &DataType, column: &Series) -> Result<Cells<N>, OutOfMemory> {
        cells_of(alloc, dtype, column)
    }
}

impl CastChunk for StringChunk {
    fn cast_of(
        alloc: Global,
        dtype: &DataType,
        column: &Series,
    ) -> Result<StringChunk, OutOfMemory> {
        cast_texts(alloc, column)
    }
}

impl CastChunk for BinaryChunk {
    fn cast_of(
        alloc: Global,
        dtype: &DataType,
        column: &Series,
    ) -> Result<BinaryChunk, OutOfMemory> {
        cast_bytes(alloc, column)
    }
}

impl CastChunk for ListChunk {
    fn cast_of(alloc: Global, dtype: &DataType, column: &Series) -> Result<ListChunk, OutOfMemory> {
        Ok(ListChunk {
            inner: cells_of(alloc, dtype, column)?,
        })
    }
}

impl CastChunk for StructChunk {
    fn cast_of(
        alloc: Global,
        dtype: &DataType,
        column: &Series,
    ) -> Result<StructChunk, OutOfMemory> {
        Ok(StructChunk {
            inner: cells_of(alloc, dtype, column)?,
        })
    }
}

impl CastChunk for usize {
    fn cast_of(alloc: Global, dtype: &DataType, column: &Series) -> Result<usize, OutOfMemory> {
        Ok(column.len())
    }
}

// A typed copy of the values of a column.
fn typed_copy<C: Stored>(alloc: Global, column: &Series) -> Result<C, OutOfMemory>
    requires { physical column.now.kind ≡ C.kind }
    ensures copy { IfOk result (λ c. C.shown c ≡ values column.now) }
    ensures typed { All (HasType column.now.kind) (values column.now) }
{
    let rows = column.len();
    match C::stored_in(column.chunks()) {
        Some(chunks) => Ok(join_one(alloc, chunks, 0, rows)?.swap_remove(0)),
        None => unreachable!(),
    }
}

// The column's values cast to the type: those of a column of the type are copied. More chunks than one are joined
// first, so that rows are found at once.
fn whole_chunk<C: CastChunk + Stored>(
    alloc: Global,
    dtype: &DataType,
    column: &Series,
) -> Result<C, OutOfMemory>
    requires stored { physical (kind_of dtype.now) ≡ C.kind }
    requires typed { CastsTo (kind_of dtype.now) column.now }
    ensures { IfOk result (λ c. C.shown c ≡ cast_values (kind_of dtype.now) column.now) }
{
    if column.dtype() == dtype {
        return typed_copy(alloc, column);
    }
    if column.n_chunks() == 1 {
        return C::cast_of(alloc, dtype, column);
    }
    let whole = column.rechunk(alloc)?;
    C::cast_of(alloc, dtype, &whole)
}

fn each_chunk<C: CastChunk + Stored>(
    alloc: Global,
    dtype: &DataType,
    columns: &[&Series],
) -> Result<Vec<C>, OutOfMemory>
    requires stored { physical (kind_of dtype.now) ≡ C.kind }
    requires typed { All (λ c. CastsTo (kind_of dtype.now) c.now) columns.now }
    ensures { IfOk result (λ v.
        map C.shown v.items ≡ map (λ c. cast_values (kind_of dtype.now) c.now) columns.now) }
{
    let mut chunks = Vec::with_capacity(alloc, columns.len())?;
    for column in columns {
        chunks.push(whole_chunk(alloc, dtype, column)?)?;
    }
    Ok(chunks)
}

// A chunk for each column, and an empty one where there is no column, as those of a column.
fn chunks_of<C: CastChunk + Stored>(
    alloc: Global,
    dtype: &DataType,
    columns: &[&Series],
) -> Result<Chunks, OutOfMemory>
    requires stored { physical (kind_of dtype.now) ≡ C.kind }
    requires typed { All (λ c. CastsTo (kind_of dtype.now) c.now) columns.now }
    ensures lists { IfOk result (λ c.
        chunk_lists c
        ≡ at_least_one (map (λ c. cast_values (kind_of dtype.now) c.now) columns.now)) }
    ensures storage { IfOk result (λ c. storage c ≡ C.kind) }
{
    let mut chunks = each_chunk(alloc, dtype, columns)?;
    if chunks.is_empty() {
        chunks.push(C::empty(alloc))?;
    }
    Ok(C::wrap(chunks))
}

fn cast_chunks(alloc: Global, dtype: &DataType, columns: &[&Series]) -> Result<Chunks, OutOfMemory>
    requires { All (λ c. CastsTo (kind_of dtype.now) c.now) columns.now }
    ensures lists { IfOk result (λ c.
        chunk_lists c
        ≡ at_least_one (map (λ c. cast_values (kind_of dtype.now) c.now) columns.now)) }
    ensures storage { IfOk result (λ c. storage c ≡ physical (kind_of dtype.now)) }
{
    match physical_of(dtype) {
        Physical::Null => chunks_of::<usize>(alloc, dtype, columns),
        Physical::Boolean => chunks_of::<Cells<bool>>(alloc, dtype, columns),
        Physical::Int8 => chunks_of::<Cells<i8>>(alloc, dtype, columns),
        Physical::Int16 => chunks_of::<Cells<i16>>(alloc, dtype, columns),
        Physical::Int32 => chunks_of::<Cells<i32>>(alloc, dtype, columns),
        Physical::Int64 => chunks_of::<Cells<i64>>(alloc, dtype, columns),
        Physical::Int128 => chunks_of::<Cells<i128>>(alloc, dtype, columns),
        Physical::UInt8 => chunks_of::<Cells<u8>>(alloc, dtype, columns),
        Physical::UInt16 => chunks_of::<Cells<u16>>(alloc, dtype, columns),
        Physical::UInt32 => chunks_of::<Cells<u32>>(alloc, dtype, columns),
        Physical::UInt64 => chunks_of::<Cells<u64>>(alloc, dtype, columns),
        Physical::String => chunks_of::<StringChunk>(alloc, dtype, columns),
        Physical::Binary => chunks_of::<BinaryChunk>(alloc, dtype, columns),
        Physical::List => chunks_of::<ListChunk>(alloc, dtype, columns),
        Physical::Struct => chunks_of::<StructChunk>(alloc, dtype, columns),
    }
}

/// The column of this name and type with the values of the columns, one column after another, cast to the type. It has
/// a chunk for each column, and the flag Not. The values together are at most `MAX_ROWS`, and cast to the type each is of
/// it: `laws::cast_typed` says of which types this holds.
///
/// # Errors
///
/// `OutOfMemory` where memory is wanting.
pub fn stack(
    alloc: Global,
    name: PlSmallStr,
    dtype: DataType,
    columns: &[&Series],
) -> Result<Series, OutOfMemory>
    requires few { length (concatenation (map (λ c. values c.now) columns.now)) ≤ MAX_ROWS }
    requires typed { All (λ c. CastsTo (kind_of dtype) c.now) columns.now }
    ensures { IfOk result (IsStacked name (kind_of dtype) (lent_columns columns.now)) }
{
    let chunks = cast_chunks(alloc, &dtype, columns)?;
    if !chunks.has_few_buffers() {
        return Err(OutOfMemory);
    }
    Ok(Series::from_parts(name, dtype, chunks, IsSorted::Not))
}
