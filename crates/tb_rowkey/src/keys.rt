//! Row keys as a column.
ghost use Rattle.std.specs.Prelude.{◌≡◌, ◌<◌, ◌≤◌, ◌∷◌, [], IfOk, IsTrue, length, map};
ghost use Rattle.std.specs.List.{All};
ghost use Rattle.tb_value.specs.Promise.Datum.{binary};
ghost use Rattle.tb_value.specs.Promise.Kind as kind;
ghost use Rattle.tb_value.specs.Promise.SameKind.{is_key};
ghost use Rattle.tb_value.specs.Promise.Typed.{HasType};
ghost use Rattle.tb_value.specs.SeeKind.{kind_of};
ghost use Rattle.tb_value.specs.declared.sorted.IsSorted.TheVariants.{Not};
ghost use Rattle.tb_chunk.specs.Chunk.{or_null};
ghost use Rattle.tb_chunk.specs.ChunkTexts.{bytes_of};
ghost use Rattle.tb_chunk.specs.Promise.Col.{values};
ghost use Rattle.tb_view.specs.Promise.Layout.{text_view_array};
ghost use Rattle.tb_rowkey.specs.Promise.Columns.{row_count};
ghost use Rattle.tb_rowkey.specs.Columns.{key_column, AreShortRows, flag_of};

use crate::row_keys::RowKeys;
use std::alloc::Global;
use tb_store::{
    BinaryBuilder, BinaryChunk, Chunk, Chunks, DataType, IsSorted, MAX_ROWS, OutOfMemory,
    PlSmallStr, Series, lend,
};

// The keys of all rows, copied.
fn chunk_of(alloc: Global, keys: &RowKeys) -> Result<BinaryChunk, OutOfMemory>
    ensures value { IfOk result (λ c. bytes_of c ≡ keys.now) }
    ensures views { IfOk result (λ c.
        ⟦<BinaryChunk as Chunk>⟧.views c ≡ (text_view_array keys.now).views) }
    ensures buffers { IfOk result (λ c.
        ⟦<BinaryChunk as Chunk>⟧.buffers c ≡ (text_view_array keys.now).buffers) }
    ensures few { length keys.now ≤ MAX_ROWS }
    ensures typed { IfOk result (λ _. All (HasType kind.binary) (map (or_null binary) keys.now)) }
{
    let rows = keys.len();
    let mut builder = BinaryBuilder::with_capacity(alloc, rows)?;
    for row in 0..rows {
        builder.push_option(alloc, keys.get(row))?;
    }
    builder.finish(alloc)
}

fn binary_type() -> DataType
    ensures { kind_of result ≡ kind.binary }
{
    DataType::Binary
}

// The column without a name of these bytes.
fn column_of(alloc: Global, chunk: BinaryChunk) -> Result<Series, OutOfMemory>
    requires few { length (bytes_of chunk) ≤ MAX_ROWS }
    requires typed { All (HasType kind.binary) (⟦<BinaryChunk as Chunk>⟧.shown chunk) }
    ensures { IfOk result (λ s. s ≡ record {
      name = [];
      kind = kind.binary;
      chunks = ⟦<BinaryChunk as Chunk>⟧.shown chunk ∷ [];
      flag = Not;
      view_arrays = record { views = ⟦<BinaryChunk as Chunk>⟧.views chunk; buffers = ⟦<BinaryChunk as Chunk>⟧.buffers chunk } ∷ [];
    }) }
{
    let name = PlSmallStr::from_str(alloc, "")?;
    let mut chunks = Vec::with_capacity(alloc, 1)?;
    chunks.push(chunk)?;
    Ok(Series::from_parts(
        name,
        binary_type(),
        Chunks::BinaryType(chunks),
        IsSorted::Not,
    ))
}

/// The row keys of the columns, as a Binary column without a name, in one chunk and with the flag Not.
/// The key of a row has the bytes of its fields in the order of the columns; a row with a Null field whose
/// column's flag is false is Null. There is a column at least, each has a flag, the columns are of key types and of
/// one length, and the bytes of each row are fewer than 2^32, of a row with a Null field too, which
/// `RowKeys::of_columns` tells.
///
/// Each key is copied out of one buffer, which `RowKeys` lends from without copies.
///
/// # Errors
///
/// `OutOfMemory` where memory is wanting.
pub fn prepare_keys_multiple(
    alloc: Global,
    columns: &[Series],
    join_nulls: &[bool],
) -> Result<Series, OutOfMemory>
    requires some { 0 < length columns.now }
    requires keys { All (λ c. IsTrue (is_key c.kind)) columns.now }
    requires rows { All (λ c. length (values c) ≡ row_count columns.now) columns.now }
    requires short { AreShortRows columns.now }
    requires flags { length join_nulls.now ≡ length columns.now }
    ensures { IfOk result (λ s. s ≡ key_column columns.now (flag_of join_nulls.now)) }
{
    let lent = lend(alloc, columns)?;
    let keys = RowKeys::of_columns(alloc, &lent, join_nulls)?;
    match keys {
        Some(keys) => column_of(alloc, chunk_of(alloc, &keys)?),
        None => unreachable!(),
    }
}
