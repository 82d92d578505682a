//! The one chunk of a column, lent by the type that it is stored as.
ghost use Rattle.std.specs.Prelude.{◌≡◌, ◌<◌, ◌++◌, IfOk, OnOk, length, map, slice_index_or};
ghost use Rattle.tb_value.specs.Promise.Datum.{is_present, null};
ghost use Rattle.tb_chunk.specs.Promise.Col.{concatenation};
ghost use Rattle.tb_chunk.specs.Seen.{chunk_lists, storage};
ghost use Rattle.tb_rowkey.specs.Promise.RowKey.{field_code};
ghost use Rattle.tb_rowkey.specs.TextFields.{FitsField};
ghost use Rattle.tb_rowkey.specs.StoredChunk.{chunk_kind, chunk_values};

use crate::fields::FieldChunk;
use tb_store::{
    BinaryChunk, Cells, Chunk, Chunks, ListChunk, OutOfMemory, StringChunk, StructChunk,
};

/// A chunk, by the type that its values are stored as.
#[derive(Drop)]
pub(crate) enum StoredChunk<'a> {
    Boolean(&'a Cells<bool>),
    Int8(&'a Cells<i8>),
    Int16(&'a Cells<i16>),
    Int32(&'a Cells<i32>),
    Int64(&'a Cells<i64>),
    Int128(&'a Cells<i128>),
    UInt8(&'a Cells<u8>),
    UInt16(&'a Cells<u16>),
    UInt32(&'a Cells<u32>),
    UInt64(&'a Cells<u64>),
    String(&'a StringChunk),
    Binary(&'a BinaryChunk),
    List(&'a ListChunk),
    Struct(&'a StructChunk),
    Null(&'a usize),
}

// The one chunk.
fn only<C: Chunk>(chunks: &[C]) -> &C
    requires { length chunks.now ≡ 1 }
    ensures { C.shown result.now ≡ concatenation (map C.shown chunks.now) }
{
    &chunks[0]
}

/// The one chunk of a column.
pub(crate) fn stored_chunk(chunks: &Chunks) -> StoredChunk<'_>
    requires { length (chunk_lists chunks.now) ≡ 1 }
    ensures values { chunk_values result ≡ concatenation (chunk_lists chunks.now) }
    ensures kind { chunk_kind result ≡ storage chunks.now }
{
    match chunks {
        Chunks::BooleanType(chunks) => StoredChunk::Boolean(only(chunks)),
        Chunks::Int8Type(chunks) => StoredChunk::Int8(only(chunks)),
        Chunks::Int16Type(chunks) => StoredChunk::Int16(only(chunks)),
        Chunks::Int32Type(chunks) => StoredChunk::Int32(only(chunks)),
        Chunks::Int64Type(chunks) => StoredChunk::Int64(only(chunks)),
        Chunks::Int128Type(chunks) => StoredChunk::Int128(only(chunks)),
        Chunks::UInt8Type(chunks) => StoredChunk::UInt8(only(chunks)),
        Chunks::UInt16Type(chunks) => StoredChunk::UInt16(only(chunks)),
        Chunks::UInt32Type(chunks) => StoredChunk::UInt32(only(chunks)),
        Chunks::UInt64Type(chunks) => StoredChunk::UInt64(only(chunks)),
        Chunks::StringType(chunks) => StoredChunk::String(only(chunks)),
        Chunks::BinaryType(chunks) => StoredChunk::Binary(only(chunks)),
        Chunks::ListType(chunks) => StoredChunk::List(only(chunks)),
        Chunks::StructType(chunks) => StoredChunk::Struct(only(chunks)),
        Chunks::Null(chunks) => StoredChunk::Null(only(chunks)),
    }
}

impl StoredChunk<'_> {
    /// Writes the bytes of a row's field behind those that are there, and says whether it is present.
    pub(crate) fn push_field(&self, bytes: &mut Vec<u8>, row: usize) -> Result<bool, OutOfMemory>
        requires row { row < length (chunk_values self.now) }
        requires fits { FitsField (slice_index_or (chunk_values self.now) row null) }
        ensures bytes { OnOk result
            (bytes.new.items
            ≡ bytes.old.items
            ++ field_code (chunk_kind self.now)
            (slice_index_or (chunk_values self.now) row null)) }
        ensures present { IfOk result (λ b.
            b ≡ is_present (slice_index_or (chunk_values self.now) row null)) }
    {
        match self {
            StoredChunk::Boolean(chunk) => chunk.push_field(bytes, row),
            StoredChunk::Int8(chunk) => chunk.push_field(bytes, row),
            StoredChunk::Int16(chunk) => chunk.push_field(bytes, row),
            StoredChunk::Int32(chunk) => chunk.push_field(bytes, row),
            StoredChunk::Int64(chunk) => chunk.push_field(bytes, row),
            StoredChunk::Int128(chunk) => chunk.push_field(bytes, row),
            StoredChunk::UInt8(chunk) => chunk.push_field(bytes, row),
            StoredChunk::UInt16(chunk) => chunk.push_field(bytes, row),
            StoredChunk::UInt32(chunk) => chunk.push_field(bytes, row),
            StoredChunk::UInt64(chunk) => chunk.push_field(bytes, row),
            StoredChunk::String(chunk) => chunk.push_field(bytes, row),
            StoredChunk::Binary(chunk) => chunk.push_field(bytes, row),
            StoredChunk::List(chunk) => chunk.push_field(bytes, row),
            StoredChunk::Struct(chunk) => chunk.push_field(bytes, row),
            StoredChunk::Null(chunk) => chunk.push_field(bytes, row),
        }
    }
}
