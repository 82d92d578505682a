//! The markers of the types by which values are stored.
ghost use Rattle.std.specs.Prelude.{◌≡◌, ◌≢◌, ◌↔◌, IsTrue, MatchOption, map};
ghost use Rattle.tb_value.specs.Promise.Kind as kinds;
ghost use Rattle.tb_value.specs.SeeKind.{kind_of};
ghost use Rattle.tb_chunk.specs.Col.{physical};
ghost use Rattle.tb_chunk.specs.Physical.{kind_for};
ghost use Rattle.tb_chunk.specs.ChunkViewArrays.{chunk_view_arrays};
ghost use Rattle.tb_chunk.specs.Seen.{chunk_lists, storage};
ghost use Rattle.tb_chunk.specs.ViewArrays.{view_arrays_of};

use tb_chunk::{
    BinaryChunk, Cells, Chunk, Chunks, ListChunk, Physical, StringChunk, StructChunk, physical_of,
};
use tb_value::DataType;

/// A marker of a type by which values are stored, other than Null: of the type of its chunks.
pub trait PolarsDataType {
    /// A chunk of such values.
    type Array: Chunk;

    /// Whether values of the type are stored by the marker's.
    fn accepts(dtype: &DataType) -> bool
        ensures { IsTrue result ↔ (physical (kind_of dtype.now) ≡ Self.Array.kind) };

    /// The chunks as those of a column. It takes no memory.
    fn wrap(arrays: Vec<Self::Array>) -> Chunks
        ensures lists { chunk_lists result ≡ map Self.Array.shown arrays.items }
        ensures storage { storage result ≡ Self.Array.kind }
        ensures view_arrays { chunk_view_arrays result ≡ view_arrays_of Self.Array.views Self.Array.buffers arrays.items };

    /// The chunks of a column, None where they are not the marker's. It takes no memory.
    fn unwrap(chunks: Chunks) -> Option<Vec<Self::Array>>
        ensures { MatchOption result (storage chunks ≢ Self.Array.kind) (λ v. (storage chunks ≡ Self.Array.kind)
            × (chunk_lists chunks ≡ map Self.Array.shown v.items) × (chunk_view_arrays chunks ≡ view_arrays_of Self.Array.views Self.Array.buffers v.items)) };
}

/// Marks truth values.
pub struct BooleanType;

impl PolarsDataType for BooleanType {
    type Array = Cells<bool>;

    fn accepts(dtype: &DataType) -> bool {
        physical_of(dtype) == Physical::Boolean
    }

    fn wrap(arrays: Vec<Cells<bool>>) -> Chunks
        ensures lists { chunk_lists result ≡ map ⟦<Cells<bool> as Chunk>⟧.shown arrays.items }
        ensures storage { storage result ≡ kinds.boolean }
        ensures view_arrays { chunk_view_arrays result
            ≡ view_arrays_of ⟦<Cells<bool> as Chunk>⟧.views ⟦<Cells<bool> as Chunk>⟧.buffers
            arrays.items }
    {
        Chunks::BooleanType(arrays)
    }

    fn unwrap(chunks: Chunks) -> Option<Vec<Cells<bool>>> {
        match chunks {
            Chunks::BooleanType(arrays) => Some(arrays),
            _ => None,
        }
    }
}

/// Marks whole numbers of 8 bits.
pub struct Int8Type;

impl PolarsDataType for Int8Type {
    type Array = Cells<i8>;

    fn accepts(dtype: &DataType) -> bool {
        physical_of(dtype) == Physical::Int8
    }

    fn wrap(arrays: Vec<Cells<i8>>) -> Chunks
        ensures lists { chunk_lists result ≡ map ⟦<Cells<i8> as Chunk>⟧.shown arrays.items }
        ensures storage { storage result ≡ kinds.int8 }
        ensures view_arrays { chunk_view_arrays result
            ≡ view_arrays_of ⟦<Cells<i8> as Chunk>⟧.views ⟦<Cells<i8> as Chunk>⟧.buffers
            arrays.items }
    {
        Chunks::Int8Type(arrays)
    }

    fn unwrap(chunks: Chunks) -> Option<Vec<Cells<i8>>> {
        match chunks {
            Chunks::Int8Type(arrays) => Some(arrays),
            _ => None,
        }
    }
}

/// Marks whole numbers of 16 bits.
pub struct Int16Type;

impl PolarsDataType for Int16Type {
    type Array = Cells<i16>;

    fn accepts(dtype: &DataType) -> bool {
        physical_of(dtype) == Physical::Int16
    }

    fn wrap(arrays: Vec<Cells<i16>>) -> Chunks
        ensures lists { chunk_lists result ≡ map ⟦<Cells<i16> as Chunk>⟧.shown arrays.items }
        ensures storage { storage result ≡ kinds.int16 }
        ensures view_arrays { chunk_view_arrays result
            ≡ view_arrays_of ⟦<Cells<i16> as Chunk>⟧.views ⟦<Cells<i16> as Chunk>⟧.buffers
            arrays.items }
    {
        Chunks::Int16Type(arrays)
    }

    fn unwrap(chunks: Chunks) -> Option<Vec<Cells<i16>>> {
        match chunks {
            Chunks::Int16Type(arrays) => Some(arrays),
            _ => None,
        }
    }
}

/// Marks whole numbers of 32 bits.
pub struct Int32Type;

impl PolarsDataType for Int32Type {
    type Array = Cells<i32>;

    fn accepts(dtype: &DataType) -> bool {
        physical_of(dtype) == Physical::Int32
    }

    fn wrap(arrays: Vec<Cells<i32>>) -> Chunks
        ensures lists { chunk_lists result ≡ map ⟦<Cells<i32> as Chunk>⟧.shown arrays.items }
        ensures storage { storage result ≡ kinds.int32 }
        ensures view_arrays { chunk_view_arrays result
            ≡ view_arrays_of ⟦<Cells<i32> as Chunk>⟧.views ⟦<Cells<i32> as Chunk>⟧.buffers
            arrays.items }
    {
        Chunks::Int32Type(arrays)
    }

    fn unwrap(chunks: Chunks) -> Option<Vec<Cells<i32>>> {
        match chunks {
            Chunks::Int32Type(arrays) => Some(arrays),
            _ => None,
        }
    }
}

/// Marks whole numbers of 64 bits.
pub struct Int64Type;

impl PolarsDataType for Int64Type {
    type Array = Cells<i64>;

    fn accepts(dtype: &DataType) -> bool {
        physical_of(dtype) == Physical::Int64
    }

    fn wrap(arrays: Vec<Cells<i64>>) -> Chunks
        ensures lists { chunk_lists result ≡ map ⟦<Cells<i64> as Chunk>⟧.shown arrays.items }
        ensures storage { storage result ≡ kinds.int64 }
        ensures view_arrays { chunk_view_arrays result
            ≡ view_arrays_of ⟦<Cells<i64> as Chunk>⟧.views ⟦<Cells<i64> as Chunk>⟧.buffers
            arrays.items }
    {
        Chunks::Int64Type(arrays)
    }

    fn unwrap(chunks: Chunks) -> Option<Vec<Cells<i64>>> {
        match chunks {
            Chunks::Int64Type(arrays) => Some(arrays),
            _ => None,
        }
    }
}

/// Marks whole numbers of 128 bits.
pub struct Int128Type;

impl PolarsDataType for Int128Type {
    type Array = Cells<i128>;

    fn accepts(dtype: &DataType) -> bool {
        physical_of(dtype) == Physical::Int128
    }

    fn wrap(arrays: Vec<Cells<i128>>) -> Chunks
        ensures lists { chunk_lists result ≡ map ⟦<Cells<i128> as Chunk>⟧.shown arrays.items }
        ensures storage { storage result ≡ kinds.int128 }
        ensures view_arrays { chunk_view_arrays result
            ≡ view_arrays_of ⟦<Cells<i128> as Chunk>⟧.views ⟦<Cells<i128> as Chunk>⟧.buffers
            arrays.items }
    {
        Chunks::Int128Type(arrays)
    }

    fn unwrap(chunks: Chunks) -> Option<Vec<Cells<i128>>> {
        match chunks {
            Chunks::Int128Type(arrays) => Some(arrays),
            _ => None,
        }
    }
}

/// Marks whole numbers of 8 bits, at least 0.
pub struct UInt8Type;

impl PolarsDataType for UInt8Type {
    type Array = Cells<u8>;

    fn accepts(dtype: &DataType) -> bool {
        physical_of(dtype) == Physical::UInt8
    }

    fn wrap(arrays: Vec<Cells<u8>>) -> Chunks
        ensures lists { chunk_lists result ≡ map ⟦<Cells<u8> as Chunk>⟧.shown arrays.items }
        ensures storage { storage result ≡ kinds.uint8 }
        ensures view_arrays { chunk_view_arrays result
            ≡ view_arrays_of ⟦<Cells<u8> as Chunk>⟧.views ⟦<Cells<u8> as Chunk>⟧.buffers
            arrays.items }
    {
        Chunks::UInt8Type(arrays)
    }

    fn unwrap(chunks: Chunks) -> Option<Vec<Cells<u8>>> {
        match chunks {
            Chunks::UInt8Type(arrays) => Some(arrays),
            _ => None,
        }
    }
}

/// Marks whole numbers of 16 bits, at least 0.
pub struct UInt16Type;

impl PolarsDataType for UInt16Type {
    type Array = Cells<u16>;

    fn accepts(dtype: &DataType) -> bool {
        physical_of(dtype) == Physical::UInt16
    }

    fn wrap(arrays: Vec<Cells<u16>>) -> Chunks
        ensures lists { chunk_lists result ≡ map ⟦<Cells<u16> as Chunk>⟧.shown arrays.items }
        ensures storage { storage result ≡ kinds.uint16 }
        ensures view_arrays { chunk_view_arrays result
            ≡ view_arrays_of ⟦<Cells<u16> as Chunk>⟧.views ⟦<Cells<u16> as Chunk>⟧.buffers
            arrays.items }
    {
        Chunks::UInt16Type(arrays)
    }

    fn unwrap(chunks: Chunks) -> Option<Vec<Cells<u16>>> {
        match chunks {
            Chunks::UInt16Type(arrays) => Some(arrays),
            _ => None,
        }
    }
}

/// Marks whole numbers of 32 bits, at least 0.
pub struct UInt32Type;

impl PolarsDataType for UInt32Type {
    type Array = Cells<u32>;

    fn accepts(dtype: &DataType) -> bool {
        physical_of(dtype) == Physical::UInt32
    }

    fn wrap(arrays: Vec<Cells<u32>>) -> Chunks
        ensures lists { chunk_lists result ≡ map ⟦<Cells<u32> as Chunk>⟧.shown arrays.items }
        ensures storage { storage result ≡ kinds.uint32 }
        ensures view_arrays { chunk_view_arrays result
            ≡ view_arrays_of ⟦<Cells<u32> as Chunk>⟧.views ⟦<Cells<u32> as Chunk>⟧.buffers
            arrays.items }
    {
        Chunks::UInt32Type(arrays)
    }

    fn unwrap(chunks: Chunks) -> Option<Vec<Cells<u32>>> {
        match chunks {
            Chunks::UInt32Type(arrays) => Some(arrays),
            _ => None,
        }
    }
}

/// Marks whole numbers of 64 bits, at least 0.
pub struct UInt64Type;

impl PolarsDataType for UInt64Type {
    type Array = Cells<u64>;

    fn accepts(dtype: &DataType) -> bool {
        physical_of(dtype) == Physical::UInt64
    }

    fn wrap(arrays: Vec<Cells<u64>>) -> Chunks
        ensures lists { chunk_lists result ≡ map ⟦<Cells<u64> as Chunk>⟧.shown arrays.items }
        ensures storage { storage result ≡ kinds.uint64 }
        ensures view_arrays { chunk_view_arrays result
            ≡ view_arrays_of ⟦<Cells<u64> as Chunk>⟧.views ⟦<Cells<u64> as Chunk>⟧.buffers
            arrays.items }
    {
        Chunks::UInt64Type(arrays)
    }

    fn unwrap(chunks: Chunks) -> Option<Vec<Cells<u64>>> {
        match chunks {
            Chunks::UInt64Type(arrays) => Some(arrays),
            _ => None,
        }
    }
}

/// Marks texts.
pub struct StringType;

impl PolarsDataType for StringType {
    type Array = StringChunk;

    fn accepts(dtype: &DataType) -> bool {
        physical_of(dtype) == Physical::String
    }

    fn wrap(arrays: Vec<StringChunk>) -> Chunks
        ensures lists { chunk_lists result ≡ map ⟦<StringChunk as Chunk>⟧.shown arrays.items }
        ensures storage { storage result ≡ kinds.string }
        ensures view_arrays { chunk_view_arrays result
            ≡ view_arrays_of ⟦<StringChunk as Chunk>⟧.views ⟦<StringChunk as Chunk>⟧.buffers
            arrays.items }
    {
        Chunks::StringType(arrays)
    }

    fn unwrap(chunks: Chunks) -> Option<Vec<StringChunk>> {
        match chunks {
            Chunks::StringType(arrays) => Some(arrays),
            _ => None,
        }
    }
}

/// Marks bytes.
pub struct BinaryType;

impl PolarsDataType for BinaryType {
    type Array = BinaryChunk;

    fn accepts(dtype: &DataType) -> bool {
        physical_of(dtype) == Physical::Binary
    }

    fn wrap(arrays: Vec<BinaryChunk>) -> Chunks
        ensures lists { chunk_lists result ≡ map ⟦<BinaryChunk as Chunk>⟧.shown arrays.items }
        ensures storage { storage result ≡ kinds.binary }
        ensures view_arrays { chunk_view_arrays result
            ≡ view_arrays_of ⟦<BinaryChunk as Chunk>⟧.views ⟦<BinaryChunk as Chunk>⟧.buffers
            arrays.items }
    {
        Chunks::BinaryType(arrays)
    }

    fn unwrap(chunks: Chunks) -> Option<Vec<BinaryChunk>> {
        match chunks {
            Chunks::BinaryType(arrays) => Some(arrays),
            _ => None,
        }
    }
}

/// Marks lists.
pub struct ListType;

impl PolarsDataType for ListType {
    type Array = ListChunk;

    fn accepts(dtype: &DataType) -> bool {
        physical_of(dtype) == Physical::List
    }

    fn wrap(arrays: Vec<ListChunk>) -> Chunks
        ensures lists { chunk_lists result ≡ map ⟦<ListChunk as Chunk>⟧.shown arrays.items }
        ensures storage { storage result ≡ kinds.list kinds.null }
        ensures view_arrays { chunk_view_arrays result
            ≡ view_arrays_of ⟦<ListChunk as Chunk>⟧.views ⟦<ListChunk as Chunk>⟧.buffers
            arrays.items }
    {
        Chunks::ListType(arrays)
    }

    fn unwrap(chunks: Chunks) -> Option<Vec<ListChunk>> {
        match chunks {
            Chunks::ListType(arrays) => Some(arrays),
            _ => None,
        }
    }
}

/// Marks structs.
pub struct StructType;

impl PolarsDataType for StructType {
    type Array = StructChunk;

    fn accepts(dtype: &DataType) -> bool {
        physical_of(dtype) == Physical::Struct
    }

    fn wrap(arrays: Vec<StructChunk>) -> Chunks
        ensures lists { chunk_lists result ≡ map ⟦<StructChunk as Chunk>⟧.shown arrays.items }
        ensures storage { storage result ≡ kinds.struct kinds.end }
        ensures view_arrays { chunk_view_arrays result
            ≡ view_arrays_of ⟦<StructChunk as Chunk>⟧.views ⟦<StructChunk as Chunk>⟧.buffers
            arrays.items }
    {
        Chunks::StructType(arrays)
    }

    fn unwrap(chunks: Chunks) -> Option<Vec<StructChunk>> {
        match chunks {
            Chunks::StructType(arrays) => Some(arrays),
            _ => None,
        }
    }
}
