//! The chunks of a column, made of chunks of one stored type.
ghost use Rattle.std.specs.Prelude.{◌≡◌, ◌≢◌, MatchOption, map};
ghost use Rattle.tb_chunk.specs.ChunkViewArrays.{chunk_view_arrays};
ghost use Rattle.tb_chunk.specs.Seen.{chunk_lists, storage};
ghost use Rattle.tb_view.specs.ViewArrays.{view_arrays_of};

use crate::chunk::{Chunk, StringChunk};
use crate::chunks::Chunks;
use crate::owned_chunks::{BinaryChunk, ListChunk, StructChunk};
use tb_cell::Cells;

/// Chunks that a column can have.
pub trait Stored: Chunk {
    /// The chunks as those of a column. It takes no memory.
    fn wrap(chunks: Vec<Self>) -> Chunks
        ensures lists { chunk_lists result ≡ map Self.shown chunks.items }
        ensures storage { storage result ≡ Self.kind }
        ensures view_arrays { chunk_view_arrays result ≡ view_arrays_of Self.views Self.buffers chunks.items };

    /// The chunks of a column, lent. None where they are not stored so.
    fn stored_in(chunks: &Chunks) -> Option<&[Self]>
        ensures { MatchOption result (storage chunks.now ≢ Self.kind) (λ v. (storage chunks.now ≡ Self.kind)
            × (chunk_lists chunks.now ≡ map Self.shown v.now) × (chunk_view_arrays chunks.now ≡ view_arrays_of Self.views Self.buffers v.now)) };
}

impl Stored for Cells<bool> {
    fn wrap(chunks: Vec<Cells<bool>>) -> Chunks
        ensures lists { chunk_lists result ≡ map ⟦<Cells<bool> as Chunk>⟧.shown chunks.items }
        ensures storage { storage result ≡ ⟦<Cells<bool> as Chunk>⟧.kind }
        ensures view_arrays { chunk_view_arrays result
            ≡ view_arrays_of ⟦<Cells<bool> as Chunk>⟧.views ⟦<Cells<bool> as Chunk>⟧.buffers
            chunks.items }
    {
        Chunks::BooleanType(chunks)
    }

    fn stored_in(chunks: &Chunks) -> Option<&[Cells<bool>]> {
        match chunks {
            Chunks::BooleanType(chunks) => Some(chunks.as_slice()),
            _ => None,
        }
    }
}

impl Stored for Cells<i8> {
    fn wrap(chunks: Vec<Cells<i8>>) -> Chunks
        ensures lists { chunk_lists result ≡ map ⟦<Cells<i8> as Chunk>⟧.shown chunks.items }
        ensures storage { storage result ≡ ⟦<Cells<i8> as Chunk>⟧.kind }
        ensures view_arrays { chunk_view_arrays result
            ≡ view_arrays_of ⟦<Cells<i8> as Chunk>⟧.views ⟦<Cells<i8> as Chunk>⟧.buffers
            chunks.items }
    {
        Chunks::Int8Type(chunks)
    }

    fn stored_in(chunks: &Chunks) -> Option<&[Cells<i8>]> {
        match chunks {
            Chunks::Int8Type(chunks) => Some(chunks.as_slice()),
            _ => None,
        }
    }
}

impl Stored for Cells<i16> {
    fn wrap(chunks: Vec<Cells<i16>>) -> Chunks
        ensures lists { chunk_lists result ≡ map ⟦<Cells<i16> as Chunk>⟧.shown chunks.items }
        ensures storage { storage result ≡ ⟦<Cells<i16> as Chunk>⟧.kind }
        ensures view_arrays { chunk_view_arrays result
            ≡ view_arrays_of ⟦<Cells<i16> as Chunk>⟧.views ⟦<Cells<i16> as Chunk>⟧.buffers
            chunks.items }
    {
        Chunks::Int16Type(chunks)
    }

    fn stored_in(chunks: &Chunks) -> Option<&[Cells<i16>]> {
        match chunks {
            Chunks::Int16Type(chunks) => Some(chunks.as_slice()),
            _ => None,
        }
    }
}

impl Stored for Cells<i32> {
    fn wrap(chunks: Vec<Cells<i32>>) -> Chunks
        ensures lists { chunk_lists result ≡ map ⟦<Cells<i32> as Chunk>⟧.shown chunks.items }
        ensures storage { storage result ≡ ⟦<Cells<i32> as Chunk>⟧.kind }
        ensures view_arrays { chunk_view_arrays result
            ≡ view_arrays_of ⟦<Cells<i32> as Chunk>⟧.views ⟦<Cells<i32> as Chunk>⟧.buffers
            chunks.items }
    {
        Chunks::Int32Type(chunks)
    }

    fn stored_in(chunks: &Chunks) -> Option<&[Cells<i32>]> {
        match chunks {
            Chunks::Int32Type(chunks) => Some(chunks.as_slice()),
            _ => None,
        }
    }
}

impl Stored for Cells<i64> {
    fn wrap(chunks: Vec<Cells<i64>>) -> Chunks
        ensures lists { chunk_lists result ≡ map ⟦<Cells<i64> as Chunk>⟧.shown chunks.items }
        ensures storage { storage result ≡ ⟦<Cells<i64> as Chunk>⟧.kind }
        ensures view_arrays { chunk_view_arrays result
            ≡ view_arrays_of ⟦<Cells<i64> as Chunk>⟧.views ⟦<Cells<i64> as Chunk>⟧.buffers
            chunks.items }
    {
        Chunks::Int64Type(chunks)
    }

    fn stored_in(chunks: &Chunks) -> Option<&[Cells<i64>]> {
        match chunks {
            Chunks::Int64Type(chunks) => Some(chunks.as_slice()),
            _ => None,
        }
    }
}

impl Stored for Cells<i128> {
    fn wrap(chunks: Vec<Cells<i128>>) -> Chunks
        ensures lists { chunk_lists result ≡ map ⟦<Cells<i128> as Chunk>⟧.shown chunks.items }
        ensures storage { storage result ≡ ⟦<Cells<i128> as Chunk>⟧.kind }
        ensures view_arrays { chunk_view_arrays result
            ≡ view_arrays_of ⟦<Cells<i128> as Chunk>⟧.views ⟦<Cells<i128> as Chunk>⟧.buffers
            chunks.items }
    {
        Chunks::Int128Type(chunks)
    }

    fn stored_in(chunks: &Chunks) -> Option<&[Cells<i128>]> {
        match chunks {
            Chunks::Int128Type(chunks) => Some(chunks.as_slice()),
            _ => None,
        }
    }
}

impl Stored for Cells<u8> {
    fn wrap(chunks: Vec<Cells<u8>>) -> Chunks
        ensures lists { chunk_lists result ≡ map ⟦<Cells<u8> as Chunk>⟧.shown chunks.items }
        ensures storage { storage result ≡ ⟦<Cells<u8> as Chunk>⟧.kind }
        ensures view_arrays { chunk_view_arrays result
            ≡ view_arrays_of ⟦<Cells<u8> as Chunk>⟧.views ⟦<Cells<u8> as Chunk>⟧.buffers
            chunks.items }
    {
        Chunks::UInt8Type(chunks)
    }

    fn stored_in(chunks: &Chunks) -> Option<&[Cells<u8>]> {
        match chunks {
            Chunks::UInt8Type(chunks) => Some(chunks.as_slice()),
            _ => None,
        }
    }
}

impl Stored for Cells<u16> {
    fn wrap(chunks: Vec<Cells<u16>>) -> Chunks
        ensures lists { chunk_lists result ≡ map ⟦<Cells<u16> as Chunk>⟧.shown chunks.items }
        ensures storage { storage result ≡ ⟦<Cells<u16> as Chunk>⟧.kind }
        ensures view_arrays { chunk_view_arrays result
            ≡ view_arrays_of ⟦<Cells<u16> as Chunk>⟧.views ⟦<Cells<u16> as Chunk>⟧.buffers
            chunks.items }
    {
        Chunks::UInt16Type(chunks)
    }

    fn stored_in(chunks: &Chunks) -> Option<&[Cells<u16>]> {
        match chunks {
            Chunks::UInt16Type(chunks) => Some(chunks.as_slice()),
            _ => None,
        }
    }
}

impl Stored for Cells<u32> {
    fn wrap(chunks: Vec<Cells<u32>>) -> Chunks
        ensures lists { chunk_lists result ≡ map ⟦<Cells<u32> as Chunk>⟧.shown chunks.items }
        ensures storage { storage result ≡ ⟦<Cells<u32> as Chunk>⟧.kind }
        ensures view_arrays { chunk_view_arrays result
            ≡ view_arrays_of ⟦<Cells<u32> as Chunk>⟧.views ⟦<Cells<u32> as Chunk>⟧.buffers
            chunks.items }
    {
        Chunks::UInt32Type(chunks)
    }

    fn stored_in(chunks: &Chunks) -> Option<&[Cells<u32>]> {
        match chunks {
            Chunks::UInt32Type(chunks) => Some(chunks.as_slice()),
            _ => None,
        }
    }
}

impl Stored for Cells<u64> {
    fn wrap(chunks: Vec<Cells<u64>>) -> Chunks
        ensures lists { chunk_lists result ≡ map ⟦<Cells<u64> as Chunk>⟧.shown chunks.items }
        ensures storage { storage result ≡ ⟦<Cells<u64> as Chunk>⟧.kind }
        ensures view_arrays { chunk_view_arrays result
            ≡ view_arrays_of ⟦<Cells<u64> as Chunk>⟧.views ⟦<Cells<u64> as Chunk>⟧.buffers
            chunks.items }
    {
        Chunks::UInt64Type(chunks)
    }

    fn stored_in(chunks: &Chunks) -> Option<&[Cells<u64>]> {
        match chunks {
            Chunks::UInt64Type(chunks) => Some(chunks.as_slice()),
            _ => None,
        }
    }
}

impl Stored for StringChunk {
    fn wrap(chunks: Vec<StringChunk>) -> Chunks
        ensures lists { chunk_lists result ≡ map ⟦<StringChunk as Chunk>⟧.shown chunks.items }
        ensures storage { storage result ≡ ⟦<StringChunk as Chunk>⟧.kind }
        ensures view_arrays { chunk_view_arrays result
            ≡ view_arrays_of ⟦<StringChunk as Chunk>⟧.views ⟦<StringChunk as Chunk>⟧.buffers
            chunks.items }
    {
        Chunks::StringType(chunks)
    }

    fn stored_in(chunks: &Chunks) -> Option<&[StringChunk]> {
        match chunks {
            Chunks::StringType(chunks) => Some(chunks.as_slice()),
            _ => None,
        }
    }
}

impl Stored for BinaryChunk {
    fn wrap(chunks: Vec<BinaryChunk>) -> Chunks
        ensures lists { chunk_lists result ≡ map ⟦<BinaryChunk as Chunk>⟧.shown chunks.items }
        ensures storage { storage result ≡ ⟦<BinaryChunk as Chunk>⟧.kind }
        ensures view_arrays { chunk_view_arrays result
            ≡ view_arrays_of ⟦<BinaryChunk as Chunk>⟧.views ⟦<BinaryChunk as Chunk>⟧.buffers
            chunks.items }
    {
        Chunks::BinaryType(chunks)
    }

    fn stored_in(chunks: &Chunks) -> Option<&[BinaryChunk]> {
        match chunks {
            Chunks::BinaryType(chunks) => Some(chunks.as_slice()),
            _ => None,
        }
    }
}

impl Stored for ListChunk {
    fn wrap(chunks: Vec<ListChunk>) -> Chunks
        ensures lists { chunk_lists result ≡ map ⟦<ListChunk as Chunk>⟧.shown chunks.items }
        ensures storage { storage result ≡ ⟦<ListChunk as Chunk>⟧.kind }
        ensures view_arrays { chunk_view_arrays result
            ≡ view_arrays_of ⟦<ListChunk as Chunk>⟧.views ⟦<ListChunk as Chunk>⟧.buffers
            chunks.items }
    {
        Chunks::ListType(chunks)
    }

    fn stored_in(chunks: &Chunks) -> Option<&[ListChunk]> {
        match chunks {
            Chunks::ListType(chunks) => Some(chunks.as_slice()),
            _ => None,
        }
    }
}

impl Stored for StructChunk {
    fn wrap(chunks: Vec<StructChunk>) -> Chunks
        ensures lists { chunk_lists result ≡ map ⟦<StructChunk as Chunk>⟧.shown chunks.items }
        ensures storage { storage result ≡ ⟦<StructChunk as Chunk>⟧.kind }
        ensures view_arrays { chunk_view_arrays result
            ≡ view_arrays_of ⟦<StructChunk as Chunk>⟧.views ⟦<StructChunk as Chunk>⟧.buffers
            chunks.items }
    {
        Chunks::StructType(chunks)
    }

    fn stored_in(chunks: &Chunks) -> Option<&[StructChunk]> {
        match chunks {
            Chunks::StructType(chunks) => Some(chunks.as_slice()),
            _ => None,
        }
    }
}

impl Stored for usize {
    fn wrap(chunks: Vec<usize>) -> Chunks
        ensures lists { chunk_lists result ≡ map ⟦<usize as Chunk>⟧.shown chunks.items }
        ensures storage { storage result ≡ ⟦<usize as Chunk>⟧.kind }
        ensures view_arrays { chunk_view_arrays result
            ≡ view_arrays_of ⟦<usize as Chunk>⟧.views ⟦<usize as Chunk>⟧.buffers chunks.items }
    {
        Chunks::Null(chunks)
    }

    fn stored_in(chunks: &Chunks) -> Option<&[usize]> {
        match chunks {
            Chunks::Null(chunks) => Some(chunks.as_slice()),
            _ => None,
        }
    }
}
