//! Texts, their views and their buffers, as they are given and lent.
ghost use Rattle.std.specs.Prelude.{◌≡◌, ◌⊎◌, ◌<◌, ◌^◌, [], All, None, get_or, length, slice_index_or};
ghost use Rattle.std.specs.Option.{option_map};
ghost use Rattle.tb_value.specs.Promise.Kind as kind;
ghost use Rattle.tb_chunk.specs.ChunkTexts.{bytes_of, texts_of};
ghost use Rattle.tb_chunk.specs.ChunkViewArrays.{chunk_view_arrays};
ghost use Rattle.tb_chunk.specs.Seen.{chunk_lists, storage};
ghost use Rattle.tb_value.specs.Texts.{IsUtf8Row};
ghost use Rattle.tb_chunk.specs.TextValues.{text_values};
ghost use Rattle.tb_view.specs.View.{texts, IsViewOrNone};
ghost use Rattle.tb_view.specs.ViewArrays.{view_array_at};

use crate::chunk::{Chunk, StringChunk};
use crate::chunks::Chunks;
use crate::owned_chunks::BinaryChunk;
use tb_value::Bytes;
use tb_view::{View, ViewChunk};

impl StringChunk {
    /// The chunk of the texts that these views stand for over these buffers; no view is Null. Nothing is copied.
    pub fn from_views(views: Vec<Option<View>>, buffers: Vec<Bytes>) -> StringChunk
        requires formed { All (IsViewOrNone buffers.items) views.items }
        requires few { length buffers.items < 2 ^ 32 }
        requires utf8 { All IsUtf8Row (texts buffers.items views.items) }
        ensures views { ⟦<StringChunk as Chunk>⟧.views result ≡ views.items }
        ensures buffers { ⟦<StringChunk as Chunk>⟧.buffers result ≡ buffers.items }
    {
        StringChunk {
            inner: ViewChunk { views, buffers },
        }
    }

    /// The text of a row, lent; `None` is Null.
    pub fn get(&self, row: usize) -> Option<&[u8]>
        requires { row < length (texts_of self.now) }
        ensures { option_map (λ t. t.now) result ≡ get_or (texts_of self.now) row None }
    {
        self.inner.get(row)
    }

    /// The view of each row, none where it is Null.
    pub fn views(&self) -> &[Option<View>]
        ensures views { result.now ≡ ⟦<StringChunk as Chunk>⟧.views self.now }
        ensures formed { All (IsViewOrNone (⟦<StringChunk as Chunk>⟧.buffers self.now)) result.now }
    {
        self.inner.views()
    }

    /// The buffers that the views stand over.
    pub fn buffers(&self) -> &[Bytes]
        ensures { result.now ≡ ⟦<StringChunk as Chunk>⟧.buffers self.now }
    {
        self.inner.buffers()
    }
}

impl BinaryChunk {
    /// The chunk of the bytes that these views stand for over these buffers; no view is Null. Nothing is copied.
    pub fn from_views(views: Vec<Option<View>>, buffers: Vec<Bytes>) -> BinaryChunk
        requires formed { All (IsViewOrNone buffers.items) views.items }
        requires few { length buffers.items < 2 ^ 32 }
        ensures views { ⟦<BinaryChunk as Chunk>⟧.views result ≡ views.items }
        ensures buffers { ⟦<BinaryChunk as Chunk>⟧.buffers result ≡ buffers.items }
    {
        BinaryChunk {
            inner: ViewChunk { views, buffers },
        }
    }

    /// The bytes of a row, lent; `None` is Null.
    pub fn get(&self, row: usize) -> Option<&[u8]>
        requires { row < length (bytes_of self.now) }
        ensures { option_map (λ t. t.now) result ≡ get_or (bytes_of self.now) row None }
    {
        self.inner.get(row)
    }

    /// The view of each row, none where it is Null.
    pub fn views(&self) -> &[Option<View>]
        ensures views { result.now ≡ ⟦<BinaryChunk as Chunk>⟧.views self.now }
        ensures formed { All (IsViewOrNone (⟦<BinaryChunk as Chunk>⟧.buffers self.now)) result.now }
    {
        self.inner.views()
    }

    /// The buffers that the views stand over.
    pub fn buffers(&self) -> &[Bytes]
        ensures { result.now ≡ ⟦<BinaryChunk as Chunk>⟧.buffers self.now }
    {
        self.inner.buffers()
    }
}

// The texts of a chunk, or its bytes.
fn texts_in(chunks: &Chunks, chunk: usize) -> &ViewChunk
    requires text { storage chunks.now ≡ kind.string ⊎ storage chunks.now ≡ kind.binary }
    requires chunk { chunk < length (chunk_lists chunks.now) }
    ensures views { result.now.views.items
        ≡ (view_array_at (chunk_view_arrays chunks.now) chunk).views }
    ensures buffers { result.now.buffers.items
        ≡ (view_array_at (chunk_view_arrays chunks.now) chunk).buffers }
    ensures texts { slice_index_or (chunk_lists chunks.now) chunk []
        ≡ text_values (storage chunks.now) (texts result.now.buffers.items result.now.views.items) }
{
    match chunks {
        Chunks::StringType(chunks) => &chunks[chunk].inner,
        Chunks::BinaryType(chunks) => &chunks[chunk].inner,
        _ => unreachable!(),
    }
}

impl Chunks {
    /// The view of each row of a chunk of texts or bytes, none where it is Null. The values of the chunk are the texts that the
    /// views stand for over its buffers.
    pub fn views(&self, chunk: usize) -> &[Option<View>]
        requires text { storage self.now ≡ kind.string ⊎ storage self.now ≡ kind.binary }
        requires chunk { chunk < length (chunk_lists self.now) }
        ensures views { result.now ≡ (view_array_at (chunk_view_arrays self.now) chunk).views }
        ensures formed { All
            (IsViewOrNone (view_array_at (chunk_view_arrays self.now) chunk).buffers) result.now }
        ensures texts { slice_index_or (chunk_lists self.now) chunk []
            ≡ text_values (storage self.now)
            (texts (view_array_at (chunk_view_arrays self.now) chunk).buffers result.now) }
    {
        texts_in(self, chunk).views()
    }

    /// The buffers that those views stand over.
    pub fn data_buffers(&self, chunk: usize) -> &[Bytes]
        requires text { storage self.now ≡ kind.string ⊎ storage self.now ≡ kind.binary }
        requires chunk { chunk < length (chunk_lists self.now) }
        ensures { result.now ≡ (view_array_at (chunk_view_arrays self.now) chunk).buffers }
    {
        texts_in(self, chunk).buffers()
    }
}
