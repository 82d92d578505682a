//! The views and the buffers of columns of texts and of bytes, as they are given and lent.
ghost use Rattle.std.specs.Prelude.{◌≡◌, ◌⊎◌, ◌<◌, ◌≤◌, ◌^◌, ◌∷◌, [], All, IfOk, length, map, slice_index_or};
ghost use Rattle.tb_value.specs.Promise.Datum.{binary, string};
ghost use Rattle.tb_value.specs.Promise.Kind as kind;
ghost use Rattle.tb_value.specs.SeeKind.{kind_of};
ghost use Rattle.tb_value.specs.Promise.Typed.{HasType, IsBytes};
ghost use Rattle.tb_value.specs.declared.sorted.IsSorted.TheVariants.{Not};
ghost use Rattle.tb_chunk.specs.Chunk.{or_null};
ghost use Rattle.tb_chunk.specs.Physical.{kind_for};
ghost use Rattle.tb_chunk.specs.ChunkViewArrays.{chunk_view_arrays};
ghost use Rattle.tb_chunk.specs.Seen.{chunk_lists, storage};
ghost use Rattle.tb_value.specs.Texts.{IsUtf8Row};
ghost use Rattle.tb_chunk.specs.TextValues.{text_values};
ghost use Rattle.tb_chunk.specs.View.{row_text, texts, IsViewOrNone};
ghost use Rattle.tb_chunk.specs.ViewArrays.{view_array_at};

use crate::chunked_array::ChunkedArray;
use crate::column::Column;
use crate::data_type::{BinaryType, StringType};
use crate::series::Series;
use std::alloc::Global;
use tb_chunk::{BinaryChunk, Chunks, Physical, StringChunk, View, physical_of};
use tb_value::{Bytes, DataType, IsSorted, MAX_ROWS, OutOfMemory, PlSmallStr};

// Bytes that are lent are numbers below 256, by their type.
fn read_bytes(text: &[u8])
    ensures { IsBytes text.now }
{}

// Reads the text of a row, which shows that it is of type Binary: its length is a number of 32 bits, and what is lent of it is bytes.
fn read_text(view: &Option<View>, buffers: &[Bytes])
    requires { IsViewOrNone buffers.now view.now }
    ensures { HasType kind.binary (or_null binary (row_text buffers.now view.now)) }
{
    if let Some(view) = view {
        let _length = view.length;
        read_bytes(view.text(buffers));
    }
}

// The same of all rows. It is shown by reading them, since contracts see a buffer as a list of any numbers.
fn read_texts(views: &[Option<View>], buffers: &[Bytes])
    requires { All (IsViewOrNone buffers.now) views.now }
    ensures { All (HasType kind.binary) (text_values kind.binary (texts buffers.now views.now)) }
{
    for view in views {
        read_text(view, buffers);
    }
}

// The only chunk of these views, stored as texts or as bytes.
fn text_chunks(
    alloc: Global,
    stored: Physical,
    views: Vec<Option<View>>,
    buffers: Vec<Bytes>,
) -> Result<Chunks, OutOfMemory>
    requires text { (kind_for stored ≡ kind.string) ⊎ (kind_for stored ≡ kind.binary) }
    requires formed { All (IsViewOrNone buffers.items) views.items }
    requires few { length buffers.items < 2 ^ 32 }
    requires utf8 { kind_for stored ≡ kind.string
        → All IsUtf8Row (texts buffers.items views.items) }
    ensures lists { IfOk result (λ c.
        chunk_lists c ≡ text_values (kind_for stored) (texts buffers.items views.items) ∷ []) }
    ensures storage { IfOk result (λ c. storage c ≡ kind_for stored) }
    ensures view_arrays { IfOk result (λ c.
        chunk_view_arrays c ≡ record { views = views.items; buffers = buffers.items } ∷ []) }
{
    match stored {
        Physical::String => {
            let mut chunks = Vec::with_capacity(alloc, 1)?;
            chunks.push(StringChunk::from_views(views, buffers))?;
            Ok(Chunks::StringType(chunks))
        }
        Physical::Binary => {
            let mut chunks = Vec::with_capacity(alloc, 1)?;
            chunks.push(BinaryChunk::from_views(views, buffers))?;
            Ok(Chunks::BinaryType(chunks))
        }
        _ => unreachable!(),
    }
}

impl Series {
    /// The column of one chunk with a row for each view: the text that it stands for over these buffers, or Null. The flag
    /// is Not. The type is String or Binary, and the texts of a String are UTF-8. Each text is read once, and none is copied.
    pub fn from_views(
        alloc: Global,
        name: PlSmallStr,
        dtype: DataType,
        views: Vec<Option<View>>,
        buffers: Vec<Bytes>,
    ) -> Result<Series, OutOfMemory>
        requires text { (kind_of dtype ≡ kind.string) ⊎ (kind_of dtype ≡ kind.binary) }
        requires formed { All (IsViewOrNone buffers.items) views.items }
        requires few { length views.items ≤ MAX_ROWS }
        requires few_buffers { length buffers.items < 2 ^ 32 }
        requires utf8 { kind_of dtype ≡ kind.string
            → All IsUtf8Row (texts buffers.items views.items) }
        ensures { IfOk result (λ s. s ≡ record {
          name = name;
          kind = kind_of dtype;
          chunks = text_values (kind_of dtype) (texts buffers.items views.items) ∷ [];
          flag = Not;
          view_arrays = record { views = views.items; buffers = buffers.items } ∷ [];
        }) }
    {
        read_texts(&views, &buffers);
        let chunks = text_chunks(alloc, physical_of(&dtype), views, buffers)?;
        Ok(Series::from_parts(name, dtype, chunks, IsSorted::Not))
    }

    /// The view of each row of a chunk, none where it is Null. The views have their form over the chunk's buffers, and the values
    /// of the chunk are the texts that they stand for. `from_views` takes them with copies of the buffers.
    pub fn views(&self, chunk: usize) -> &[Option<View>]
        requires text { (self.now.kind ≡ kind.string) ⊎ (self.now.kind ≡ kind.binary) }
        requires chunk { chunk < length self.now.chunks }
        ensures views { result.now ≡ (view_array_at self.now.view_arrays chunk).views }
        ensures formed { All (IsViewOrNone (view_array_at self.now.view_arrays chunk).buffers)
            result.now }
        ensures texts { slice_index_or self.now.chunks chunk []
            ≡ text_values self.now.kind
            (texts (view_array_at self.now.view_arrays chunk).buffers result.now) }
        ensures few { length result.now ≤ MAX_ROWS }
        ensures utf8 { self.now.kind ≡ kind.string
            → All IsUtf8Row (texts (view_array_at self.now.view_arrays chunk).buffers result.now) }
    {
        self.chunks.views(chunk)
    }

    /// The buffers that the views of a chunk stand over.
    pub fn data_buffers(&self, chunk: usize) -> &[Bytes]
        requires text { (self.now.kind ≡ kind.string) ⊎ (self.now.kind ≡ kind.binary) }
        requires chunk { chunk < length self.now.chunks }
        ensures buffers { result.now ≡ (view_array_at self.now.view_arrays chunk).buffers }
        ensures few { length result.now < 2 ^ 32 }
    {
        self.chunks.data_buffers(chunk)
    }
}

impl Column {
    /// As `Series::views`.
    pub fn views(&self, chunk: usize) -> &[Option<View>]
        requires text { (self.now.kind ≡ kind.string) ⊎ (self.now.kind ≡ kind.binary) }
        requires chunk { chunk < length self.now.chunks }
        ensures views { result.now ≡ (view_array_at self.now.view_arrays chunk).views }
        ensures formed { All (IsViewOrNone (view_array_at self.now.view_arrays chunk).buffers)
            result.now }
        ensures texts { slice_index_or self.now.chunks chunk []
            ≡ text_values self.now.kind
            (texts (view_array_at self.now.view_arrays chunk).buffers result.now) }
        ensures few { length result.now ≤ MAX_ROWS }
        ensures utf8 { self.now.kind ≡ kind.string
            → All IsUtf8Row (texts (view_array_at self.now.view_arrays chunk).buffers result.now) }
    {
        self.as_materialized_series().views(chunk)
    }

    /// As `Series::data_buffers`.
    pub fn data_buffers(&self, chunk: usize) -> &[Bytes]
        requires text { (self.now.kind ≡ kind.string) ⊎ (self.now.kind ≡ kind.binary) }
        requires chunk { chunk < length self.now.chunks }
        ensures buffers { result.now ≡ (view_array_at self.now.view_arrays chunk).buffers }
        ensures few { length result.now < 2 ^ 32 }
    {
        self.as_materialized_series().data_buffers(chunk)
    }
}

impl ChunkedArray<StringType> {
    /// As `Series::views`.
    pub fn views(&self, chunk: usize) -> &[Option<View>]
        requires { chunk < length self.now.chunks }
        ensures views { result.now ≡ (view_array_at self.now.view_arrays chunk).views }
        ensures formed { All (IsViewOrNone (view_array_at self.now.view_arrays chunk).buffers)
            result.now }
        ensures texts { slice_index_or self.now.chunks chunk []
            ≡ map (or_null string)
            (texts (view_array_at self.now.view_arrays chunk).buffers result.now) }
        ensures few { length result.now ≤ MAX_ROWS }
        ensures utf8 { All IsUtf8Row
            (texts (view_array_at self.now.view_arrays chunk).buffers result.now) }
    {
        self.chunks[chunk].views()
    }

    /// As `Series::data_buffers`.
    pub fn data_buffers(&self, chunk: usize) -> &[Bytes]
        requires { chunk < length self.now.chunks }
        ensures buffers { result.now ≡ (view_array_at self.now.view_arrays chunk).buffers }
        ensures few { length result.now < 2 ^ 32 }
    {
        self.chunks[chunk].buffers()
    }
}

impl ChunkedArray<BinaryType> {
    /// As `Series::views`.
    pub fn views(&self, chunk: usize) -> &[Option<View>]
        requires { chunk < length self.now.chunks }
        ensures views { result.now ≡ (view_array_at self.now.view_arrays chunk).views }
        ensures formed { All (IsViewOrNone (view_array_at self.now.view_arrays chunk).buffers)
            result.now }
        ensures texts { slice_index_or self.now.chunks chunk []
            ≡ map (or_null binary)
            (texts (view_array_at self.now.view_arrays chunk).buffers result.now) }
        ensures few { length result.now ≤ MAX_ROWS }
    {
        self.chunks[chunk].views()
    }

    /// As `Series::data_buffers`.
    pub fn data_buffers(&self, chunk: usize) -> &[Bytes]
        requires { chunk < length self.now.chunks }
        ensures buffers { result.now ≡ (view_array_at self.now.view_arrays chunk).buffers }
        ensures few { length result.now < 2 ^ 32 }
    {
        self.chunks[chunk].buffers()
    }
}
