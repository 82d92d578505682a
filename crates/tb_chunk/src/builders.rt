//! Chunks of texts and of bytes, made of one after another.
ghost use Rattle.std.specs.Prelude.{◌≡◌, ◌<◌, ◌^◌, [], IfOk, OnOk, OnErr, None, Some, length, map};
ghost use Rattle.std.specs.Option.{option_map};
ghost use Rattle.std.specs.List.{All};
ghost use Rattle.tb_value.specs.Promise.Datum.{binary, string};
ghost use Rattle.tb_value.specs.Promise.Kind as kind;
ghost use Rattle.tb_value.specs.Promise.Typed.{HasType};
ghost use Rattle.tb_cell.specs.Shown.{or_null};
ghost use Rattle.tb_chunk.specs.ChunkTexts.{bytes_of, texts_of};
ghost use Rattle.tb_view.specs.Promise.Layout.{buffers_of};
ghost use Rattle.tb_view.specs.Layout.{building_of, with_nulls, with_row, with_rows};

use crate::chunk::{Chunk, StringChunk};
use crate::owned_chunks::BinaryChunk;
use std::alloc::Global;
use std::marker::Model;
use tb_value::OutOfMemory;
use tb_view::ViewBuilder;

/// A String chunk to which texts are pushed. A text takes no memory of its own: one of up to 12 bytes stands in its view, and a
/// longer one in a buffer that it shares. After a refusal a builder is as it was.
#[derive(Drop)]
pub struct StringBuilder {
    inner: ViewBuilder,
}

impl Model for StringBuilder {
    ghost use Rattle.std.specs.Prelude.{map};
    ghost use Rattle.std.specs.List.{All};
    ghost use Rattle.tb_value.specs.Promise.Datum.{string};
    ghost use Rattle.tb_value.specs.Promise.Kind as kind;
    ghost use Rattle.tb_value.specs.Promise.Typed.{HasType};
    ghost use Rattle.tb_cell.specs.Shown.{or_null};
    ghost use Rattle.tb_view.specs.Layout.{Building};

    ghost Value = { Building };

    ghost view = { λ b. b.inner };

    ghost invariant = { λ b. All (HasType kind.string) (map (or_null string) b.inner.rows) };
}

impl StringBuilder {
    /// The builder of no row, with room for as many as are given.
    pub fn with_capacity(alloc: Global, rows: usize) -> Result<StringBuilder, OutOfMemory>
        ensures { IfOk result (λ b. b ≡ building_of []) }
    {
        Ok(StringBuilder {
            inner: ViewBuilder::with_capacity(alloc, rows)?,
        })
    }

    /// Appends a text. One of 2^32 bytes or more is refused.
    pub fn push(&mut self, alloc: Global, text: &str) -> Result<(), OutOfMemory>
        ensures ok { OnOk result (self.new ≡ with_row self.old (Some text.now)) }
        ensures fits { OnOk result (length text.now < 2 ^ 32) }
        ensures err { OnErr result (self.new ≡ self.old) }
    {
        self.inner.push(alloc, text.as_bytes())
    }

    /// Appends a text so many times. Its bytes are put once.
    pub fn push_times(&mut self, alloc: Global, text: &str, times: usize) -> Result<(), OutOfMemory>
        ensures ok { OnOk result (self.new ≡ with_rows self.old text.now times) }
        ensures fits { OnOk result (length text.now < 2 ^ 32) }
        ensures err { OnErr result (self.new ≡ self.old) }
    {
        self.inner.push_times(alloc, text.as_bytes(), times)
    }

    /// Appends a Null.
    pub fn push_null(&mut self) -> Result<(), OutOfMemory>
        ensures ok { OnOk result (self.new ≡ with_row self.old None) }
        ensures err { OnErr result (self.new ≡ self.old) }
    {
        self.inner.push_null()
    }

    /// Appends Nulls.
    pub fn push_nulls(&mut self, times: usize) -> Result<(), OutOfMemory>
        ensures ok { OnOk result (self.new ≡ with_nulls self.old times) }
        ensures err { OnErr result (self.new ≡ self.old) }
    {
        self.inner.push_nulls(times)
    }

    /// Appends a text, or a Null where there is none.
    pub fn push_option(&mut self, alloc: Global, text: Option<&str>) -> Result<(), OutOfMemory>
        ensures ok { OnOk result
            (self.new ≡ with_row self.old (option_map (λ t. t.now) text.entry)) }
        ensures err { OnErr result (self.new ≡ self.old) }
    {
        match text {
            Some(text) => self.push(alloc, text),
            None => self.push_null(),
        }
    }

    /// The chunk of the rows, each of which is of type String.
    pub fn finish(self, alloc: Global) -> Result<StringChunk, OutOfMemory>
        ensures texts { IfOk result (λ c. texts_of c ≡ self.rows) }
        ensures views { IfOk result (λ c. ⟦<StringChunk as Chunk>⟧.views c ≡ self.views) }
        ensures buffers { IfOk result (λ c.
            ⟦<StringChunk as Chunk>⟧.buffers c ≡ buffers_of self.laid) }
        ensures typed { All (HasType kind.string) (map (or_null string) self.rows) }
    {
        let StringBuilder { inner } = self;
        Ok(StringChunk {
            inner: inner.finish(alloc)?,
        })
    }
}

/// A Binary chunk to which runs of bytes are pushed, as texts are to a `StringBuilder`. After a refusal a builder is as it was.
#[derive(Drop)]
pub struct BinaryBuilder {
    inner: ViewBuilder,
}

impl Model for BinaryBuilder {
    ghost use Rattle.std.specs.Prelude.{map};
    ghost use Rattle.std.specs.List.{All};
    ghost use Rattle.tb_value.specs.Promise.Datum.{binary};
    ghost use Rattle.tb_value.specs.Promise.Kind as kind;
    ghost use Rattle.tb_value.specs.Promise.Typed.{HasType};
    ghost use Rattle.tb_cell.specs.Shown.{or_null};
    ghost use Rattle.tb_view.specs.Layout.{Building};

    ghost Value = { Building };

    ghost view = { λ b. b.inner };

    ghost invariant = { λ b. All (HasType kind.binary) (map (or_null binary) b.inner.rows) };
}

impl BinaryBuilder {
    /// The builder of no row, with room for as many as are given.
    pub fn with_capacity(alloc: Global, rows: usize) -> Result<BinaryBuilder, OutOfMemory>
        ensures { IfOk result (λ b. b ≡ building_of []) }
    {
        Ok(BinaryBuilder {
            inner: ViewBuilder::with_capacity(alloc, rows)?,
        })
    }

    /// Appends bytes. 2^32 of them or more are refused.
    pub fn push(&mut self, alloc: Global, bytes: &[u8]) -> Result<(), OutOfMemory>
        ensures ok { OnOk result (self.new ≡ with_row self.old (Some bytes.now)) }
        ensures fits { OnOk result (length bytes.now < 2 ^ 32) }
        ensures err { OnErr result (self.new ≡ self.old) }
    {
        self.inner.push(alloc, bytes)
    }

    /// Appends bytes so many times. They are put once.
    pub fn push_times(
        &mut self,
        alloc: Global,
        bytes: &[u8],
        times: usize,
    ) -> Result<(), OutOfMemory>
        ensures ok { OnOk result (self.new ≡ with_rows self.old bytes.now times) }
        ensures fits { OnOk result (length bytes.now < 2 ^ 32) }
        ensures err { OnErr result (self.new ≡ self.old) }
    {
        self.inner.push_times(alloc, bytes, times)
    }

    /// Appends a Null.
    pub fn push_null(&mut self) -> Result<(), OutOfMemory>
        ensures ok { OnOk result (self.new ≡ with_row self.old None) }
        ensures err { OnErr result (self.new ≡ self.old) }
    {
        self.inner.push_null()
    }

    /// Appends Nulls.
    pub fn push_nulls(&mut self, times: usize) -> Result<(), OutOfMemory>
        ensures ok { OnOk result (self.new ≡ with_nulls self.old times) }
        ensures err { OnErr result (self.new ≡ self.old) }
    {
        self.inner.push_nulls(times)
    }

    /// Appends bytes, or a Null where there is none.
    pub fn push_option(&mut self, alloc: Global, bytes: Option<&[u8]>) -> Result<(), OutOfMemory>
        ensures ok { OnOk result
            (self.new ≡ with_row self.old (option_map (λ t. t.now) bytes.entry)) }
        ensures err { OnErr result (self.new ≡ self.old) }
    {
        match bytes {
            Some(bytes) => self.push(alloc, bytes),
            None => self.push_null(),
        }
    }

    /// The chunk of the rows, each of which is of type Binary.
    pub fn finish(self, alloc: Global) -> Result<BinaryChunk, OutOfMemory>
        ensures bytes { IfOk result (λ c. bytes_of c ≡ self.rows) }
        ensures views { IfOk result (λ c. ⟦<BinaryChunk as Chunk>⟧.views c ≡ self.views) }
        ensures buffers { IfOk result (λ c.
            ⟦<BinaryChunk as Chunk>⟧.buffers c ≡ buffers_of self.laid) }
        ensures typed { All (HasType kind.binary) (map (or_null binary) self.rows) }
    {
        let BinaryBuilder { inner } = self;
        Ok(BinaryChunk {
            inner: inner.finish(alloc)?,
        })
    }
}
