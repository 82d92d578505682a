//! A column in one chunk, whose type is told once and not at each row.
ghost use Rattle.std.specs.Prelude.{◌≡◌, ◌<◌, ◌≤◌, ◌++◌, IfOk, OnOk, length, slice_index_or};
ghost use Rattle.tb_value.specs.Promise.Datum.{is_present, null};
ghost use Rattle.tb_chunk.specs.Promise.Col.{values};
ghost use Rattle.tb_rowkey.specs.Promise.RowKey.{field_code};

use crate::room::room_of;
use crate::stored_chunk::{StoredChunk, stored_chunk};
use std::marker::Model;
use tb_store::{MAX_ROWS, OutOfMemory, Series};

/// A column in one chunk, and that chunk by the type that it is stored as.
#[derive(Drop)]
pub(crate) struct FieldColumn<'a> {
    column: &'a Series,
    chunk: StoredChunk<'a>,
}

impl<'a> Model for FieldColumn<'a> {
    ghost use Rattle.tb_chunk.specs.Promise.Col.{Col};
    ghost use Rattle.tb_chunk.specs.ColCode.{coded_col};
    ghost use Rattle.tb_rowkey.specs.FieldColumns.{IsChunkOf};

    ghost Value = { Col };

    ghost coded = { coded_col };

    ghost view = { λ f. f.column.now };

    ghost invariant = { λ f. IsChunkOf f.column.now f.chunk };
}

impl<'a> FieldColumn<'a> {
    /// The column, which has one chunk.
    pub(crate) fn new(column: &'a Series) -> FieldColumn<'a>
        requires { length column.now.chunks ≡ 1 }
        ensures { result ≡ column.now }
    {
        let _len = column.len();
        FieldColumn {
            column,
            chunk: stored_chunk(column.chunks()),
        }
    }

    /// The number of values.
    pub(crate) fn len(&self) -> usize
        ensures len { result ≡ length (values self.now) }
        ensures few { result ≤ MAX_ROWS }
    {
        self.column.len()
    }

    /// How many bytes the fields take, or a little more where some are Null. No contract rests on it.
    pub(crate) fn room(&self) -> usize {
        room_of(&self.chunk, self.column.len())
    }

    /// Writes the bytes of a row's field behind those that are there, and says whether it is present.
    pub(crate) fn push_field(&self, bytes: &mut Vec<u8>, row: usize) -> Result<bool, OutOfMemory>
        requires { row < length (values self.now) }
        ensures bytes { OnOk result
            (bytes.new.items
            ≡ bytes.old.items
            ++ field_code self.now.kind (slice_index_or (values self.now) row null)) }
        ensures present { IfOk result (λ b.
            b ≡ is_present (slice_index_or (values self.now) row null)) }
    {
        self.chunk.push_field(bytes, row)
    }
}
