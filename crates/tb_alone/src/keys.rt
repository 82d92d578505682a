//! The keys of the rows of both sides.
ghost use Rattle.std.specs.Prelude.{◌≡◌, ◌↔◌, ◌<◌, All, IfOk, IfSome, IsSome, length, map};
ghost use Rattle.std.specs.Option.{option_copied};
ghost use Rattle.tb_value.specs.Promise.Datum.{binary};
ghost use Rattle.tb_build.specs.KeyLists.{IsLent};
ghost use Rattle.tb_chunk.specs.Chunk.{or_null};
ghost use Rattle.tb_chunk.specs.Promise.Col.{values};
ghost use Rattle.tb_chunk.specs.Lent.{lent_columns};
ghost use Rattle.tb_frame.specs.Promise.Join.{flag_at};
ghost use Rattle.tb_rowkey.specs.Promise.Columns.{keys_at, row_count};
ghost use Rattle.tb_rowkey.specs.Columns.{AreShortRows};
ghost use Rattle.tb_alone.specs.Keys.{lent_coded, same_key};

use crate::coded::{CodedKey, coded};
use std::alloc::Global;
use tb_build::KeyList;
use tb_frame::JoinNulls;
use tb_rowkey::RowKeys;
use tb_store::Series;
use tb_value::OutOfMemory;

fn as_key(key: Option<&[u8]>) -> Option<CodedKey<'_>>
    ensures { IsLent same_key result (lent_coded (option_copied key.entry)) }
{
    match key {
        Some(bytes) => Some(coded(bytes)),
        None => None,
    }
}

/// The keys of rows, each lent when it is asked for.
#[derive(Clone, Copy)]
pub(crate) struct LentRowKeys<'a> {
    pub(crate) keys: &'a RowKeys,
}

impl<'a> KeyList<CodedKey<'a>> for LentRowKeys<'a> {
    ghost use Rattle.tb_alone.specs.Keys.{coded_list};

    ghost list = { λ l. coded_list l.keys.now };

    fn len(&self) -> usize {
        self.keys.len()
    }

    fn key(&self, row: usize) -> Option<CodedKey<'a>> {
        as_key(self.keys.get(row))
    }
}

/// The keys of the rows of one side, of which a row without a key matches nothing; or none where a row is too long for one.
pub(crate) fn row_keys(
    alloc: Global,
    nulls: &JoinNulls,
    columns: &[&Series],
) -> Result<Option<RowKeys>, OutOfMemory>
    requires some { 0 < length columns.now }
    requires rows { All (λ c. length (values c) ≡ row_count (lent_columns columns.now))
        (lent_columns columns.now) }
    ensures short { IfOk result (λ keys. IsSome keys ↔ AreShortRows (lent_columns columns.now)) }
    ensures keys { IfOk result (λ keys.
        IfSome keys (λ k.
        map (or_null binary) k ≡ keys_at (lent_columns columns.now) (flag_at nulls.now))) }
{
    let flags = nulls.flags(alloc, columns.len())?;
    RowKeys::of_columns(alloc, columns, &flags)
}
