//! The values of rows in some columns, asked for by each row.
ghost use Rattle.std.specs.Prelude.{◌≡◌, ◌∷◌, []};
ghost use Rattle.tb_value.specs.See.{lent_value};
ghost use Rattle.tb_rows.specs.Fields.{fields_at, row_code, same_at};
ghost use Rattle.tb_rows.specs.Promise.Rows.{row_value};

use crate::fields::{code_at, same_fields};
use std::hash::{FoldHasher, Hasher};
use tb_store::{Chunk, Series};
use tb_value::{ValueRef, hash_ref, same_value};

/// Rows by their values in some columns. `columns` is the list of these.
pub(crate) trait RowValues {
    ghost use Rattle.std.specs.Prelude.{List};
    ghost use Rattle.std.specs.Borrow.{Bor};
    ghost use Rattle.tb_chunk.specs.Promise.Col.{Col};

    ghost columns: { Self → List (Bor Col) };

    /// That it holds what its columns have.
    ghost IsWhole: { Self → Type 0 };

    /// The code of a row's values. Others may have it too.
    fn code(&self, row: usize) -> u64
        requires { IsWhole self.now }
        ensures { result ≡ row_code (fields_at (columns self.now) row) };

    /// Whether two rows have the same values.
    fn are_same(&self, first: usize, second: usize) -> bool
        requires { IsWhole self.now }
        ensures { result ≡ same_at (columns self.now) first second };
}

/// Any columns. The type and the chunk of each value are found anew.
#[derive(Drop)]
pub(crate) struct AnyColumns<'a, 'b> {
    pub(crate) columns: &'a [&'b Series],
}

impl<'a, 'b> RowValues for AnyColumns<'a, 'b> {
    ghost use Rattle.std.specs.Prelude.{⊤};

    ghost columns = { λ a. a.columns.now };

    ghost IsWhole = { λ _. ⊤ };

    fn code(&self, row: usize) -> u64 {
        code_at(self.columns, row)
    }

    fn are_same(&self, first: usize, second: usize) -> bool {
        same_fields(self.columns, first, second)
    }
}

/// A column, and the one chunk in which its values lie.
#[derive(Drop)]
pub(crate) struct OneChunk<'a, C: Chunk> {
    pub(crate) column: &'a Series,
    pub(crate) chunk: &'a C,
}

// The value of a row, and Null past the end.
fn chunk_value<C: Chunk>(chunk: &C, row: usize) -> ValueRef<'_>
    ensures { lent_value result ≡ row_value (C.shown chunk.now) row }
{
    if row < chunk.len() {
        chunk.value(row)
    } else {
        ValueRef::Null
    }
}

fn code_of(value: ValueRef<'_>) -> u64
    ensures { result ≡ row_code (lent_value value.entry ∷ []) }
{
    let mut state = FoldHasher::default();
    hash_ref(value, &mut state);
    state.finish()
}

impl<'a, C: Chunk> RowValues for OneChunk<'a, C> {
    ghost use Rattle.std.specs.Prelude.{◌≡◌, ◌∷◌, []};
    ghost use Rattle.tb_chunk.specs.Promise.Col.{values};

    ghost columns = { λ o. o.column ∷ [] };

    ghost IsWhole = { λ o. values o.column.now ≡ C.shown o.chunk.now };

    fn code(&self, row: usize) -> u64 {
        code_of(chunk_value(self.chunk, row))
    }

    fn are_same(&self, first: usize, second: usize) -> bool {
        same_value(
            chunk_value(self.chunk, first),
            chunk_value(self.chunk, second),
        )
    }
}
