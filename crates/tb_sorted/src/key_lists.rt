//! Lists of keys, as they lie in memory.
ghost use Rattle.std.specs.Prelude.{◌≡◌, ◌<◌, ℤ, List, length};
ghost use Rattle.tb_merge.specs.Keys.{key_at};

use crate::cells::WholeCell;
use std::marker::Sync;
use tb_value::IdxSize;

/// A list of keys, each a whole number that is stored as an N.
pub(crate) trait NumberList<N: WholeCell>: Sync {
    ghost keys: { Self → List ℤ };

    fn len(&self) -> usize
        ensures { result ≡ length (keys self.now) };

    fn key(&self, row: usize) -> N
        requires { row < length (keys self.now) }
        ensures { N.number result ≡ key_at (keys self.now) row };
}

/// The values of a column, lent.
#[derive(Clone, Copy)]
pub(crate) struct LentValues<'a, N> {
    pub values: &'a [N],
}

impl<N: WholeCell> NumberList<N> for LentValues<'_, N> {
    ghost use Rattle.std.specs.Prelude.{map};

    ghost keys = { λ s. map N.number s.values.now };

    fn len(&self) -> usize {
        self.values.len()
    }

    fn key(&self, row: usize) -> N {
        self.values[row]
    }
}

/// Keys with their rows, sorted by key.
#[derive(Clone, Copy)]
pub(crate) struct SortedRows<'a, N> {
    pub rows: &'a [(N, IdxSize)],
}

impl<N: WholeCell> NumberList<N> for SortedRows<'_, N> {
    ghost use Rattle.tb_sorted.specs.SortedRows.{keys_of, numbered_keys};

    ghost keys = { λ s. keys_of (numbered_keys N.number s.rows.now) };

    fn len(&self) -> usize {
        self.rows.len()
    }

    fn key(&self, row: usize) -> N {
        self.rows[row].0
    }
}
