//! The ids of rows in chunks.
ghost use Rattle.std.specs.Prelude.{◌≡◌, ◌<◌, ◌≤◌, ◌^◌, ◌-◌, ◌↔◌, Some, None, IsTrue, IsNone, IsSome};

use crate::index::IdxSize;
use std::marker::Model;

/// A row in a chunk, or none, in 64 bits: the low `B` bits hold the chunk, and the row stands above
/// them. All ones stand for none. Contracts see the chunk and the row, where there is one.
#[derive(Clone, Copy, Debug)]
pub struct ChunkId<const B: u64> {
    swizzled: u64,
}

/// The ids that most callers use, with 24 bits for the chunk.
pub type StandardChunkId = ChunkId<24>;

impl<const B: u64> Model for ChunkId<B> {
    ghost use Rattle.std.specs.Prelude.{ℕ, Option};
    ghost use Rattle.tb_value.specs.ChunkRow.{of_swizzled, to_swizzled, IsSwizzled};
    ghost use Rattle.tb_value.specs.Proved.RowTests.{swizzled_back};

    ghost Value = { Option (ℕ × ℕ) };

    ghost view = { λ id. of_swizzled B id.swizzled };

    ghost invariant = { λ id. IsSwizzled B id.swizzled };

    ghost inverse = { λ o. record { swizzled = to_swizzled B o } };

    ghost inverse_ok = { λ a h. λ i. record { swizzled = swizzled_back B a.swizzled i } };
}

impl<const B: u64> ChunkId<B> {
    /// This row of this chunk.
    pub fn store(chunk: IdxSize, row: IdxSize) -> ChunkId<B>
        requires bits { (0 < B) × (B ≤ 32) }
        requires chunk { chunk < 2 ^ B - 1 }
        requires row { row < u32.MAX }
        ensures { result ≡ Some (chunk, row) }
    {
        ChunkId {
            swizzled: (row as u64) << B | (chunk as u64),
        }
    }

    /// The chunk and the row.
    pub fn extract(&self) -> (IdxSize, IdxSize)
        requires { IsSome self.now }
        ensures { self.now ≡ Some result }
    {
        let row = (self.swizzled >> B) as u32;
        let chunk = (self.swizzled & ((1 << B) - 1)) as u32;
        (chunk, row)
    }

    /// No row.
    pub fn null() -> ChunkId<B>
        ensures { result ≡ None }
    {
        ChunkId { swizzled: u64::MAX }
    }

    /// Whether there is no row.
    pub fn is_null(&self) -> bool
        ensures { IsTrue result ↔ IsNone self.now }
    {
        self.swizzled == u64::MAX
    }
}

impl<const B: u64> PartialEq for ChunkId<B> {
    ghost use Rattle.std.specs.Cmp.{partial_equiv_from_equiv};
    ghost use Rattle.std.specs.Option.{option_eq};
    ghost use Rattle.tb_value.specs.ChunkRow.{same_row};
    ghost use Rattle.tb_value.specs.Proved.RowTests.{ids_equiv};

    ghost eq = { option_eq same_row };

    ghost laws = { partial_equiv_from_equiv ids_equiv };

    fn eq(&self, other: &ChunkId<B>) -> bool {
        self.swizzled == other.swizzled
    }
}

impl<const B: u64> Eq for ChunkId<B> {
    ghost use Rattle.tb_value.specs.Proved.RowTests.{ids_equiv};

    ghost laws = { ids_equiv };
}
