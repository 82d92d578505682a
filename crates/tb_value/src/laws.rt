//! What holds of the definitions, each as the contract of an empty function.
ghost use Rattle.std.specs.Prelude.{◌≡◌, ◌<◌, ◌≤◌, ◌^◌, ◌-◌, ◌↔◌, IsTrue};
ghost use Rattle.tb_value.specs.Promise.Datum.{Datum};
ghost use Rattle.tb_value.specs.Promise.Kind.{Kind};
ghost use Rattle.tb_value.specs.Promise.Same.{same};
ghost use Rattle.tb_value.specs.Promise.SameKind.{same_kind};

use crate::chunk_id::ChunkId;
use crate::index::IdxSize;

/// The test of two values is their equality.
pub fn same_value()
    ensures { (a b : Datum) → (IsTrue (same a b) ↔ (a ≡ b)) }
{}

/// The test of two types is their equality.
pub fn same_kind()
    ensures { (a b : Kind) → (IsTrue (same_kind a b) ↔ (a ≡ b)) }
{}

/// The chunk and the row of an id that was made of them.
pub fn chunk_round_trip<const B: u64>(chunk: IdxSize, row: IdxSize) -> (IdxSize, IdxSize)
    requires bits { (0 < B) × (B ≤ 32) }
    requires chunk { chunk < 2 ^ B - 1 }
    requires row { row < u32.MAX }
    ensures { result ≡ (chunk, row) }
{
    ChunkId::<B>::store(chunk, row).extract()
}
