//! The rows that items name, read where the items stand.
ghost use Rattle.std.specs.Prelude.{◌≡◌};

use tb_value::{IdxSize, JoinPair, NullableIdxSize};

/// How a row is read from an item, by any thread. `number` is what contracts see of it.
pub trait RowOf<T>: Send + Sync {
    ghost use Rattle.std.specs.Prelude.{ℕ, Option};

    ghost number: { T → Option ℕ };

    /// The row, where there is one.
    fn number(item: &T) -> Option<IdxSize>
        ensures { result ≡ number item.now };
}

/// The left row of a pair.
pub struct LeftRow;

impl RowOf<JoinPair> for LeftRow {
    ghost number = { λ pair. pair.left };

    fn number(pair: &JoinPair) -> Option<IdxSize> {
        pair.left.row()
    }
}

/// The right row of a pair.
pub struct RightRow;

impl RowOf<JoinPair> for RightRow {
    ghost number = { λ pair. pair.right };

    fn number(pair: &JoinPair) -> Option<IdxSize> {
        pair.right.row()
    }
}

/// A row number itself.
pub struct OwnRow;

impl RowOf<NullableIdxSize> for OwnRow {
    ghost number = { λ row. row };

    fn number(row: &NullableIdxSize) -> Option<IdxSize> {
        row.row()
    }
}
