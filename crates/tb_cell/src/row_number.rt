//! Row numbers that values are picked by.
ghost use Rattle.std.specs.Prelude.{◌≡◌};

use tb_value::{IdxSize, NullableIdxSize};

/// A row number, or none. `number` is what contracts see of it.
pub trait RowNumber {
    ghost use Rattle.std.specs.Prelude.{ℕ, Option};

    ghost number: { Self → Option ℕ };

    /// The number, where there is one.
    fn number(&self) -> Option<IdxSize>
        ensures { result ≡ number self.now };
}

impl RowNumber for IdxSize {
    ghost use Rattle.std.specs.Prelude.{Some};

    ghost number = { Some };

    fn number(&self) -> Option<IdxSize> {
        Some(*self)
    }
}

impl RowNumber for NullableIdxSize {
    ghost number = { λ row. row };

    fn number(&self) -> Option<IdxSize> {
        self.row()
    }
}
