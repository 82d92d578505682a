//! Whole numbers as columns store them.
use std::marker::Sync;
use tb_store::Cell;

/// A whole number, as a typed column stores it. Such numbers are compared as they are stored.
pub(crate) trait WholeCell: Cell + Copy + Ord + Sync {
    ghost use Rattle.std.specs.Ordering.{int_cmp};
    ghost use Rattle.std.specs.Prelude.{◌≡◌, ℤ};
    ghost use Rattle.tb_value.specs.Promise.Datum.{int};

    ghost number: { Self → ℤ };

    ghost shown: { (x : Self) → Self.shows x ≡ int (number x) };

    ghost ordered: { (x y : Self) → Self.cmp x y ≡ int_cmp (number x) (number y) };
}

impl WholeCell for i8 {
    ghost use Rattle.std.specs.Prelude.{refl};

    ghost number = { λ z. z };

    ghost shown = { λ _. refl };

    ghost ordered = { λ _ _. refl };
}

impl WholeCell for i16 {
    ghost use Rattle.std.specs.Prelude.{refl};

    ghost number = { λ z. z };

    ghost shown = { λ _. refl };

    ghost ordered = { λ _ _. refl };
}

impl WholeCell for i32 {
    ghost use Rattle.std.specs.Prelude.{refl};

    ghost number = { λ z. z };

    ghost shown = { λ _. refl };

    ghost ordered = { λ _ _. refl };
}

impl WholeCell for i64 {
    ghost use Rattle.std.specs.Prelude.{refl};

    ghost number = { λ z. z };

    ghost shown = { λ _. refl };

    ghost ordered = { λ _ _. refl };
}

impl WholeCell for i128 {
    ghost use Rattle.std.specs.Prelude.{refl};

    ghost number = { λ z. z };

    ghost shown = { λ _. refl };

    ghost ordered = { λ _ _. refl };
}

impl WholeCell for u8 {
    ghost use Rattle.std.specs.Prelude.{refl, pos};
    ghost use Rattle.tb_sorted.specs.Orders.{same_order};

    ghost number = { pos };

    ghost shown = { λ _. refl };

    ghost ordered = { same_order };
}

impl WholeCell for u16 {
    ghost use Rattle.std.specs.Prelude.{refl, pos};
    ghost use Rattle.tb_sorted.specs.Orders.{same_order};

    ghost number = { pos };

    ghost shown = { λ _. refl };

    ghost ordered = { same_order };
}

impl WholeCell for u32 {
    ghost use Rattle.std.specs.Prelude.{refl, pos};
    ghost use Rattle.tb_sorted.specs.Orders.{same_order};

    ghost number = { pos };

    ghost shown = { λ _. refl };

    ghost ordered = { same_order };
}

impl WholeCell for u64 {
    ghost use Rattle.std.specs.Prelude.{refl, pos};
    ghost use Rattle.tb_sorted.specs.Orders.{same_order};

    ghost number = { pos };

    ghost shown = { λ _. refl };

    ghost ordered = { same_order };
}
