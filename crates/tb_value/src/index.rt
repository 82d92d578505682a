//! Row numbers, and the pairs of them that a join lists.
ghost use Rattle.std.specs.Prelude.{◌≡◌, ◌<◌, ◌↔◌, Some, None, IsTrue, IsNone, IsSome, IfSome};
ghost use Rattle.tb_value.specs.Promise.Pairs.{both, left_only, right_only, row_cmp, left_first, right_first};

use std::cmp::Ordering;
use std::marker::Model;

/// A row number. The greatest one, `u32::MAX`, stands for no row.
pub type IdxSize = u32;

/// A row number, or none.
#[derive(Clone, Copy, Debug)]
pub struct NullableIdxSize {
    inner: IdxSize,
}

impl Model for NullableIdxSize {
    ghost use Rattle.std.specs.Prelude.{ℕ, Option};
    ghost use Rattle.tb_value.specs.Index.{of_number, to_number};
    ghost use Rattle.tb_value.specs.Proved.RowTests.{number_back};

    ghost Value = { Option ℕ };

    ghost view = { λ id. of_number id.inner };

    ghost inverse = { λ o. record { inner = to_number o } };

    ghost inverse_ok = { λ a h. λ i. record { inner = number_back a.inner i } };
}

impl NullableIdxSize {
    /// No row.
    pub fn null() -> NullableIdxSize
        ensures { result ≡ None }
    {
        NullableIdxSize { inner: u32::MAX }
    }

    /// This row.
    pub fn some(row: IdxSize) -> NullableIdxSize
        requires { row < u32.MAX }
        ensures { result ≡ Some row }
    {
        NullableIdxSize { inner: row }
    }

    /// Whether there is no row.
    pub fn is_null_idx(&self) -> bool
        ensures { IsTrue result ↔ IsNone self.now }
    {
        self.inner == u32::MAX
    }

    /// The row.
    pub fn idx(&self) -> IdxSize
        requires { IsSome self.now }
        ensures { self.now ≡ Some result }
    {
        self.inner
    }

    /// The row, where there is one.
    pub fn row(&self) -> Option<IdxSize>
        ensures { result ≡ self.now }
    {
        if self.is_null_idx() {
            None
        } else {
            Some(self.inner)
        }
    }

    /// The order of row numbers, where none is the greatest.
    pub fn by_row(&self, other: &NullableIdxSize) -> Ordering
        ensures { result ≡ row_cmp self.now other.now }
    {
        match (self.row(), other.row()) {
            (None, None) => Ordering::Equal,
            (None, Some(_)) => Ordering::Greater,
            (Some(_), None) => Ordering::Less,
            (Some(i), Some(j)) => i.cmp(&j),
        }
    }
}

impl PartialEq for NullableIdxSize {
    ghost use Rattle.std.specs.Prelude.{nat_eq};
    ghost use Rattle.std.specs.Cmp.{partial_equiv_from_equiv};
    ghost use Rattle.std.specs.Option.{option_eq};
    ghost use Rattle.tb_value.specs.Proved.RowTests.{numbers_equiv};

    ghost eq = { option_eq nat_eq };

    ghost laws = { partial_equiv_from_equiv numbers_equiv };

    fn eq(&self, other: &NullableIdxSize) -> bool {
        self.inner == other.inner
    }
}

impl Eq for NullableIdxSize {
    ghost use Rattle.tb_value.specs.Proved.RowTests.{numbers_equiv};

    ghost laws = { numbers_equiv };
}

/// A pair of a join's listing: a left row and a right row, or one of them alone.
#[derive(Clone, Copy, PartialEq, Eq, Debug)]
pub struct JoinPair {
    pub left: NullableIdxSize,
    pub right: NullableIdxSize,
}

impl JoinPair {
    /// These two rows.
    pub fn both(left: IdxSize, right: IdxSize) -> JoinPair
        requires left { left < u32.MAX }
        requires right { right < u32.MAX }
        ensures { result ≡ both left right }
    {
        JoinPair {
            left: NullableIdxSize::some(left),
            right: NullableIdxSize::some(right),
        }
    }

    /// This left row alone.
    pub fn left_only(left: IdxSize) -> JoinPair
        requires { left < u32.MAX }
        ensures { result ≡ left_only left }
    {
        JoinPair {
            left: NullableIdxSize::some(left),
            right: NullableIdxSize::null(),
        }
    }

    /// This right row alone.
    pub fn right_only(right: IdxSize) -> JoinPair
        requires { right < u32.MAX }
        ensures { result ≡ right_only right }
    {
        JoinPair {
            left: NullableIdxSize::null(),
            right: NullableIdxSize::some(right),
        }
    }

    /// The order of pairs by left row and then by right row.
    pub fn by_left(&self, other: &JoinPair) -> Ordering
        ensures { result ≡ left_first self.now other.now }
    {
        self.left
            .by_row(&other.left)
            .then(self.right.by_row(&other.right))
    }

    /// The order of pairs by right row and then by left row.
    pub fn by_right(&self, other: &JoinPair) -> Ordering
        ensures { result ≡ right_first self.now other.now }
    {
        self.right
            .by_row(&other.right)
            .then(self.left.by_row(&other.left))
    }
}
