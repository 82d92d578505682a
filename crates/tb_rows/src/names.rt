//! What rows are called.
ghost use Rattle.std.specs.Prelude.{◌≡◌, ℕ, ◌<◌};
ghost use Rattle.tb_rows.specs.Names.{name_of, AreNamed};

use tb_value::IdxSize;

/// What the rows of a list are called.
#[derive(Clone, Copy)]
pub enum RowNames<'a> {
    /// By this number and those after it.
    From(IdxSize),
    /// By the numbers at their places.
    Listed(&'a [IdxSize]),
}

impl RowNames<'_> {
    /// What the row is called.
    pub fn name(&self, row: usize) -> IdxSize
        requires { (n : ℕ) × (row < n) × AreNamed self.now n }
        ensures { result ≡ name_of self.now row }
    {
        match self {
            RowNames::From(first) => *first + row as IdxSize,
            RowNames::Listed(rows) => rows[row],
        }
    }
}
