//! The order that a column is known to have.

/// Whether a column's values are known to ascend or to descend.
#[derive(Clone, Copy, PartialEq, Eq, Debug)]
pub enum IsSorted {
    Ascending,
    Descending,
    Not,
}
