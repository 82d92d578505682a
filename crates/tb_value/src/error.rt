//! Why a call gave up.

use crate::pl_str::PlSmallStr;
use std::alloc::{AllocError, AllocFailed};
use thiserror::Error;

/// Want of memory.
#[derive(Clone, Copy, PartialEq, Eq, Debug)]
pub struct OutOfMemory;

impl From<AllocError> for OutOfMemory {
    fn from(_error: AllocError) -> OutOfMemory {
        OutOfMemory
    }
}

impl<T: Drop> From<AllocFailed<T>> for OutOfMemory {
    fn from(_error: AllocFailed<T>) -> OutOfMemory {
        OutOfMemory
    }
}

/// A side of a join.
#[derive(Clone, Copy, PartialEq, Eq, Debug)]
pub enum Side {
    Left,
    Right,
}

/// Why the arguments of an operation are refused, whatever the values of the tables.
#[derive(PartialEq, Eq, Debug, Drop)]
pub enum InvalidCause {
    /// A key list is empty.
    NoKeys,
    /// The key lists differ in length.
    KeyCounts { left: usize, right: usize },
    /// The flags that say which absent keys match are not as many as the keys.
    NullFlags { flags: usize, keys: usize },
    /// The type of the keys at this place, counted from 0, is none by which rows can be joined.
    KeyKind { place: usize },
    /// Neither index nor values are named.
    BothNone,
    /// The column of this name has a type whose values make no header.
    HeaderType(PlSmallStr),
    /// The column of this name has a type that the aggregate does not take.
    AggType(PlSmallStr),
    /// The types up to the column of this name have no common type.
    NoSupertype(PlSmallStr),
}

/// Why an operation cannot be carried out on the tables that it is given.
#[derive(PartialEq, Eq, Debug, Drop)]
pub enum ComputeCause {
    /// The types of the two keys at this place, counted from 0, differ.
    KeyTypes { place: usize },
    /// Two rows of this side have equal keys, and the side was to have none such.
    Validation(Side),
    /// The answer would have more than `MAX_ROWS` rows.
    TooManyRows,
    /// No index column is left.
    EmptyIndex,
    /// No column to pivot on is named.
    EmptyOn,
    /// A column has the name in braces that the headers of several columns are made by.
    BraceName(PlSmallStr),
    /// More than one row has a cell, and no aggregate is given.
    ManyInGroup,
    /// A sum of the column of this name is outside the range of its type.
    SumRange(PlSmallStr),
    /// A caller's aggregate answered another number of values than there are groups.
    EvaluateLength { groups: usize, values: usize },
    /// A caller's aggregate refused, with this number.
    Evaluate(u32),
}

/// Why an operation gave up: the first cause that holds, in the order that the operation states.
#[derive(PartialEq, Eq, Debug, Drop, Error)]
pub enum PolarsError {
    /// A table has no column of this name.
    #[error("there is no column of that name")]
    ColumnNotFound(PlSmallStr),
    /// The arguments are refused, whatever the values are.
    #[error("the arguments are refused")]
    InvalidOperation(InvalidCause),
    /// The tables are refused.
    #[error("the tables cannot be computed with so")]
    ComputeError(ComputeCause),
    /// A column of this name would stand twice.
    #[error("a name stands twice")]
    Duplicate(PlSmallStr),
    /// Two lengths differ that must be the same.
    #[error("two lengths differ")]
    ShapeMismatch,
    /// A value or a column is of another type than is asked.
    #[error("a value or a column is of another type")]
    SchemaMismatch,
    /// Want of memory.
    #[error("out of memory")]
    OutOfMemory,
}

/// What an operation answers that can be refused.
pub type PolarsResult<T> = Result<T, PolarsError>;

impl From<OutOfMemory> for PolarsError {
    ghost use Rattle.std.specs.Prelude.{◌≡◌};
    ghost use Rattle.tb_value.specs.declared.error.PolarsError.TheVariants.{OutOfMemory};

    ghost from_gives = { λ _ e. e ≡ OutOfMemory };

    fn from(_error: OutOfMemory) -> PolarsError {
        PolarsError::OutOfMemory
    }
}
