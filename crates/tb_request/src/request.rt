//! The requests, and why bytes are none.

use std::alloc::{AllocError, AllocFailed};
use tb_agg::Aggregate;
use tb_frame::{DataFrame, JoinArgs};
use tb_pool::Exec;
use tb_value::{OutOfMemory, PlSmallStr};

/// A request to join.
#[derive(Drop)]
pub struct JoinRequest {
    pub left: DataFrame,
    pub right: DataFrame,
    /// The names of the left table's keys.
    pub left_on: Vec<PlSmallStr>,
    /// The names of the right table's keys.
    pub right_on: Vec<PlSmallStr>,
    pub args: JoinArgs,
    /// How the work is to be run.
    pub exec: Exec,
    /// Whether it is asked how the work went.
    pub trace: bool,
}

/// A request to make a table long.
#[derive(Drop)]
pub struct UnpivotRequest {
    pub table: DataFrame,
    /// The names of the columns that are put one below the other.
    pub on: Vec<PlSmallStr>,
    /// The names of the columns that stay beside them.
    pub index: Vec<PlSmallStr>,
    /// The name of the column of names, if it is given.
    pub variable_name: Option<PlSmallStr>,
    /// The name of the column of values, if it is given.
    pub value_name: Option<PlSmallStr>,
}

/// A request for dummies.
#[derive(Drop)]
pub struct DummiesRequest {
    pub table: DataFrame,
    /// The names of the columns that are replaced, if they are given.
    pub columns: Option<Vec<PlSmallStr>>,
    /// What stands between a column's name and a value's text, if it is given.
    pub separator: Option<PlSmallStr>,
    /// Whether the value of row 0 is left out.
    pub drop_first: bool,
}

/// A request to make a table wide.
#[derive(Drop)]
pub struct PivotRequest {
    pub table: DataFrame,
    /// The names of the columns whose rows become headers.
    pub on: Vec<PlSmallStr>,
    /// The names of the columns whose rows become the rows, if they are given.
    pub index: Option<Vec<PlSmallStr>>,
    /// The names of the columns of whose values cells are made, if they are given.
    pub values: Option<Vec<PlSmallStr>>,
    /// Whether the columns of each of these are sorted by their names.
    pub sort_columns: bool,
    /// What a cell is of the values of its rows. Where it is absent, a cell is the value of its one row.
    pub agg: Option<Aggregate>,
    /// What stands between a value column's name and a header, if it is given.
    pub separator: Option<PlSmallStr>,
}

/// Why bytes are no request: the first of these that holds.
#[derive(Clone, Copy, PartialEq, Eq, Debug)]
pub enum Reason {
    /// They are no JSON text.
    Json,
    /// A member is missing, unknown or of another form.
    Shape,
    /// A value is not of its column's type.
    Value,
    /// The counts of all runs add up to more than `MAX_RUN_VALUES`.
    Rows,
    /// The numbers of `exec` make no `Exec`.
    Exec,
    /// Two columns of a table differ in length.
    Heights,
    /// Two columns of a table have one name.
    Name,
    /// A column is claimed to be in an order that it is not in.
    Flag,
}

/// Why no request was read.
#[derive(Clone, Copy, PartialEq, Eq, Debug)]
pub enum RequestFault {
    OutOfMemory,
    NoRequest(Reason),
}

impl From<AllocError> for RequestFault {
    ghost use Rattle.std.specs.Prelude.{◌≡◌};
    ghost use Rattle.tb_request.specs.declared.request.RequestFault.{RequestFault};

    ghost from_gives = { λ _ f. f ≡ RequestFault.OutOfMemory };

    fn from(_want: AllocError) -> RequestFault {
        RequestFault::OutOfMemory
    }
}

impl From<OutOfMemory> for RequestFault {
    ghost use Rattle.std.specs.Prelude.{◌≡◌};
    ghost use Rattle.tb_request.specs.declared.request.RequestFault.{RequestFault};

    ghost from_gives = { λ _ f. f ≡ RequestFault.OutOfMemory };

    fn from(_want: OutOfMemory) -> RequestFault {
        RequestFault::OutOfMemory
    }
}

impl<T: Drop> From<AllocFailed<T>> for RequestFault {
    ghost use Rattle.std.specs.Prelude.{◌≡◌};
    ghost use Rattle.tb_request.specs.declared.request.RequestFault.{RequestFault};

    ghost from_gives = { λ _ f. f ≡ RequestFault.OutOfMemory };

    fn from(_want: AllocFailed<T>) -> RequestFault {
        RequestFault::OutOfMemory
    }
}
