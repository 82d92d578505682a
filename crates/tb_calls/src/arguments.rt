//! What is asked of tables, but for the tables. Of a table that is made long it is `UnpivotArgsIR`.

use tb_agg::Aggregate;
use tb_frame::JoinArgs;
use tb_value::PlSmallStr;

/// What is asked of two tables that are joined.
#[derive(Drop)]
pub struct JoinCall {
    /// The names of the left table's keys.
    pub left_on: Vec<PlSmallStr>,
    /// The names of the right table's keys, each beside the left one at its place.
    pub right_on: Vec<PlSmallStr>,
    pub args: JoinArgs,
}

/// What is asked of a table whose columns are replaced by dummies.
#[derive(Drop)]
pub struct DummiesCall {
    /// The names of the columns that are replaced; where they are absent, all are.
    pub columns: Option<Vec<PlSmallStr>>,
    /// What stands between a column's name and a value's text, `_` where there is none.
    pub separator: Option<PlSmallStr>,
    /// Whether the value of row 0 is left out.
    pub drop_first: bool,
}

/// What is asked of a table that is made wide.
#[derive(Drop)]
pub struct PivotCall {
    /// The names of the columns whose rows become headers.
    pub on: Vec<PlSmallStr>,
    /// The names of the columns whose rows become the rows, if they are given.
    pub index: Option<Vec<PlSmallStr>>,
    /// The names of the columns of whose values cells are made, if they are given.
    pub values: Option<Vec<PlSmallStr>>,
    /// Whether the columns of each of these are sorted by their names.
    pub sort_columns: bool,
    /// What a cell is of the values of its rows. Where it is absent, a cell is the value of its one row.
    pub agg: Option<Aggregate>,
    /// What stands between a value column's name and a header, `_` where there is none.
    pub separator: Option<PlSmallStr>,
}
