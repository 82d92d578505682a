//! The nodes of a plan.

use crate::lists::Names;
use tb_filter::Test;
use tb_frame::JoinArgs;
use tb_value::PlSmallStr;

/// A table that is made of others.
#[derive(Drop)]
pub enum Node {
    /// The table of this name.
    Table(PlSmallStr),
    /// The join of two, by keys of these names. Where the arguments leave the order of the pairs free, it is that of the left
    /// rows.
    Join {
        left: Box<Node>,
        right: Box<Node>,
        left_on: Names,
        right_on: Names,
        args: JoinArgs,
    },
    /// The rows whose field in the column passes.
    Filter {
        input: Box<Node>,
        column: PlSmallStr,
        test: Test,
    },
}
