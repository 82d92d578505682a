//! What is asked of a grouping.

use tb_group::GroupAgg;
use tb_value::PlSmallStr;

/// How the table of a text is grouped.
#[derive(Drop)]
pub struct GroupCall {
    /// The names of the columns by which rows are grouped.
    pub by: Vec<PlSmallStr>,
    /// The columns that are made of the groups.
    pub aggs: Vec<GroupAgg>,
    /// Whether the groups come in the order of their values in the columns by which rows are grouped, and not of their first rows.
    pub sorts: bool,
}
