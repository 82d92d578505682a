//! The request.

use tb_frame::DataFrame;
use tb_group::GroupAgg;
use tb_pool::Exec;
use tb_value::PlSmallStr;

/// A request to group a table.
#[derive(Drop)]
pub struct GroupRequest {
    pub table: DataFrame,
    /// The names of the columns by which rows are grouped.
    pub by: Vec<PlSmallStr>,
    /// What is made of the groups.
    pub aggs: Vec<GroupAgg>,
    /// How the work is to be run.
    pub exec: Exec,
    /// Whether it is asked into which parts the work fell.
    pub trace: bool,
}
