//! A request of a plan.

use tb_calls::PivotCall;
use tb_node::{NamedTable, Node};
use tb_pool::Exec;

/// A plan, and the tables that it is about.
#[derive(Drop)]
pub struct PlanRequest {
    pub tables: Vec<NamedTable>,
    /// Joins and filters of the tables.
    pub root: Node,
    /// What is asked of a pivot of what they make, if one is.
    pub pivot: Option<PivotCall>,
    /// Whether filters are put before joins, as far as they may.
    pub push: bool,
    /// How the work is to be run.
    pub exec: Exec,
}
