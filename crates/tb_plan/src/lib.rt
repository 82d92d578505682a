//! Plans: joins and filters over several tables, with a pivot at the end.
#![tactic(auto)]

mod faults;
pub mod laws;
mod made;
mod numbered;
mod pivoting;
mod repeated;
mod running;

pub use faults::PlanFault;
pub use pivoting::PivotArgs;
pub use running::{Plan, run_plan};
pub use tb_filter::Test;
pub use tb_node::{NamedTable, Names, Node, push_filters};
