//! Plans read from JSON texts and run, and the texts of their faults.
#![tactic(auto)]

mod checks;
mod known;
pub mod laws;
mod members;
mod pivots;
mod reading;
mod request;
mod running;
mod tables;
mod texts;
mod trees;

pub use known::{
    entry_members, eq_members, filter_members, join_node_members, less_members, pivot_args_members,
    plan_members, table_node_members,
};
pub use pivots::pivot_of;
pub use reading::{plan_in, plan_request_of};
pub use request::PlanRequest;
pub use running::{planned, run_root};
pub use texts::text_of_fault;
pub use trees::tree_of;
