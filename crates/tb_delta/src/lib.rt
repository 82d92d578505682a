//! An Inner join of two tables that is kept while rows are put in and taken out: for each key the ids of the rows of both
//! sides that have it.
#![tactic(auto)]

mod changing;
mod checking;
mod counting;
mod fault;
mod groups;
mod join_run;
mod key;
mod late;
pub mod laws;
mod making;
mod running;
mod side_rows;
mod steps;
mod tables;
mod taking_up;
mod view;

pub use fault::DeltaFault;
pub use join_run::JoinRun;
pub use running::{Step, StepFault, do_steps};
pub use view::JoinView;
