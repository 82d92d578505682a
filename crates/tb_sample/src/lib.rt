//! A sample of the join: two tables of a given height are joined, and the height and two sums of the answer are told.
#![tactic(auto)]

mod joining;
pub mod laws;
mod summary;
mod tables;

pub use joining::sample;
pub use summary::{Summary, text_of_summary};
pub use tables::{left_table, right_table};
