//! Columns replaced by dummies: for each value of a column a column of its own, which says in which rows the value
//! stands.
#![tactic(auto)]

mod columns;
mod frame_dummies;
mod replaced;

pub use frame_dummies::DataFrameOps;
