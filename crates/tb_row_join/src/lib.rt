//! The row numbers of a join of two lists of keys, on one thread, written into rooms that the caller gives.
#![tactic(auto)]

mod beside;
mod numbers;
mod rows;
mod unlisted;
mod writing;

pub use numbers::{NumberKeys, join_numbers};
pub use rows::join_rows;
