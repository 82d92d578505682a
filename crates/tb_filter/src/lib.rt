//! Filters: the rows of a table whose field in a column passes a test.
#![tactic(auto)]

mod asked;
mod kept;
pub mod laws;
mod tables;

pub use asked::Test;
pub use tables::filter_rows;
