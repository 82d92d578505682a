//! Rows in the order of numbers that they have, those of one number side by side: a sort by counts.
#![tactic(auto)]

mod numbered;

pub use numbered::{RowsByNumber, part, row_behind, rows_by_number, starts};
