//! The join by two nested loops: slow, and as its definition says. It stands beside the fast one, so that the two can
//! be compared.
#![tactic(auto)]

mod beside;
mod columns;
mod nested;

pub use columns::answer_table;
pub use nested::nested_join;
