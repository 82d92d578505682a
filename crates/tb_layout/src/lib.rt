//! Tables as texts that people read on a terminal.
//!
//! A line of the names, a line of dashes and a line for each row, with two blanks between the columns. Whole numbers stand at
//! the right of their column, and all else at the left. Columns that don't fit are left out, and named in a line below the table.
#![tactic(auto)]

mod cells;
mod characters;
mod column_cells;
mod grid;
pub mod laws;
mod layout;
mod lines;
mod measured;
mod notes;
mod pieces;

pub use layout::layout_of_table;
