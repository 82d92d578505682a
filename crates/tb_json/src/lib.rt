//! JSON: types and values read from it, and the texts of tables and refusals.
#![tactic(auto)]

pub mod laws;
mod open_text;
mod read_any_cells;
mod read_arrays;
mod read_cell;
mod read_kinds;
mod read_plain_cells;
mod read_runs;
mod read_texts;
mod scalar;
mod write_cells;
mod write_kinds;
mod write_refusals;
mod write_tables;

pub use read_any_cells::{item_of, value_of};
pub use read_arrays::{arrays_in, run_array_in};
pub use read_kinds::type_of;
pub use read_runs::lent_run;
pub use write_refusals::{error_value, text_of_refusal};
pub use write_tables::{into_text, open_table, push_comma, traced_text_of};
