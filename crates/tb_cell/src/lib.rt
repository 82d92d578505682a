//! Single values as they are stored: cells and lists of them, the types that they are stored by, how they compare, and the
//! numbers and the parts by which rows are named.
#![tactic(auto)]

mod cell;
mod cells;
mod marker;
mod ordering;
mod row_number;
mod slicing;

pub use cell::{Cell, FieldValues};
pub use cells::{Cells, cell_of, copy_cell};
pub use marker::{Physical, physical_of};
pub use ordering::{compare_values, may_follow};
pub use row_number::RowNumber;
pub use slicing::slice_offsets;
