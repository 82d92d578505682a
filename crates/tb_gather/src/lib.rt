//! Rows of columns and tables, gathered by the chunk and the row in it.
#![tactic(auto)]

mod arrays;
mod directions;
mod gathering;
mod ids;
mod keep;
pub mod laws;
mod lent;
mod picking;
mod row_of;
mod rows;
mod series;
mod side_by_side;
mod tables;
mod take_chunked;
mod used;

pub use ids::{ids_by, ids_of};
pub use row_of::{LeftRow, RightRow, RowOf};
pub use rows::gather_rows;
pub use side_by_side::TakeChunkedHorPar;
pub use tables::made_table;
pub use take_chunked::TakeChunked;
