//! Rows of a table, written in pieces side by side.
#![tactic(auto)]

mod each;
mod piece_column;
mod pieces;

pub use piece_column::{PieceColumn, ReadValue, piece_columns};
pub use pieces::{ROWS_OF_A_PIECE, push_row_pieces, rows_of_piece};
