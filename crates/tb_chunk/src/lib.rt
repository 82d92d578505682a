//! Runs of typed values: how a column's values are stored, made, joined, picked and put in order. The
//! definitions of a column stand here too.
#![tactic(auto)]

mod arrange;
mod builders;
mod cells;
mod chunk;
mod chunks;
mod coalescing;
mod each;
mod grow;
mod growing;
mod make;
mod ordering;
mod owned_chunks;
mod pick;
mod run_chunk;
mod stored;
mod text_views;

pub use builders::{BinaryBuilder, StringBuilder};
pub use chunk::{Chunk, StringChunk};
pub use chunks::{Chunks, copy_chunks, nulls_in, rows_in, value_in};
pub use grow::join_one;
pub use growing::Growing;
pub use ordering::keeps_order;
pub use owned_chunks::{BinaryChunk, ListChunk, StructChunk};
pub use stored::Stored;
pub use tb_cell::{
    Cell, Cells, FieldValues, Physical, RowNumber, compare_values, physical_of, slice_offsets,
};
pub use tb_view::View;
