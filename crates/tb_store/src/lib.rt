//! Columns: a name, a type, one or more chunks of values, and whether the values are known to be in order.
#![tactic(auto)]

mod chunked_array;
mod coalescing;
mod column;
mod data_type;
pub mod laws;
mod lent;
mod making;
mod ordering;
mod series;
mod slicing;
mod taking;
mod text_views;

pub use chunked_array::ChunkedArray;
pub use column::Column;
pub use data_type::{
    BinaryType, BooleanType, Int8Type, Int16Type, Int32Type, Int64Type, Int128Type, ListType,
    PolarsDataType, StringType, StructType, UInt8Type, UInt16Type, UInt32Type, UInt64Type,
};
pub use lent::{are_in_one_chunk, lend, rechunked};
pub use series::Series;
pub use tb_chunk::{
    BinaryBuilder, BinaryChunk, Cell, Cells, Chunk, Chunks, FieldValues, Growing, ListChunk,
    Physical, Stored, StringBuilder, StringChunk, StructChunk, View, compare_values, physical_of,
    slice_offsets,
};
pub use tb_value::{
    AnyValue, Bytes, ChunkId, ComputeCause, DataType, Field, Fields, IdxSize, InvalidCause,
    IsSorted, JoinPair, MAX_ROWS, NullableIdxSize, OutOfMemory, PlSmallStr, PolarsError,
    PolarsResult, Side, StandardChunkId, TimeUnit, ValueRef, Values,
};
