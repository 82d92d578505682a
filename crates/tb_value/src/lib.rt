//! Values, types, row numbers and errors: what every other crate of Muigratu speaks of.
#![tactic(auto)]

mod any_value;
mod bytes;
mod chunk_id;
mod dtype;
pub mod equality;
mod error;
mod hashed;
mod index;
pub mod laws;
mod limits;
mod memory;
mod pl_str;
mod same;
mod same_type;
mod sorted;
mod typed;

pub use any_value::{AnyValue, ValueRef, Values, copy_text};
pub use bytes::Bytes;
pub use chunk_id::{ChunkId, StandardChunkId};
pub use dtype::{DataType, Field, Fields, TimeUnit};
pub use error::{ComputeCause, InvalidCause, OutOfMemory, PolarsError, PolarsResult, Side};
pub use hashed::hash_ref;
pub use index::{IdxSize, JoinPair, NullableIdxSize};
pub use limits::{MAX_INPUT, MAX_ROWS, TOO_LONG, TOO_MANY_CHUNKS};
pub use memory::only_memory;
pub use pl_str::PlSmallStr;
pub use same::same_value;
pub use sorted::IsSorted;
pub use typed::fits_fields;
