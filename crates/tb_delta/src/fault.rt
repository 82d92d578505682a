//! Why a step is refused.

/// Why a step is refused.
#[derive(Clone, Copy, PartialEq, Eq, Debug)]
pub enum DeltaFault {
    /// The row has another number of values than the side has columns, or a value is not of its column's type.
    Schema,
    /// The side had as many rows as a table may have, counting those that went.
    Full,
    /// No row of the side has the id.
    NoRow,
    OutOfMemory,
}
