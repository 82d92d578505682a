//! The limits that several calls share.

/// The most rows that a column or a table has, and the most pairs that a join lists: one number
/// less than the greatest row number, since the greatest number of 32 bits stands for no row.
pub const MAX_ROWS: usize = 4_294_967_294;

/// The length from which on a text or a list of bytes is too long to be a value.
pub const TOO_LONG: usize = 4_294_967_296;

/// The number of chunks from which on a column has too many for an id to name each of its rows: the greatest number of
/// 24 bits stands for no chunk.
pub const TOO_MANY_CHUNKS: usize = 16_777_215;

/// The most bytes that a program takes from one file or stream.
pub const MAX_INPUT: usize = 67_108_864;
