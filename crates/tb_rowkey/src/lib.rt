//! Row keys: the fields of a row as one list of bytes, so that rows of several keys are joined as rows of one.
//!
//! A row key has the bytes of each field, in the order of the columns:
//!
//! | field | bytes |
//! |---|---|
//! | Null | `00` |
//! | Boolean | `01`, then `00` or `01` |
//! | whole number, date, time | `01`, then the number in two's complement, the highest byte first, in as many bytes as its type is stored in (1, 2, 4, 8 or 16) |
//! | String, Binary | `01`, then the length in 4 bytes, the highest first, then the bytes |
//!
//! Of rows of the same types, two keys are equal exactly where the rows are, and none is the front of
//! another: this is the law `laws::one_to_one`.
#![tactic(auto)]

mod even_places;
mod field_column;
mod fields;
mod joining;
mod keys;
pub mod laws;
mod lent;
mod place_list;
mod places;
mod room;
mod row_keys;
mod stored_chunk;
mod uneven_places;

pub use keys::prepare_keys_multiple;
pub use lent::know_columns;
pub use row_keys::RowKeys;
