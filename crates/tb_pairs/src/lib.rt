//! The pairs of a join: merged where one key on each side has the order for it, else by the hash table of one key on each
//! side, by that of row keys where there are several, and field by field where a row is too long for a key.
#![tactic(auto)]

mod arranged;
mod hashed;
mod listed;
mod multiple;
mod trace;

pub use listed::{listed_pairs, traced_pairs};
pub use multiple::private_left_join_multiple_keys;
pub use trace::{JoinTrace, ListedPairs};
