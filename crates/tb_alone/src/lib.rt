//! The join of two tables on one thread. What it promises is what the join by nested loops does, and it takes no more
//! steps than it takes to sort the keys and the pairs.
#![tactic(auto)]

mod coded;
mod found;
mod joined;
mod keys;
mod listing;
mod table;
mod validation;

pub use joined::join_alone;
