//! Joins in parts: rows that fall into parts by their keys, and what the joins of the parts say of the join of all rows.
#![tactic(auto)]

pub mod laws;
