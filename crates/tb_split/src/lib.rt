//! Tables in parts by their keys: rows with equal keys fall into one part, whichever table they are of.
#![tactic(auto)]

mod keys;
pub mod laws;
mod parts;
mod splitting;

pub use splitting::split;
