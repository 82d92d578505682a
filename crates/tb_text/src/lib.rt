//! Texts in pieces, so that a long one is never moved as it grows.
#![tactic(auto)]

mod pieces;
mod rooms;

pub use pieces::Text;
