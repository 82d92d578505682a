//! Where bytes are no request, and what is expected there.
#![tactic(auto)]

mod args;
mod cells;
mod columns;
mod forms;
pub mod laws;
mod members;
mod names;
mod nodes;
mod requests;
mod room;
mod runs;
mod spot;
mod steps;
mod tree;
mod why;

pub use spot::{Command, Expected, Fault, Place, Step, command_named};
pub use why::why_not;
