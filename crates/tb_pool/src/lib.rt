//! Work that is cut in parts, and workers that claim the parts from one word.
#![tactic(auto)]

mod claims;
mod cuts;
mod exec;
mod gather;
pub mod laws;
mod parts;
mod run;
mod seat;
mod workers;

pub use claims::{ClaimSeat, Claims};
pub use cuts::portions;
pub use exec::{Exec, ExecFault, MAX_WORKERS};
pub use gather::Done;
pub use parts::{Gate, OpenGate, Parts};
pub use run::run_parts;
