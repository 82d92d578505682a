//! What the words of a command of `muigratu` ask: each command's words as the call that does it.
#![tactic(auto)]

mod deltas;
mod groups;
mod joins;
mod naming;
mod options;
mod plans;
mod shapes;
mod splits;

pub use deltas::delta_call;
pub use groups::group_call;
pub use joins::join_call;
pub use options::{Host, csv_options, text_options};
pub use plans::{NamedFile, named_files};
pub use shapes::{dummies_call, pivot_call, unpivot_call};
pub use splits::split_call;
