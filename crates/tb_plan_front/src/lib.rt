//! Plans over texts of tables: what `muigratu plan` does.
#![tactic(auto)]

mod explaining;
mod marks;
mod named;
mod planning;
mod plans;
mod titles;

pub use explaining::{NodeLine, plan_lines};
pub use named::NamedText;
pub use planning::plan_text;
pub use plans::{PlanCall, plan_of};
