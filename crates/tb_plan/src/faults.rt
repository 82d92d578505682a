//! Why a plan gave up.
use tb_value::{OutOfMemory, PlSmallStr, PolarsError};
use thiserror::Error;

/// Why a plan gave up. Nodes are numbered from 0, inputs before the node and left before right; a pivot has the number of
/// nodes as its own.
#[derive(PartialEq, Eq, Debug, Drop, Error)]
pub enum PlanFault {
    /// Two tables have this name.
    #[error("two tables have one name")]
    RepeatedTable(PlSmallStr),
    /// The node asks for a table of this name, and there is none.
    #[error("there is no table of that name")]
    UnknownTable { node: usize, name: PlSmallStr },
    /// The join, filter or pivot of this node is refused.
    #[error("a node of the plan is refused")]
    At { node: usize, error: PolarsError },
    /// The filter of this node compares the values of a column with a value that is none of theirs, or that has no order
    /// among them.
    #[error("what a filter asks does not fit the type of its column")]
    TestType { node: usize },
    /// Want of memory.
    #[error("out of memory")]
    OutOfMemory,
}

impl From<OutOfMemory> for PlanFault {
    ghost use Rattle.std.specs.Prelude.{◌≡◌};
    ghost use Rattle.tb_plan.specs.declared.faults.PlanFault.TheVariants.{OutOfMemory};

    ghost from_gives = { λ _ e. e ≡ OutOfMemory };

    fn from(_error: OutOfMemory) -> PlanFault {
        PlanFault::OutOfMemory
    }
}
