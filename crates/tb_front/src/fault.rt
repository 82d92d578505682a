//! Why there is no text of an answer.

use std::alloc::{AllocError, AllocFailed};
use tb_csv::{CsvFault, FieldType};
use tb_node::Names;
use tb_value::{OutOfMemory, PlSmallStr, PolarsError, Side};

/// Which of the texts is meant.
#[derive(Clone, Copy)]
pub enum Place {
    /// The left text, or the only one.
    First,
    /// The right text.
    Second,
    /// The text of this number, counted from 0, of those that have names.
    Named(usize),
}

/// What values are compared for.
#[derive(Clone, Copy)]
pub enum Comparison {
    /// Which of them is the least or the greatest.
    LeastOrGreatest,
    /// The order of the columns that they name.
    Order,
    /// The order of rows.
    Rows,
}

/// A part of a plan's text.
#[derive(Clone, Copy)]
pub enum PlanPart {
    /// The whole, which is no JSON text.
    Json,
    /// The members: the whole is no object, or has a member of another name than `root`, `pivot` and `push`.
    Members,
    /// The member `root`, which is wanting or no tree.
    Root,
    /// The member `pivot`, which asks for no pivot.
    Pivot,
    /// The member `push`, which is no truth value.
    Push,
}

/// A node of a plan.
#[derive(Drop)]
pub enum NodeTitle {
    /// The table of this name.
    Table(PlSmallStr),
    /// A filter by the column of this name.
    Filter(PlSmallStr),
    /// A join by keys of these names.
    Join { left_on: Names, right_on: Names },
    /// The pivot behind all other nodes.
    Pivot,
}

/// Why a line is no step, or its step isn't done.
#[derive(Drop)]
pub enum StepCause {
    /// The line is no JSON text.
    NotJson,
    /// Its value is neither an insert nor a removal.
    NoStep,
    /// The row has a field of this name, and its side no such column.
    UnknownColumn(PlSmallStr),
    /// The row has no field for the column of this name.
    NoField(PlSmallStr),
    /// The row's field in the column of this name is not of this type.
    NotOfType(PlSmallStr, FieldType),
    /// The side ever had as many rows as a table may have.
    Full,
    /// No row of the side has the id.
    NoRow(Side, u32),
}

/// Why there is no text of an answer.
#[derive(Drop)]
pub enum FrontFault {
    /// The text at this place is no table. If the fault stands on a line of the text, the line is told, counted from 1.
    NoTable {
        place: Place,
        fault: CsvFault,
        line: Option<u64>,
    },
    /// A type is given for this name, which no column has.
    UnknownType(PlSmallStr),
    /// The two columns of a key are of different types.
    KeyTypes {
        left: PlSmallStr,
        left_type: FieldType,
        right: PlSmallStr,
        right_type: FieldType,
    },
    /// The values of the column of this name look like decimal numbers and are read as texts unasked, and would be compared by their
    /// bytes.
    Decimals(Comparison, PlSmallStr),
    /// The operation refuses the tables and the arguments.
    Refused(PolarsError),
    /// This part of a plan's text is none.
    NoPlan(PlanPart),
    /// Two texts have this name.
    RepeatedTable(PlSmallStr),
    /// A plan asks for a table of this name, and no text has it.
    UnknownTable(PlSmallStr),
    /// A node of a plan is refused.
    AtNode(NodeTitle, PolarsError),
    /// A filter of a plan compares the values of its column with one that is not of their type.
    TestType(NodeTitle),
    /// The step on this line, counted from 1, is none or is refused.
    Step {
        line: usize,
        cause: StepCause,
    },
    /// The answer has no text of comma-separated values.
    NoText(CsvFault),
    /// Want of memory, which may come at any time.
    OutOfMemory,
}

impl From<OutOfMemory> for FrontFault {
    ghost use Rattle.std.specs.Prelude.{◌≡◌};
    ghost use Rattle.tb_front.specs.declared.fault.FrontFault.TheVariants.{OutOfMemory};

    ghost from_gives = { λ _ e. e ≡ OutOfMemory };

    fn from(_error: OutOfMemory) -> FrontFault {
        FrontFault::OutOfMemory
    }
}

impl From<AllocError> for FrontFault {
    ghost use Rattle.std.specs.Prelude.{◌≡◌};
    ghost use Rattle.tb_front.specs.declared.fault.FrontFault.TheVariants.{OutOfMemory};

    ghost from_gives = { λ _ e. e ≡ OutOfMemory };

    fn from(_error: AllocError) -> FrontFault {
        FrontFault::OutOfMemory
    }
}

impl<T: Drop> From<AllocFailed<T>> for FrontFault {
    ghost use Rattle.std.specs.Prelude.{◌≡◌};
    ghost use Rattle.tb_front.specs.declared.fault.FrontFault.TheVariants.{OutOfMemory};

    ghost from_gives = { λ _ e. e ≡ OutOfMemory };

    fn from(_error: AllocFailed<T>) -> FrontFault {
        FrontFault::OutOfMemory
    }
}
