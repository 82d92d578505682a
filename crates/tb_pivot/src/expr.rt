//! What a caller hands in to make the values of cells.

use std::alloc::Global;
use tb_agg::Aggregate;
use tb_frame::DataFrame;
use tb_rows::Groups;
use tb_store::Series;
use tb_value::PlSmallStr;

/// Why a caller's object gave no answer.
#[derive(PartialEq, Eq, Debug, Drop)]
pub enum ExprFault {
    /// It refuses, with this number.
    Refused(u32),
    /// Memory is wanting.
    OutOfMemory,
}

/// A caller's object that makes one value for each group of rows. Contracts see what each call answers for the values of
/// a table; want of memory may come in place of it.
pub trait PhysicalAggExpr: Drop {
    ghost use Rattle.std.specs.Prelude.{ℕ, List, Result};
    ghost use Rattle.tb_value.specs.Promise.Names.{Name};
    ghost use Rattle.tb_agg.specs.Grouped.{AreGroupsOf};
    ghost use Rattle.tb_frame.specs.Promise.Table.{Table, TableColumn, height, plain_column, table_of};
    ghost use Rattle.tb_pivot.specs.Answered.{Answers};

    /// The name that it asks for, or the number that it refuses with.
    ghost named: { Self → Result Name ℕ };

    /// The column that it answers for a table and for groups of its rows, which are the first row of each group and the
    /// group of each row, or the number that it refuses with.
    ghost answers: { Self → Table → List ℕ → List ℕ → Result TableColumn ℕ };

    /// The name that the one column of the table is to have.
    fn root_name(&self) -> Result<&PlSmallStr, ExprFault>
        ensures { Answers (λ name. name.now) result (named self.now) };

    /// A column of one value for each group of the table's rows, in the order of the groups. Its type is that of the cells.
    /// Each row of the table has the number of a group, so that the object may call `tb_agg::aggregated`.
    fn evaluate(&self, alloc: Global, df: &DataFrame, groups: &Groups) -> Result<Series, ExprFault>
        requires { AreGroupsOf (height (table_of df.now)) groups.now }
        ensures { Answers plain_column result (answers self.now (table_of df.now) groups.now.firsts.items groups.now.numbers.items) };
}

/// What the value of a cell is, of the rows with its index and its header. Sum, Min and Max skip nulls.
#[derive(Drop)]
pub enum PivotAgg {
    /// The value of the first row.
    First,
    /// The sum, as `Aggregate` has it.
    Sum,
    /// The least value.
    Min,
    /// The greatest value.
    Max,
    /// The number of rows.
    Count,
    /// The value of the last row.
    Last,
    /// What a caller's object answers.
    Expr(Box<dyn PhysicalAggExpr>),
}

impl PivotAgg {
    ghost use Rattle.std.specs.Prelude.{◌≡◌};
    ghost use Rattle.tb_pivot.specs.AggWay.{aggregate_of};

    /// The aggregate, where it is no object of the caller's.
    pub fn aggregate(&self) -> Option<Aggregate>
        ensures { result ≡ aggregate_of self.now }
    {
        match self {
            PivotAgg::First => Some(Aggregate::First),
            PivotAgg::Sum => Some(Aggregate::Sum),
            PivotAgg::Min => Some(Aggregate::Min),
            PivotAgg::Max => Some(Aggregate::Max),
            PivotAgg::Count => Some(Aggregate::Count),
            PivotAgg::Last => Some(Aggregate::Last),
            PivotAgg::Expr(_) => None,
        }
    }
}
