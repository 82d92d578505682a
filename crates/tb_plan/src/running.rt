//! Plans, and what they answer.
ghost use Rattle.std.specs.Prelude.{◌≡◌};
ghost use Rattle.std.specs.Option.{option_map};
ghost use Rattle.tb_frame.specs.Promise.Table.{table_of};
ghost use Rattle.tb_plan.specs.Asked.{pivot_asked};
ghost use Rattle.tb_plan.specs.Gives.{Gives};
ghost use Rattle.tb_plan.specs.Promise.Outcome.{plan_outcome};
ghost use Rattle.tb_node.specs.Seen.{given_tables, tree_of};

use crate::faults::PlanFault;
use crate::numbered::{Numbered, check_tables, node_table};
use crate::pivoting::{PivotArgs, finished};
use crate::repeated::check_table_names;
use std::alloc::Global;
use std::thread::Threads;
use tb_frame::DataFrame;
use tb_node::{NamedTable, Node, TableMap};
use tb_pivot::PhysicalAggExpr;
use tb_pool::Exec;

/// Joins and filters of tables, and a pivot of what they make.
#[derive(Drop)]
pub struct Plan {
    pub root: Node,
    pub pivot: Option<PivotArgs>,
}

/// The table that the plan makes of tables under names: a node's is the table of its name, the rows of its input that
/// pass, in their order, or the join of its inputs; the last is made wide where a pivot is asked. In a join whose
/// order the arguments leave free it is that of the left rows. A table is lent to the nodes that name it, a filter that all rows
/// pass copies nothing, and what a join was made of is let go as soon as it stands.
///
/// # Errors
///
/// Nodes are numbered from 0, inputs before the node and left before right; the pivot has the number of nodes. The first of
/// these, or OutOfMemory, which never stands inside At:
/// 1. RepeatedTable: two tables have this name, which is the first that stood before;
/// 2. UnknownTable: the least node that names a table which isn't there;
/// 3. that of the least node that has one: At, where a filter's column isn't there (ColumnNotFound) or a join is refused, as
///    `DataFrameJoinOps::join` says, or TestType, where a filter compares and the type of its column has no keys, or the value is
///    none of that type;
/// 4. At, where the pivot is refused, as `pivot_stable` says.
pub fn run_plan(
    rt: &(impl Threads + Sync),
    alloc: Global,
    tables: &[NamedTable],
    plan: &Plan,
    exec: &Exec,
) -> Result<DataFrame, PlanFault>
    ensures { let of = ⟦<dyn PhysicalAggExpr as PhysicalAggExpr>⟧ in
        Gives table_of result (plan_outcome (given_tables tables.now) (tree_of plan.now.root)
        (option_map (pivot_asked (λ d. (of d).named) (λ d. (of d).answers)) plan.now.pivot)) }
{
    check_table_names(alloc, tables)?;
    let map = TableMap::of(alloc, tables)?;
    check_tables(alloc, &map, &plan.root, 0)?;
    let Numbered { table, next } = node_table(rt, alloc, &map, &plan.root, 0, exec)?;
    finished(alloc, table, &plan.pivot, next)
}
