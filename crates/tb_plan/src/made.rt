//! The tables of nodes, lent or made.
ghost use Rattle.std.specs.Prelude.{◌≡◌, IfOk, Some, is_none, length};
ghost use Rattle.std.specs.List.{find};
ghost use Rattle.tb_value.specs.Promise.Names.{same_name};
ghost use Rattle.tb_value.specs.Promise.Refusals.{SettlesBut, when};
ghost use Rattle.tb_value.specs.declared.error.PolarsError.TheVariants as error;
ghost use Rattle.tb_chunk.specs.Promise.Col.{Col, values};
ghost use Rattle.tb_frame.specs.Promise.Join.{by_names, column_named, direction};
ghost use Rattle.tb_frame.specs.Promise.Table.{height, plain_column, table_of};
ghost use Rattle.tb_filter.specs.Seen.{check_of};
ghost use Rattle.tb_node.specs.Promise.Settled.{settled, settled_order};
ghost use Rattle.tb_plan.specs.declared.faults.PlanFault.TheVariants as fault;
ghost use Rattle.tb_plan.specs.Gives.{Gives, fault_at, is_memory};
ghost use Rattle.tb_plan.specs.Promise.Outcome.{filtered, joined, tested};
ghost use Rattle.tb_plan.specs.Seen.{columns_made, table_kept, table_made};

use crate::faults::PlanFault;
use std::alloc::Global;
use std::thread::Threads;
use tb_filter::{Test, filter_rows};
use tb_frame::{DataFrame, Direction, JoinArgs, JoinType, MaintainOrderJoin, direction_of};
use tb_join::DataFrameJoinOps;
use tb_pool::Exec;
use tb_store::Series;
use tb_value::{OutOfMemory, PlSmallStr, PolarsError};

/// The table of a node: one that is lent, or one that was made for it.
#[derive(Drop)]
pub(crate) enum Made<'t> {
    Lent(&'t DataFrame),
    Own(DataFrame),
}

impl<'t> Made<'t> {
    ghost use Rattle.tb_plan.specs.Seen.{columns_made};

    /// The table.
    pub fn table(&self) -> &DataFrame
        ensures { result.now ≡ columns_made self.now }
    {
        match self {
            Made::Lent(table) => table,
            Made::Own(table) => table,
        }
    }
}

fn is_out_of_memory(error: &PolarsError) -> bool
    ensures { result ≡ is_memory error.now }
{
    match error {
        PolarsError::OutOfMemory => true,
        PolarsError::ColumnNotFound(_)
        | PolarsError::InvalidOperation(_)
        | PolarsError::ComputeError(_)
        | PolarsError::Duplicate(_)
        | PolarsError::ShapeMismatch
        | PolarsError::SchemaMismatch => false,
    }
}

/// A refusal as the fault of the node.
pub(crate) fn fault_at(node: usize, error: PolarsError) -> PlanFault
    ensures { result ≡ fault_at node error }
{
    if is_out_of_memory(&error) {
        PlanFault::OutOfMemory
    } else {
        PlanFault::At { node, error }
    }
}

// The order, that of the left rows where it is free.
fn settled_order(how: JoinType, order: MaintainOrderJoin) -> MaintainOrderJoin
    ensures { result ≡ settled_order (direction how order) order }
{
    match direction_of(how, order) {
        Direction::Free => MaintainOrderJoin::LeftRight,
        Direction::ByLeft | Direction::ByRight => order,
    }
}

fn settled_args(alloc: Global, args: &JoinArgs) -> Result<JoinArgs, OutOfMemory>
    ensures { IfOk result (λ a. a ≡ settled args.now) }
{
    let order = settled_order(args.how, args.maintain_order);
    let mut settled = args.copy(alloc)?;
    settled.maintain_order = order;
    Ok(settled)
}

/// The join of two tables, which are let go. A refusal is that of the node.
pub(crate) fn join_made(
    rt: &(impl Threads + Sync),
    alloc: Global,
    left: Made<'_>,
    right: Made<'_>,
    left_on: &[PlSmallStr],
    right_on: &[PlSmallStr],
    args: &JoinArgs,
    node: usize,
    exec: &Exec,
) -> Result<DataFrame, PlanFault>
    ensures { Gives table_of result
        (joined node
        (by_names (table_made left.entry) (table_made right.entry) left_on.now right_on.now
        (settled args.now))) }
{
    let args = settled_args(alloc, args)?;
    let left = left.table();
    let right = right.table();
    let _left = left.get_columns();
    let _right = right.get_columns();
    match left.join(rt, alloc, right, left_on, right_on, args, exec) {
        Ok(table) => Ok(table),
        Err(error) => Err(fault_at(node, error)),
    }
}

// The column of a filter. Refuses a name that no column has, at the node.
fn filter_column<'a>(
    alloc: Global,
    table: &'a DataFrame,
    column: &PlSmallStr,
    node: usize,
) -> Result<&'a Series, PlanFault>
    ensures found { IfOk result (λ c.
        find (λ (c : Col). same_name c.name column.now) table.now ≡ Some c.now) }
    ensures settles { SettlesBut fault.OutOfMemory result
        (when (is_none (find (λ (c : Col). same_name c.name column.now) table.now)) (fault.At node (error.ColumnNotFound column.now))) }
{
    match table.column(alloc, column.as_str()) {
        Ok(column) => Ok(column.as_materialized_series()),
        Err(error) => Err(fault_at(node, error)),
    }
}

// What is kept of the table by a test of a column of it; None where that is all of it.
fn tested_rows(
    rt: &(impl Threads + Sync),
    alloc: Global,
    table: &DataFrame,
    column: &Series,
    test: &Test,
    node: usize,
) -> Result<Option<DataFrame>, PlanFault>
    requires level { length (values column.now) ≡ height (table_of table.now) }
    ensures { Gives (table_kept (table_of table.now)) result
        (tested node (check_of test.now) (table_of table.now) (plain_column column.now)) }
{
    if !test.may_test(column.dtype()) {
        return Err(PlanFault::TestType { node });
    }
    match filter_rows(rt, alloc, table, column, test) {
        Ok(kept) => Ok(kept),
        Err(OutOfMemory) => Err(PlanFault::OutOfMemory),
    }
}

// What is kept of the table by a filter; None where that is all of it.
fn kept_rows(
    rt: &(impl Threads + Sync),
    alloc: Global,
    table: &DataFrame,
    column: &PlSmallStr,
    test: &Test,
    node: usize,
) -> Result<Option<DataFrame>, PlanFault>
    ensures { Gives (table_kept (table_of table.now)) result
        (filtered node column.now (check_of test.now) (table_of table.now)
        (column_named (table_of table.now) column.now)) }
{
    let _columns = table.get_columns();
    match filter_column(alloc, table, column, node) {
        Ok(column) => tested_rows(rt, alloc, table, column, test, node),
        Err(fault) => Err(fault),
    }
}

/// The rows that pass, which are the table itself where all do.
pub(crate) fn filter_made<'t>(
    rt: &(impl Threads + Sync),
    alloc: Global,
    made: Made<'t>,
    column: &PlSmallStr,
    test: &Test,
    node: usize,
) -> Result<Made<'t>, PlanFault>
    ensures { Gives table_made result
        (filtered node column.now (check_of test.now) (table_made made.entry)
        (column_named (table_made made.entry) column.now)) }
{
    match kept_rows(rt, alloc, made.table(), column, test, node) {
        Ok(Some(table)) => Ok(Made::Own(table)),
        Ok(None) => Ok(made),
        Err(fault) => Err(fault),
    }
}
