//! A pivot of what a plan's nodes make.
ghost use Rattle.std.specs.Prelude.{◌≡◌, IfOk};
ghost use Rattle.std.specs.Option.{option_map};
ghost use Rattle.tb_frame.specs.Promise.Table.{table_of};
ghost use Rattle.tb_plan.specs.Asked.{pivot_asked};
ghost use Rattle.tb_plan.specs.Gives.{Gives};
ghost use Rattle.tb_plan.specs.Promise.Outcome.{pivot_of, pivoted, widened};
ghost use Rattle.tb_plan.specs.Seen.{columns_made, table_made};

use crate::faults::PlanFault;
use crate::made::{Made, fault_at};
use std::alloc::Global;
use tb_calls::{names_given, text_given};
use tb_frame::DataFrame;
use tb_pivot::{PhysicalAggExpr, PivotAgg, pivot_stable};
use tb_value::{OutOfMemory, PlSmallStr};

/// What is asked of a pivot, beside its table.
#[derive(Drop)]
pub struct PivotArgs {
    /// The columns whose rows become headers.
    pub on: Vec<PlSmallStr>,
    /// The columns whose rows become rows; where there are none, all that are in neither other list.
    pub index: Option<Vec<PlSmallStr>>,
    /// The columns whose values become cells; where there are none, all that are in neither other list.
    pub values: Option<Vec<PlSmallStr>>,
    /// Whether the columns of each value column stand in the order of their names.
    pub sort_columns: bool,
    /// What makes the value of a cell; the value of its one row where there is none.
    pub agg: Option<PivotAgg>,
    /// What stands between the name of a value column and a header; `_` where there is none.
    pub separator: Option<PlSmallStr>,
}

fn owned(alloc: Global, made: Made<'_>) -> Result<DataFrame, OutOfMemory>
    ensures { IfOk result (λ t. t ≡ columns_made made.entry) }
{
    match made {
        Made::Lent(table) => table.copy(alloc),
        Made::Own(table) => Ok(table),
    }
}

// The table made wide. A refusal is that of the node.
fn made_wide(
    alloc: Global,
    table: &DataFrame,
    pivot: &PivotArgs,
    node: usize,
) -> Result<DataFrame, PlanFault>
    ensures { let of = ⟦<dyn PhysicalAggExpr as PhysicalAggExpr>⟧ in
        let asked = pivot_of (pivot_asked (λ d. (of d).named) (λ d. (of d).answers) pivot.now) (table_of table.now) in
        Gives table_of result (widened node asked) }
{
    let outcome = pivot_stable(
        alloc,
        table,
        &pivot.on,
        names_given(&pivot.index),
        names_given(&pivot.values),
        pivot.sort_columns,
        pivot.agg.as_ref(),
        text_given(&pivot.separator),
    );
    match outcome {
        Ok(table) => Ok(table),
        Err(error) => Err(fault_at(node, error)),
    }
}

/// The table, made wide where that is asked. A refusal is that of the node.
pub(crate) fn finished(
    alloc: Global,
    made: Made<'_>,
    pivot: &Option<PivotArgs>,
    node: usize,
) -> Result<DataFrame, PlanFault>
    ensures { let of = ⟦<dyn PhysicalAggExpr as PhysicalAggExpr>⟧ in
        Gives table_of result (pivoted node (option_map (pivot_asked (λ d. (of d).named) (λ d. (of d).answers)) pivot.now) (table_made made.entry)) }
{
    match pivot {
        Some(pivot) => made_wide(alloc, made.table(), pivot, node),
        None => Ok(owned(alloc, made)?),
    }
}
