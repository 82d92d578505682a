//! A plan that is asked for is run.
ghost use Rattle.std.specs.Prelude.{◌≡◌, if◌then◌else◌, IfOk};
ghost use Rattle.tb_frame.specs.Promise.Table.{table_of};
ghost use Rattle.tb_node.specs.Promise.Pushed.{pushed};
ghost use Rattle.tb_node.specs.Promise.Tables.{table_named};
ghost use Rattle.tb_node.specs.Seen.{given_tables, tree_of};
ghost use Rattle.tb_plan.specs.Gives.{Gives};
ghost use Rattle.tb_plan_request.specs.Lent.{plan_view};
ghost use Rattle.tb_plan_request.specs.Promise.Reading.{plan_answer};

use crate::pivots::args_of_pivot;
use crate::request::PlanRequest;
use std::alloc::Global;
use std::thread::Threads;
use tb_frame::DataFrame;
use tb_node::{NamedTable, Node, push_filters};
use tb_plan::{Plan, PlanFault, run_plan};
use tb_value::OutOfMemory;

/// The tree that is run: with its filters pushed, where that is asked.
pub fn run_root(
    alloc: Global,
    tables: &[NamedTable],
    root: Node,
    push: bool,
) -> Result<Node, OutOfMemory>
    ensures { IfOk result (λ n.
        tree_of n
        ≡ (if push
        then pushed (table_named (given_tables tables.now)) (tree_of root)
        else tree_of root)) }
{
    if push {
        push_filters(alloc, tables, root)
    } else {
        Ok(root)
    }
}

/// Runs the plan of a request, with its filters pushed where that is asked, and lets its tables go.
///
/// # Errors
///
/// Those of `run_plan`, of the plan that is run: where filters are pushed, a node's number is that after pushing.
pub fn planned(
    rt: &(impl Threads + Sync),
    alloc: Global,
    request: PlanRequest,
) -> Result<DataFrame, PlanFault>
    ensures { Gives table_of result (plan_answer (plan_view request)) }
{
    let PlanRequest {
        tables,
        root,
        pivot,
        push,
        exec,
    } = request;
    let root = run_root(alloc, &tables, root, push)?;
    let plan = Plan {
        root,
        pivot: args_of_pivot(pivot),
    };
    run_plan(rt, alloc, &tables, &plan, &exec)
}
