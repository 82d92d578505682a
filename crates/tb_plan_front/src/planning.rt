//! Plans over texts.
ghost use Rattle.std.specs.Prelude.{option_map};
ghost use Rattle.tb_frame.specs.Promise.Table.{table_of};
ghost use Rattle.tb_node.specs.Seen.{given_tables, tree_of};
ghost use Rattle.tb_plan.specs.Gives as plan;
ghost use Rattle.tb_plan.specs.Promise.Outcome.{plan_outcome};
ghost use Rattle.tb_plan_request.specs.Lent.{pivot_view};
ghost use Rattle.tb_plan_front.specs.Plans.{given_texts, plan_asked};
ghost use Rattle.tb_front.specs.Promise.Due.{Gives};
ghost use Rattle.tb_plan_front.specs.Promise.Plans.{plan_text, planned_table};

use crate::named::{NamedText, tables_of};
use crate::plans::PlanCall;
use crate::titles::{titles_of, told};
use std::alloc::Global;
use std::thread::Threads;
use tb_calls::PivotCall;
use tb_frame::DataFrame;
use tb_front::{FrontFault, TextOptions, text_of_table};
use tb_node::{NamedTable, Node};
use tb_plan::PlanFault;
use tb_plan_request::{PlanRequest, planned, run_root};
use tb_pool::Exec;
use tb_text::Text;

// What the plan of a tree and a pivot makes of tables, which are let go.
fn outcome_of(
    rt: &(impl Threads + Sync),
    alloc: Global,
    tables: Vec<NamedTable>,
    root: Node,
    pivot: Option<PivotCall>,
    exec: &Exec,
) -> Result<DataFrame, PlanFault>
    ensures { plan.Gives table_of result
        (plan_outcome (given_tables tables.items) (tree_of root) (option_map pivot_view pivot)) }
{
    let request = PlanRequest {
        tables,
        root,
        pivot,
        push: false,
        exec: *exec,
    };
    planned(rt, alloc, request)
}

/// The table that the plan makes of tables, which are let go.
pub(crate) fn planned_table(
    rt: &(impl Threads + Sync),
    alloc: Global,
    tables: Vec<NamedTable>,
    call: PlanCall,
    exec: &Exec,
) -> Result<DataFrame, FrontFault>
    ensures { Gives table_of result (planned_table (given_tables tables.items) (plan_asked call)) }
{
    let PlanCall { root, pivot, push } = call;
    let root = run_root(alloc, &tables, root, push)?;
    let nodes = titles_of(alloc, &root)?;
    match outcome_of(rt, alloc, tables, root, pivot, exec) {
        Ok(table) => Ok(table),
        Err(fault) => Err(told(nodes, fault)),
    }
}

/// Runs a plan over the tables that texts of comma-separated values are, each under its name. The type of a column is told from its
/// own text alone. A text is let go once it is read, and the tables before the answer's text is made.
///
/// # Errors
///
/// The first of these that holds, or `OutOfMemory`: 1 `NoTable` of the first text that is none, as `records_of_csv` refuses it or
/// where a field isn't of the type of its column, 2 `UnknownType` of a name that no column of any has, 3 `RepeatedTable`, 4
/// `UnknownTable` of the first node that asks for a table that isn't there, 5 `AtNode` or `TestType` of the first node that is
/// refused, as `run_plan` has it, of the tree that is run, 6 `NoText`.
pub fn plan_text(
    rt: &(impl Threads + Sync),
    alloc: Global,
    texts: Vec<NamedText>,
    call: PlanCall,
    options: &TextOptions,
) -> Result<Text, FrontFault>
    ensures { Gives (λ t. t) result
        (plan_text options.now (given_texts texts.items) (plan_asked call)) }
{
    match tables_of(rt, alloc, &options.csv, texts) {
        Ok(tables) => match planned_table(rt, alloc, tables, call, &options.exec) {
            Ok(table) => text_of_table(rt, alloc, options.form, options.csv.separator, table),
            Err(fault) => Err(fault),
        },
        Err(fault) => Err(fault),
    }
}
