//! The nodes of a plan as they are run.
ghost use Rattle.std.specs.Prelude.{◌≡◌, ◌∷◌, [], IfOk, option_map};
ghost use Rattle.tb_filter.specs.Seen.{check_of};
ghost use Rattle.tb_frame.specs.Promise.Table.{table_of};
ghost use Rattle.tb_node.specs.Promise.Tables.{table_named};
ghost use Rattle.tb_node.specs.Promise.Trees.{table};
ghost use Rattle.tb_node.specs.Seen.{given_tables, tree_of};
ghost use Rattle.tb_node.specs.TableMaps.{tables_in};
ghost use Rattle.tb_plan_request.specs.Lent.{pivot_view};
ghost use Rattle.tb_plan_front.specs.Explained.{explained_view, lines_view};
ghost use Rattle.tb_plan_front.specs.Plans.{given_texts, plan_asked};
ghost use Rattle.tb_front.specs.Promise.Due.{Gives};
ghost use Rattle.tb_plan_front.specs.Promise.Explained.{alone, explained, explained_plan, filter_explained, finished, join_explained, left_name, pivot_explained, plan_lines, right_name, table_explained, with_line};
ghost use Rattle.tb_plan_front.specs.Promise.Plans.{planned_table};

use crate::marks::{marks_of, over_of};
use crate::named::{NamedText, tables_of};
use crate::planning::planned_table;
use crate::plans::PlanCall;
use crate::titles::join_title;
use std::alloc::Global;
use std::thread::Threads;
use tb_calls::PivotCall;
use tb_filter::Test;
use tb_frame::{DataFrame, JoinArgs};
use tb_front::{FrontFault, NodeTitle, TextOptions, next_number};
use tb_node::{NamedTable, Names, Node, TableMap};
use tb_plan_request::run_root;
use tb_pool::Exec;
use tb_value::{OutOfMemory, PlSmallStr};

/// A node of a plan that was run.
#[derive(Drop)]
pub struct NodeLine {
    /// How many nodes stand over it.
    pub depth: usize,
    pub title: NodeTitle,
    /// How many rows its table has.
    pub height: usize,
    /// Whether it is a filter that came through a join when filters were put before joins.
    pub pushed: bool,
}

// The table of a node, and the lines of all nodes up to it, by their numbers.
#[derive(Drop)]
pub(crate) struct NodeTable {
    pub table: DataFrame,
    pub lines: Vec<NodeLine>,
}

// The table of a node with its line behind the others.
fn with_line(
    table: DataFrame,
    lines: Vec<NodeLine>,
    depth: usize,
    title: NodeTitle,
) -> Result<NodeTable, OutOfMemory>
    ensures { IfOk result (λ e.
        explained_view e ≡ with_line depth title (lines_view lines.items) (table_of table)) }
{
    let height = table.height();
    let mut lines = lines;
    lines.push(NodeLine {
        depth,
        title,
        height,
        pushed: false,
    })?;
    Ok(NodeTable { table, lines })
}

fn table_explained(
    alloc: Global,
    tables: &TableMap<'_>,
    depth: usize,
    name: PlSmallStr,
) -> Result<NodeTable, FrontFault>
    ensures { Gives explained_view result (table_explained depth name (tables_in tables.now name)) }
{
    match tables.get(&name) {
        Some(table) => {
            let table = table.copy(alloc)?;
            Ok(with_line(table, Vec::new(alloc), depth, NodeTitle::Table(name))?)
        }
        None => Err(FrontFault::UnknownTable(name)),
    }
}

// The table of one node over those of its inputs.
fn one_node(
    rt: &(impl Threads + Sync),
    alloc: Global,
    inputs: Vec<NamedTable>,
    root: Node,
    exec: &Exec,
) -> Result<DataFrame, FrontFault>
    ensures { Gives table_of result
        (planned_table (given_tables inputs.items) (alone (tree_of root))) }
{
    let call = PlanCall {
        root,
        pivot: None,
        push: false,
    };
    planned_table(rt, alloc, inputs, call, exec)
}

fn named(alloc: Global, name: &str, table: DataFrame) -> Result<NamedTable, OutOfMemory>
    ensures { IfOk result (λ t. (t.name ≡ name.now) × (t.table ≡ table)) }
{
    let name = PlSmallStr::from_str(alloc, name)?;
    Ok(NamedTable { name, table })
}

fn leaf(alloc: Global, name: &str) -> Result<Box<Node>, OutOfMemory>
    ensures { IfOk result (λ b. tree_of b.value ≡ table name.now) }
{
    let name = PlSmallStr::from_str(alloc, name)?;
    Ok(Box::new(alloc, Node::Table(name))?)
}

// The only input under its name.
fn one_input(alloc: Global, table: DataFrame) -> Result<Vec<NamedTable>, OutOfMemory>
    ensures { IfOk result (λ v. given_tables v.items ≡ (left_name, table_of table) ∷ []) }
{
    Ok(vec![in alloc; named(alloc, "left", table)?]?)
}

fn two_inputs(
    alloc: Global,
    left: DataFrame,
    right: DataFrame,
) -> Result<Vec<NamedTable>, OutOfMemory>
    ensures { IfOk result (λ v.
        given_tables v.items ≡ (left_name, table_of left) ∷ (right_name, table_of right) ∷ []) }
{
    let left = named(alloc, "left", left)?;
    let right = named(alloc, "right", right)?;
    Ok(vec![in alloc; left, right]?)
}

fn filter_explained(
    rt: &(impl Threads + Sync),
    alloc: Global,
    depth: usize,
    input: NodeTable,
    column: PlSmallStr,
    test: Test,
    exec: &Exec,
) -> Result<NodeTable, FrontFault>
    ensures { Gives explained_view result
        (filter_explained depth column (check_of test) (explained_view input)) }
{
    let NodeTable { table, lines } = input;
    let title = NodeTitle::Filter(column.copy(alloc)?);
    let inputs = one_input(alloc, table)?;
    let root = Node::Filter {
        input: leaf(alloc, "left")?,
        column,
        test,
    };
    match one_node(rt, alloc, inputs, root, exec) {
        Ok(table) => Ok(with_line(table, lines, depth, title)?),
        Err(fault) => Err(fault),
    }
}

// What is asked of a join, beside its inputs.
#[derive(Drop)]
struct JoinKeys {
    left_on: Names,
    right_on: Names,
    args: JoinArgs,
}

fn join_explained(
    rt: &(impl Threads + Sync),
    alloc: Global,
    depth: usize,
    left: NodeTable,
    right: NodeTable,
    keys: JoinKeys,
    exec: &Exec,
) -> Result<NodeTable, FrontFault>
    ensures { Gives explained_view result
        (join_explained depth keys.left_on keys.right_on keys.args (explained_view left)
        (explained_view right)) }
{
    let JoinKeys {
        left_on,
        right_on,
        args,
    } = keys;
    let NodeTable { table, mut lines } = left;
    let NodeTable {
        table: other,
        lines: mut more,
    } = right;
    let title = join_title(alloc, &left_on, &right_on)?;
    lines.append(&mut more)?;
    let inputs = two_inputs(alloc, table, other)?;
    let root = Node::Join {
        left: leaf(alloc, "left")?,
        right: leaf(alloc, "right")?,
        left_on,
        right_on,
        args,
    };
    match one_node(rt, alloc, inputs, root, exec) {
        Ok(table) => Ok(with_line(table, lines, depth, title)?),
        Err(fault) => Err(fault),
    }
}

// The table of a node and the lines up to it. A plan has fewer levels than a `usize` counts.
fn explained(
    rt: &(impl Threads + Sync),
    alloc: Global,
    tables: &TableMap<'_>,
    depth: usize,
    node: Node,
    exec: &Exec,
) -> Result<NodeTable, FrontFault>
    ensures { Gives explained_view result (explained (tables_in tables.now) depth (tree_of node)) }
{
    match node {
        Node::Table(name) => table_explained(alloc, tables, depth, name),
        Node::Filter {
            input,
            column,
            test,
        } => {
            let below = next_number(depth)?;
            match explained(rt, alloc, tables, below, Box::into_inner(input), exec) {
                Ok(input) => filter_explained(rt, alloc, depth, input, column, test, exec),
                Err(fault) => Err(fault),
            }
        }
        Node::Join {
            left,
            right,
            left_on,
            right_on,
            args,
        } => {
            let below = next_number(depth)?;
            match explained(rt, alloc, tables, below, Box::into_inner(left), exec) {
                Ok(left) => match explained(
                    rt,
                    alloc,
                    tables,
                    below,
                    Box::into_inner(right),
                    exec,
                ) {
                    Ok(right) => {
                        let keys = JoinKeys {
                            left_on,
                            right_on,
                            args,
                        };
                        join_explained(rt, alloc, depth, left, right, keys, exec)
                    }
                    Err(fault) => Err(fault),
                },
                Err(fault) => Err(fault),
            }
        }
    }
}

// The line of a pivot behind those of all nodes.
fn pivot_explained(
    rt: &(impl Threads + Sync),
    alloc: Global,
    made: NodeTable,
    pivot: PivotCall,
    exec: &Exec,
) -> Result<Vec<NodeLine>, FrontFault>
    ensures { Gives (λ v. lines_view v.items) result
        (pivot_explained (pivot_view pivot) (explained_view made)) }
{
    let NodeTable { table, lines } = made;
    let inputs = one_input(alloc, table)?;
    let call = PlanCall {
        root: Box::into_inner(leaf(alloc, "left")?),
        pivot: Some(pivot),
        push: false,
    };
    match planned_table(rt, alloc, inputs, call, exec) {
        Ok(table) => Ok(with_line(table, lines, 0, NodeTitle::Pivot)?.lines),
        Err(fault) => Err(fault),
    }
}

// The lines of a tree, and of a pivot of what it makes where one is asked.
fn finished_over(
    rt: &(impl Threads + Sync),
    alloc: Global,
    tables: &TableMap<'_>,
    root: Node,
    pivot: Option<PivotCall>,
    exec: &Exec,
) -> Result<Vec<NodeLine>, FrontFault>
    ensures { Gives (λ v. lines_view v.items) result
        (finished (tables_in tables.now) (tree_of root) (option_map pivot_view pivot)) }
{
    match pivot {
        None => match explained(rt, alloc, tables, 0, root, exec) {
            Ok(made) => Ok(made.lines),
            Err(fault) => Err(fault),
        },
        Some(pivot) => match explained(rt, alloc, tables, 1, root, exec) {
            Ok(made) => pivot_explained(rt, alloc, made, pivot, exec),
            Err(fault) => Err(fault),
        },
    }
}

// The same over tables under names.
fn finished(
    rt: &(impl Threads + Sync),
    alloc: Global,
    tables: &[NamedTable],
    root: Node,
    pivot: Option<PivotCall>,
    exec: &Exec,
) -> Result<Vec<NodeLine>, FrontFault>
    ensures { Gives (λ v. lines_view v.items) result
        (finished (table_named (given_tables tables.now)) (tree_of root)
        (option_map pivot_view pivot)) }
{
    let map = TableMap::of(alloc, tables)?;
    finished_over(rt, alloc, &map, root, pivot, exec)
}

// The lines with the marks of filters that came through joins, of which the last is that of the first line.
fn marked(
    alloc: Global,
    lines: Vec<NodeLine>,
    marks: Vec<bool>,
) -> Result<Vec<NodeLine>, OutOfMemory>
    ensures { IfOk result (λ v. lines_view v.items ≡ lines_view lines.items) }
{
    let mut marks = marks;
    let mut marked = Vec::with_capacity(alloc, lines.len())?;
    for line in lines {
        let pushed = marks.pop().unwrap_or(false);
        marked.push(NodeLine { pushed, ..line })?;
    }
    Ok(marked)
}

// The lines of the nodes of a plan over tables.
fn explained_plan(
    rt: &(impl Threads + Sync),
    alloc: Global,
    tables: &[NamedTable],
    call: PlanCall,
    exec: &Exec,
) -> Result<Vec<NodeLine>, FrontFault>
    ensures { Gives (λ v. lines_view v.items) result
        (explained_plan (given_tables tables.now) (plan_asked call)) }
{
    let PlanCall { root, pivot, push } = call;
    let over = over_of(alloc, &root)?;
    let root = run_root(alloc, tables, root, push)?;
    let marks = marks_of(alloc, &root, over)?;
    match finished(rt, alloc, tables, root, pivot, exec) {
        Ok(lines) => Ok(marked(alloc, lines, marks)?),
        Err(fault) => Err(fault),
    }
}

/// The nodes of a plan over the tables that texts of comma-separated values are, as they are run, by their numbers: inputs before the
/// node and left before right, a pivot last. Of each its depth and the number of rows of its table. Of two texts of one name the
/// first is meant. A filter is marked that came through a join when filters were put before joins; no clause tells of the marks.
///
/// # Errors
///
/// The first of these that holds, or `OutOfMemory`: 1 and 2 those of `plan_text`, 3 `UnknownTable`, `AtNode` or `TestType` of the
/// first node that has one.
pub fn plan_lines(
    rt: &(impl Threads + Sync),
    alloc: Global,
    texts: Vec<NamedText>,
    call: PlanCall,
    options: &TextOptions,
) -> Result<Vec<NodeLine>, FrontFault>
    ensures { Gives (λ v. lines_view v.items) result
        (plan_lines options.now.csv (given_texts texts.items) (plan_asked call)) }
{
    match tables_of(rt, alloc, &options.csv, texts) {
        Ok(tables) => explained_plan(rt, alloc, &tables, call, &options.exec),
        Err(fault) => Err(fault),
    }
}
