//! The tables of nodes with their numbers.
ghost use Rattle.std.specs.Prelude.{◌≡◌, ◌+◌, IfOk};
ghost use Rattle.tb_value.specs.Promise.Refusals.{SettlesBut};
ghost use Rattle.tb_frame.specs.Promise.Join.{by_names, column_named};
ghost use Rattle.tb_filter.specs.Seen.{check_of};
ghost use Rattle.tb_node.specs.Promise.Settled.{settled};
ghost use Rattle.tb_plan.specs.declared.faults.PlanFault.TheVariants as fault;
ghost use Rattle.tb_plan.specs.declared.numbered.Numbered as rust;
ghost use Rattle.tb_plan.specs.Gives.{Gives};
ghost use Rattle.tb_plan.specs.Promise.Outcome.{filtered, joined, or_fault, outcome, unknown_table};
ghost use Rattle.tb_node.specs.Promise.Trees.{size};
ghost use Rattle.tb_node.specs.Seen.{tree_of};
ghost use Rattle.tb_plan.specs.Seen.{table_made};
ghost use Rattle.tb_node.specs.TableMaps.{tables_in};

use crate::faults::PlanFault;
use crate::made::{Made, filter_made, join_made};
use std::alloc::Global;
use std::thread::Threads;
use tb_filter::Test;
use tb_frame::JoinArgs;
use tb_node::{Node, TableMap};
use tb_pool::Exec;
use tb_value::{OutOfMemory, PlSmallStr};

/// The table of a node, and the number of the node behind it.
#[derive(Drop)]
pub(crate) struct Numbered<'t> {
    pub table: Made<'t>,
    pub next: usize,
}

// The number behind this one. At the end of a `usize` there is none: so many nodes are more than memory can hold.
fn next_number(number: usize) -> Result<usize, OutOfMemory>
    ensures { IfOk result (λ n. n ≡ number + 1) }
{
    match number.checked_add(1) {
        Some(next) => Ok(next),
        None => Err(OutOfMemory),
    }
}

// Refuses a node that asks for a table which isn't there (UnknownTable), and tells the number behind those of the tree.
pub(crate) fn check_tables(
    alloc: Global,
    tables: &TableMap<'_>,
    node: &Node,
    first: usize,
) -> Result<usize, PlanFault>
    ensures settles { SettlesBut fault.OutOfMemory result
        (unknown_table (tables_in tables.now) first (tree_of node.now)) }
    ensures next { IfOk result (λ n. n ≡ first + size (tree_of node.now)) }
{
    match node {
        Node::Table(name) => match tables.get(name) {
            Some(_) => Ok(next_number(first)?),
            None => Err(PlanFault::UnknownTable {
                node: first,
                name: name.copy(alloc)?,
            }),
        },
        Node::Filter { input, .. } => {
            let node = check_tables(alloc, tables, input, first)?;
            Ok(next_number(node)?)
        }
        Node::Join { left, right, .. } => {
            let middle = check_tables(alloc, tables, left, first)?;
            let node = check_tables(alloc, tables, right, middle)?;
            Ok(next_number(node)?)
        }
    }
}

fn lent_numbered<'t>(
    alloc: Global,
    tables: &TableMap<'t>,
    name: &PlSmallStr,
    node: usize,
) -> Result<Numbered<'t>, PlanFault>
    ensures gives { Gives (λ (r : rust.Numbered). table_made r.table) result
        (or_fault (tables_in tables.now name.now) (fault.UnknownTable node name.now)) }
    ensures next { IfOk result (λ r. r.next ≡ node + 1) }
{
    let next = next_number(node)?;
    match tables.get(name) {
        Some(table) => Ok(Numbered {
            table: Made::Lent(table),
            next,
        }),
        None => Err(PlanFault::UnknownTable {
            node,
            name: name.copy(alloc)?,
        }),
    }
}

// The rows that pass of a node's table; the filter has the number behind it.
fn filter_numbered<'t>(
    rt: &(impl Threads + Sync),
    alloc: Global,
    input: Numbered<'t>,
    column: &PlSmallStr,
    test: &Test,
) -> Result<Numbered<'t>, PlanFault>
    ensures gives { Gives (λ (r : rust.Numbered). table_made r.table) result (filtered input.entry.next column.now (check_of test.now)
        (table_made input.entry.table) (column_named (table_made input.entry.table) column.now)) }
    ensures next { IfOk result (λ r. r.next ≡ input.entry.next + 1) }
{
    let Numbered {
        table,
        next: number,
    } = input;
    let next = next_number(number)?;
    match filter_made(rt, alloc, table, column, test, number) {
        Ok(table) => Ok(Numbered { table, next }),
        Err(fault) => Err(fault),
    }
}

// The join of two nodes' tables; it has the number behind the right one.
fn join_numbered<'t>(
    rt: &(impl Threads + Sync),
    alloc: Global,
    left: Made<'t>,
    right: Numbered<'t>,
    left_on: &[PlSmallStr],
    right_on: &[PlSmallStr],
    args: &JoinArgs,
    exec: &Exec,
) -> Result<Numbered<'t>, PlanFault>
    ensures gives { Gives (λ (r : rust.Numbered). table_made r.table) result
        (joined right.entry.next (by_names (table_made left.entry) (table_made right.entry.table) left_on.now right_on.now (settled args.now))) }
    ensures next { IfOk result (λ r. r.next ≡ right.entry.next + 1) }
{
    let Numbered {
        table: right,
        next: number,
    } = right;
    let next = next_number(number)?;
    match join_made(
        rt, alloc, left, right, left_on, right_on, args, number, exec,
    ) {
        Ok(table) => Ok(Numbered {
            table: Made::Own(table),
            next,
        }),
        Err(fault) => Err(fault),
    }
}

/// The table of a node whose tree is numbered from `first` on, or its first fault.
pub(crate) fn node_table<'t>(
    rt: &(impl Threads + Sync),
    alloc: Global,
    tables: &TableMap<'t>,
    node: &Node,
    first: usize,
    exec: &Exec,
) -> Result<Numbered<'t>, PlanFault>
    ensures gives { Gives (λ (r : rust.Numbered). table_made r.table) result
        (outcome (tables_in tables.now) first (tree_of node.now)) }
    ensures next { IfOk result (λ r. r.next ≡ first + size (tree_of node.now)) }
{
    match node {
        Node::Table(name) => lent_numbered(alloc, tables, name, first),
        Node::Filter {
            input,
            column,
            test,
        } => match node_table(rt, alloc, tables, input, first, exec) {
            Ok(input) => filter_numbered(rt, alloc, input, column, test),
            Err(fault) => Err(fault),
        },
        Node::Join {
            left,
            right,
            left_on,
            right_on,
            args,
        } => match node_table(rt, alloc, tables, left, first, exec) {
            Ok(left) => {
                let Numbered {
                    table: left,
                    next: middle,
                } = left;
                match node_table(rt, alloc, tables, right, middle, exec) {
                    Ok(right) => join_numbered(
                        rt,
                        alloc,
                        left,
                        right,
                        left_on.as_slice(),
                        right_on.as_slice(),
                        args,
                        exec,
                    ),
                    Err(fault) => Err(fault),
                }
            }
            Err(fault) => Err(fault),
        },
    }
}
