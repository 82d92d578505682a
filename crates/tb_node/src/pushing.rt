//! Filters put before joins.
ghost use Rattle.std.specs.Prelude.{◌≡◌, IfOk, Some, nat_le, position};
ghost use Rattle.std.specs.List.{position_or_len};
ghost use Rattle.std.specs.Option.{option_map};
ghost use Rattle.tb_value.specs.Promise.Names.{same_name};
ghost use Rattle.tb_frame.specs.Promise.Table.{names_of, table_of};
ghost use Rattle.tb_filter.specs.Seen.{check_of};
ghost use Rattle.tb_node.specs.Lowered.{IsPushed, joins_over, lowered, width_of, width_over};
ghost use Rattle.tb_node.specs.Promise.Tables.{Tables, table_named};
ghost use Rattle.tb_node.specs.Promise.Pushed.{is_plain_left, names_beside, pushed, sink};
ghost use Rattle.tb_node.specs.Promise.Trees.{Tree};
ghost use Rattle.tb_node.specs.Promise.Trees as tree;
ghost use Rattle.tb_node.specs.Seen.{given_tables, tree_of};
ghost use Rattle.tb_node.specs.TableMaps.{tables_in};

use crate::lists::Names;
use crate::nodes::Node;
use crate::tables::{NamedTable, TableMap};
use std::alloc::Global;
use tb_filter::Test;
use tb_frame::{DataFrame, JoinArgs, JoinType, JoinValidation, answer_names};
use tb_value::{OutOfMemory, PlSmallStr};

// A tree whose filters stand as far down as they may, and what a filter above it asks of it: the names of its columns, which
// are none where a table under it isn't there; and of the Left joins at its top that filters may pass, from the topmost on, how
// many columns their left inputs have.
#[derive(Drop)]
struct PushedTree {
    node: Node,
    names: Option<Vec<PlSmallStr>>,
    widths: Vec<usize>,
}

fn is_plain_left(args: &JoinArgs) -> bool
    ensures { result ≡ is_plain_left args.now }
{
    args.how == JoinType::Left
        && args.validation == JoinValidation::ManyToMany
        && args.slice.is_none()
}

fn column_names(alloc: Global, table: &DataFrame) -> Result<Vec<PlSmallStr>, OutOfMemory>
    ensures { IfOk result (λ v. v.items ≡ names_of (table_of table.now)) }
{
    let columns = table.get_columns();
    let mut names = Vec::with_capacity(alloc, columns.len())?;
    for column in columns {
        names.push(column.name().copy(alloc)?)?;
    }
    Ok(names)
}

fn names_in(
    alloc: Global,
    tables: &TableMap<'_>,
    name: &PlSmallStr,
) -> Result<Option<Vec<PlSmallStr>>, OutOfMemory>
    ensures { IfOk result (λ o.
        option_map (λ v. v.items) o ≡ option_map names_of (tables_in tables.now name.now)) }
{
    match tables.get(name) {
        Some(table) => Ok(Some(column_names(alloc, table)?)),
        None => Ok(None),
    }
}

// The names of the columns of a join, where those of both inputs are there.
fn names_beside(
    alloc: Global,
    args: &JoinArgs,
    left_on: &[PlSmallStr],
    right_on: &[PlSmallStr],
    left: &Option<Vec<PlSmallStr>>,
    right: &Option<Vec<PlSmallStr>>,
) -> Result<Option<Vec<PlSmallStr>>, OutOfMemory>
    ensures { IfOk result (λ o. option_map (λ v. v.items) o
        ≡ names_beside args.now left_on.now right_on.now (option_map (λ v. v.items) left.now) (option_map (λ v. v.items) right.now)) }
{
    let Some(left) = left else {
        return Ok(None);
    };
    let Some(right) = right else {
        return Ok(None);
    };
    let names = answer_names(alloc, args, left_on, right_on, left, right)?;
    Ok(Some(names))
}

fn width_of(names: &Option<Vec<PlSmallStr>>) -> usize
    ensures { result ≡ width_of (option_map (λ v. v.items) names.now) }
{
    match names {
        Some(names) => names.len(),
        None => 0,
    }
}

fn widths_over(
    plain: bool,
    names: &Option<Vec<PlSmallStr>>,
    left: &Option<Vec<PlSmallStr>>,
    mut widths: Vec<usize>,
) -> Result<Vec<usize>, OutOfMemory>
    ensures { IfOk result (λ v.
        v.items
        ≡ width_over plain (option_map (λ v. v.items) names.now)
        (option_map (λ v. v.items) left.now) widths.items) }
{
    if plain && names.is_some() {
        widths.insert(0, width_of(left))?;
        Ok(widths)
    } else {
        widths.clear();
        Ok(widths)
    }
}

fn position_of(names: &[PlSmallStr], name: &PlSmallStr) -> Option<usize>
    ensures { result ≡ position (same_name name.now) names.now }
{
    names
        .iter()
        .position(|other| name.as_str() == other.as_str())
}

// The place of the name, or behind all of them.
fn place_of(names: &[PlSmallStr], name: &PlSmallStr) -> usize
    ensures { result ≡ position_or_len (same_name name.now) names.now }
{
    position_of(names, name).unwrap_or(names.len())
}

// The first of the widths by which a column at this place is none of the left ones.
fn first_narrow(widths: &[usize], place: usize) -> Option<usize>
    ensures { result ≡ position (λ w. nat_le w place) widths.now }
{
    widths.iter().position(|width| *width <= place)
}

fn joins_above(names: &[PlSmallStr], column: &PlSmallStr, widths: &[usize]) -> usize
    ensures { result ≡ joins_over (Some names.now) column.now widths.now }
{
    let place = place_of(names, column);
    first_narrow(widths, place).unwrap_or(widths.len())
}

// How many joins a filter on the column passes.
fn joins_passed(names: &Option<Vec<PlSmallStr>>, column: &PlSmallStr, widths: &[usize]) -> usize
    ensures { result ≡ joins_over (option_map (λ v. v.items) names.now) column.now widths.now }
{
    match names {
        None => 0,
        Some(names) => joins_above(names, column, widths),
    }
}

fn filtered(alloc: Global, node: Node, column: PlSmallStr, test: Test) -> Result<Node, OutOfMemory>
    ensures { IfOk result (λ n. tree_of n ≡ tree.filter (tree_of node) column (check_of test)) }
{
    Ok(Node::Filter {
        input: Box::new(alloc, node)?,
        column,
        test,
    })
}

// The filter below so many joins, on the left.
fn lowered(
    alloc: Global,
    joins: usize,
    node: Node,
    column: PlSmallStr,
    test: Test,
) -> Result<Node, OutOfMemory>
    ensures { IfOk result (λ n. tree_of n ≡ lowered joins column (check_of test) (tree_of node)) }
{
    match node {
        Node::Table(name) => filtered(alloc, Node::Table(name), column, test),
        Node::Filter {
            input,
            column: inner,
            test: first,
        } => {
            let node = Node::Filter {
                input,
                column: inner,
                test: first,
            };
            filtered(alloc, node, column, test)
        }
        Node::Join {
            left,
            right,
            left_on,
            right_on,
            args,
        } => {
            if joins == 0 {
                let node = Node::Join {
                    left,
                    right,
                    left_on,
                    right_on,
                    args,
                };
                filtered(alloc, node, column, test)
            } else {
                let left = lowered(alloc, joins - 1, Box::into_inner(left), column, test)?;
                Ok(Node::Join {
                    left: Box::new(alloc, left)?,
                    right,
                    left_on,
                    right_on,
                    args,
                })
            }
        }
    }
}

fn filter_pushed(
    alloc: Global,
    input: PushedTree,
    column: PlSmallStr,
    test: Test,
) -> Result<PushedTree, OutOfMemory>
    ensures { IfOk result (λ p.
        (ts : Tables) (n : Tree) → IsPushed ts n input
        → IsPushed ts (sink ts column (check_of test) n) p) }
{
    let PushedTree {
        node,
        names,
        mut widths,
    } = input;
    let joins = joins_passed(&names, &column, &widths);
    let node = lowered(alloc, joins, node, column, test)?;
    widths.truncate(joins);
    Ok(PushedTree {
        node,
        names,
        widths,
    })
}

fn join_pushed(
    alloc: Global,
    left: PushedTree,
    right: PushedTree,
    left_on: Names,
    right_on: Names,
    args: JoinArgs,
) -> Result<PushedTree, OutOfMemory>
    ensures { IfOk result (λ p.
        (ts : Tables) (l r : Tree) → IsPushed ts l left → IsPushed ts r right
        → IsPushed ts (tree.join l r left_on right_on args) p) }
{
    let PushedTree {
        node: left,
        names: left_names,
        widths,
    } = left;
    let PushedTree {
        node: right,
        names: right_names,
        widths: _,
    } = right;
    let names = names_beside(
        alloc,
        &args,
        left_on.as_slice(),
        right_on.as_slice(),
        &left_names,
        &right_names,
    )?;
    let widths = widths_over(is_plain_left(&args), &names, &left_names, widths)?;
    let node = Node::Join {
        left: Box::new(alloc, left)?,
        right: Box::new(alloc, right)?,
        left_on,
        right_on,
        args,
    };
    Ok(PushedTree {
        node,
        names,
        widths,
    })
}

// The tree with each filter as far down as it may stand. Names go up it once.
fn pushed(alloc: Global, tables: &TableMap<'_>, node: Node) -> Result<PushedTree, OutOfMemory>
    ensures { IfOk result
        (IsPushed (tables_in tables.now) (pushed (tables_in tables.now) (tree_of node))) }
{
    match node {
        Node::Table(name) => {
            let names = names_in(alloc, tables, &name)?;
            Ok(PushedTree {
                node: Node::Table(name),
                names,
                widths: Vec::new(alloc),
            })
        }
        Node::Join {
            left,
            right,
            left_on,
            right_on,
            args,
        } => {
            let left = pushed(alloc, tables, Box::into_inner(left))?;
            let right = pushed(alloc, tables, Box::into_inner(right))?;
            join_pushed(alloc, left, right, left_on, right_on, args)
        }
        Node::Filter {
            input,
            column,
            test,
        } => {
            let input = pushed(alloc, tables, Box::into_inner(input))?;
            filter_pushed(alloc, input, column, test)
        }
    }
}

/// The same plan with each filter as far down as it may stand. A filter passes a Left join that no validation checks and no
/// slice cuts, to its left input, where its column is one of that input by the names of the tables, and all tables under the
/// join are there. Of two tables of one name the first is meant. What the plan answers, it answers then too, and it has
/// as many nodes, of which some have other numbers.
pub fn push_filters(alloc: Global, tables: &[NamedTable], root: Node) -> Result<Node, OutOfMemory>
    ensures { IfOk result (λ n.
        tree_of n ≡ pushed (table_named (given_tables tables.now)) (tree_of root)) }
{
    let tables = TableMap::of(alloc, tables)?;
    let PushedTree {
        node,
        names: _,
        widths: _,
    } = pushed(alloc, &tables, root)?;
    Ok(node)
}
