//! The nodes of a plan, and what its faults tell of them.
ghost use Rattle.std.specs.Prelude.{◌≡◌, ◌++◌, IfOk, OnOk};
ghost use Rattle.tb_node.specs.Seen.{tree_of};
ghost use Rattle.tb_front.specs.declared.fault.NodeTitle.TheVariants as title;
ghost use Rattle.tb_plan_front.specs.Promise.Plans.{title_at, titles, told};

use std::alloc::Global;
use tb_front::{FrontFault, NodeTitle};
use tb_node::{Names, Node};
use tb_plan::PlanFault;
use tb_value::{OutOfMemory, PlSmallStr};

fn copied(alloc: Global, names: &Names) -> Result<Names, OutOfMemory>
    ensures { IfOk result (λ n. n ≡ names.now) }
{
    let given = names.as_slice();
    let mut copies = Vec::with_capacity(alloc, given.len())?;
    for name in given {
        copies.push(name.copy(alloc)?)?;
    }
    Ok(Names::from_vec(copies))
}

/// A join by keys of these names.
pub(crate) fn join_title(
    alloc: Global,
    left_on: &Names,
    right_on: &Names,
) -> Result<NodeTitle, OutOfMemory>
    ensures { IfOk result (λ t. t ≡ title.Join left_on.now right_on.now) }
{
    Ok(NodeTitle::Join {
        left_on: copied(alloc, left_on)?,
        right_on: copied(alloc, right_on)?,
    })
}

fn push_titles(alloc: Global, node: &Node, nodes: &mut Vec<NodeTitle>) -> Result<(), OutOfMemory>
    ensures { OnOk result (nodes.new.items ≡ nodes.old.items ++ titles (tree_of node.now)) }
{
    match node {
        Node::Table(name) => {
            nodes.push(NodeTitle::Table(name.copy(alloc)?))?;
        }
        Node::Filter { input, column, .. } => {
            push_titles(alloc, input, nodes)?;
            nodes.push(NodeTitle::Filter(column.copy(alloc)?))?;
        }
        Node::Join {
            left,
            right,
            left_on,
            right_on,
            ..
        } => {
            push_titles(alloc, left, nodes)?;
            push_titles(alloc, right, nodes)?;
            nodes.push(join_title(alloc, left_on, right_on)?)?;
        }
    }
    Ok(())
}

/// The nodes of the tree, by their numbers.
pub(crate) fn titles_of(alloc: Global, root: &Node) -> Result<Vec<NodeTitle>, OutOfMemory>
    ensures { IfOk result (λ v. v.items ≡ titles (tree_of root.now)) }
{
    let mut nodes = Vec::new(alloc);
    push_titles(alloc, root, &mut nodes)?;
    Ok(nodes)
}

// The node of a number.
fn title_at(titles: Vec<NodeTitle>, node: usize) -> NodeTitle
    ensures { result ≡ title_at titles.items node }
{
    let mut titles = titles;
    if node < titles.len() {
        titles.swap_remove(node)
    } else {
        NodeTitle::Pivot
    }
}

/// What a fault of a plan tells of its nodes, which are these.
pub(crate) fn told(titles: Vec<NodeTitle>, fault: PlanFault) -> FrontFault
    ensures { result ≡ told titles.items fault }
{
    match fault {
        PlanFault::RepeatedTable(name) => FrontFault::RepeatedTable(name),
        PlanFault::UnknownTable { node: _, name } => FrontFault::UnknownTable(name),
        PlanFault::At { node, error } => FrontFault::AtNode(title_at(titles, node), error),
        PlanFault::TestType { node } => FrontFault::TestType(title_at(titles, node)),
        PlanFault::OutOfMemory => FrontFault::OutOfMemory,
    }
}
