//! Which filters of a tree came through joins.

use std::alloc::Global;
use tb_node::Node;
use tb_value::OutOfMemory;

fn push_over(node: &Node, filters: usize, over: &mut Vec<usize>) -> Result<(), OutOfMemory> {
    match node {
        Node::Table(_) => {
            over.push(filters)?;
        }
        Node::Filter { input, .. } => push_over(input, filters.saturating_add(1), over)?,
        Node::Join { left, right, .. } => {
            push_over(left, 0, over)?;
            push_over(right, 0, over)?;
            over.push(filters)?;
        }
    }
    Ok(())
}

/// How many filters stand over each table and each join, by the numbers of these nodes, as a tree is written.
pub(crate) fn over_of(alloc: Global, root: &Node) -> Result<Vec<usize>, OutOfMemory> {
    let mut over = Vec::new(alloc);
    push_over(root, 0, &mut over)?;
    Ok(over)
}

// The filters over a node: how many of those that are not met yet came from above, and how many were met that were written there.
#[derive(Clone, Copy)]
struct Filters {
    came: usize,
    stayed: usize,
}

const NONE: Filters = Filters { came: 0, stayed: 0 };

// What goes on down from a join that `written` filters were written over: those that came and did not stay, and those that were
// written over it and went.
fn going_down(filters: Filters, written: usize) -> Filters {
    let went = written.saturating_sub(filters.stayed);
    Filters {
        came: filters.came.saturating_add(went),
        stayed: 0,
    }
}

// Of some filters over a node the topmost came from above: filters go down in their order, and where one stays, all stay that stand
// over it.
fn push_marks(
    node: &Node,
    filters: Filters,
    over: &mut Vec<usize>,
    marks: &mut Vec<bool>,
) -> Result<(), OutOfMemory> {
    match node {
        Node::Table(_) => {
            let _ = over.pop();
            marks.push(false)?;
        }
        Node::Filter { input, .. } => {
            let came = filters.came > 0;
            marks.push(came)?;
            let below = Filters {
                came: filters.came.saturating_sub(1),
                stayed: filters.stayed.saturating_add(usize::from(!came)),
            };
            push_marks(input, below, over, marks)?;
        }
        Node::Join { left, right, .. } => {
            let written = over.pop().unwrap_or(0);
            marks.push(false)?;
            push_marks(right, NONE, over, marks)?;
            push_marks(left, going_down(filters, written), over, marks)?;
        }
    }
    Ok(())
}

/// Whether each node is a filter that came through a join, the last node first, where `over` tells what was written. A tree is run
/// that has the tables and joins of the written one.
pub(crate) fn marks_of(
    alloc: Global,
    root: &Node,
    over: Vec<usize>,
) -> Result<Vec<bool>, OutOfMemory> {
    let mut over = over;
    let mut marks = Vec::new(alloc);
    push_marks(root, NONE, &mut over, &mut marks)?;
    Ok(marks)
}
