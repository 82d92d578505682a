//! The nodes of a plan that are at fault.
ghost use Rattle.tb_tree.specs.View.{item_view};
ghost use Rattle.tb_why.specs.Nodes.{comparison_spot, filter_spot, join_node_spot, node_spot};
ghost use Rattle.tb_why.specs.Spots.{inside, Finds};

use crate::args::args_spot;
use crate::members::{has_any, members_spot};
use crate::spot::{Spot, under_member};
use crate::tree::{Tree, member, text};
use std::alloc::Global;
use tb_plan_request::{
    eq_members, filter_members, join_node_members, less_members, table_node_members,
};
use tb_value::OutOfMemory;

// What an object that is a test compares a field with.
fn comparison_spot(alloc: Global, test: Tree<'_>) -> Result<Option<Spot>, OutOfMemory>
    ensures { Finds result (comparison_spot (item_view test.entry)) }
{
    if text(test).is_some() {
        Ok(None)
    } else if member(test, "less").is_some() {
        members_spot(alloc, less_members(), test)
    } else {
        members_spot(alloc, eq_members(), test)
    }
}

fn filter_spot(alloc: Global, node: Tree<'_>) -> Result<Option<Spot>, OutOfMemory>
    ensures { Finds result (filter_spot (item_view node.entry)) }
{
    if let Some(spot) = members_spot(alloc, filter_members(), node)? {
        return Ok(Some(spot));
    }
    match member(node, "test") {
        Some(test) => under_member(alloc, "test", comparison_spot(alloc, test)?),
        None => Ok(None),
    }
}

fn join_node_spot(alloc: Global, node: Tree<'_>) -> Result<Option<Spot>, OutOfMemory>
    ensures { Finds result (join_node_spot (item_view node.entry)) }
{
    if let Some(spot) = members_spot(alloc, join_node_members(), node)? {
        return Ok(Some(spot));
    }
    match member(node, "args") {
        Some(args) => under_member(alloc, "args", args_spot(alloc, args)?),
        None => Ok(None),
    }
}

// The first part at fault of the node that is the member of this name.
#[cycle(nodes)]
fn node_in(alloc: Global, node: Tree<'_>, name: &str) -> Result<Option<Spot>, OutOfMemory>
    ensures { Finds result (inside name.now node_spot (item_view node.entry)) }
{
    match member(node, name) {
        Some(value) => under_member(alloc, name, node_spot(alloc, value)?),
        None => Ok(None),
    }
}

/// The first part of a node that is at fault. A node's own members come before the nodes in it.
#[cycle(nodes)]
pub(crate) fn node_spot(alloc: Global, node: Tree<'_>) -> Result<Option<Spot>, OutOfMemory>
    ensures { Finds result (node_spot (item_view node.entry)) }
{
    if has_any(node, filter_members()) {
        return match filter_spot(alloc, node)? {
            Some(spot) => Ok(Some(spot)),
            None => node_in(alloc, node, "input"),
        };
    }
    if has_any(node, join_node_members()) {
        if let Some(spot) = join_node_spot(alloc, node)? {
            return Ok(Some(spot));
        }
        return match node_in(alloc, node, "left")? {
            Some(spot) => Ok(Some(spot)),
            None => node_in(alloc, node, "right"),
        };
    }
    members_spot(alloc, table_node_members(), node)
}
