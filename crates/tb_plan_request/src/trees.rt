//! Trees of a plan, read from JSON.
ghost use Rattle.std.specs.Prelude.{◌≡◌, codes, option_and_then, option_map, IfOk};
ghost use Rattle.serde_json.specs.Find.{as_str, get};
ghost use Rattle.tb_tree.specs.View.{view};
ghost use Rattle.tb_filter.specs.Seen.{check_of};
ghost use Rattle.tb_node.specs.Promise.Trees.{join, table};
ghost use Rattle.tb_node.specs.Seen.{tree_of};
ghost use Rattle.tb_request.specs.Promise.Written.{args_of};
ghost use Rattle.tb_plan_request.specs.Promise.Written.{filter_from, join_at, join_from, test_in, tree_in};
ghost use Rattle.tb_plan_request.specs.declared.trees.JoinAsked as rust;

use crate::checks::test_in;
use crate::known::{filter_members, join_node_members, table_node_members};
use std::alloc::Global;
use tb_filter::Test;
use tb_frame::JoinArgs;
use tb_node::{Names, Node};
use tb_request::{args_of, has_only, name_at, texts_at};
use tb_tree::Value;
use tb_value::OutOfMemory;

fn test_at(alloc: Global, object: &Value, name: &str) -> Result<Option<Test>, OutOfMemory>
    ensures { IfOk result (λ o.
        option_map check_of o ≡ option_and_then test_in (get name.now (view object.now))) }
{
    match object.get(name) {
        Some(member) => test_in(alloc, member),
        None => Ok(None),
    }
}

fn args_at(alloc: Global, object: &Value, name: &str) -> Result<Option<JoinArgs>, OutOfMemory>
    ensures { IfOk result (λ o. o ≡ option_and_then args_of (get name.now (view object.now))) }
{
    match object.get(name) {
        Some(member) => args_of(alloc, member),
        None => Ok(None),
    }
}

fn table_from(alloc: Global, object: &Value) -> Result<Option<Node>, OutOfMemory>
    ensures { IfOk result (λ o. option_map tree_of o
        ≡ option_map table (option_and_then as_str (get (codes "table") (view object.now)))) }
{
    Ok(name_at(alloc, object, "table")?.map(Node::Table))
}

// A filter of an input that is read.
fn filter_from(
    alloc: Global,
    object: &Value,
    input: Option<Node>,
) -> Result<Option<Node>, OutOfMemory>
    ensures { IfOk result (λ o.
        option_map tree_of o ≡ filter_from (view object.now) (option_map tree_of input)) }
{
    let Some(input) = input else {
        return Ok(None);
    };
    let Some(column) = name_at(alloc, object, "column")? else {
        return Ok(None);
    };
    let Some(test) = test_at(alloc, object, "test")? else {
        return Ok(None);
    };
    Ok(Some(Node::Filter {
        input: Box::new(alloc, input)?,
        column,
        test,
    }))
}

// How a join is made, and by which keys.
#[derive(Drop)]
struct JoinAsked {
    args: JoinArgs,
    left_on: Names,
    right_on: Names,
}

fn join_at(alloc: Global, object: &Value) -> Result<Option<JoinAsked>, OutOfMemory>
    ensures { IfOk result (λ o.
        option_map (λ (j : rust.JoinAsked). (j.args, (j.left_on, j.right_on))) o
        ≡ join_at (view object.now)) }
{
    let Some(args) = args_at(alloc, object, "args")? else {
        return Ok(None);
    };
    let Some(left_on) = texts_at(alloc, object, "left_on")? else {
        return Ok(None);
    };
    let Some(right_on) = texts_at(alloc, object, "right_on")? else {
        return Ok(None);
    };
    Ok(Some(JoinAsked {
        args,
        left_on: Names::from_vec(left_on),
        right_on: Names::from_vec(right_on),
    }))
}

fn joined(alloc: Global, left: Node, right: Node, asked: JoinAsked) -> Result<Node, OutOfMemory>
    ensures { IfOk result (λ n.
        tree_of n ≡ join (tree_of left) (tree_of right) asked.left_on asked.right_on asked.args) }
{
    let JoinAsked {
        args,
        left_on,
        right_on,
    } = asked;
    Ok(Node::Join {
        left: Box::new(alloc, left)?,
        right: Box::new(alloc, right)?,
        left_on,
        right_on,
        args,
    })
}

// A join of inputs that are read.
fn join_from(
    alloc: Global,
    object: &Value,
    left: Option<Node>,
    right: Option<Node>,
) -> Result<Option<Node>, OutOfMemory>
    ensures { IfOk result (λ o.
        option_map tree_of o
        ≡ join_from (view object.now) (option_map tree_of left) (option_map tree_of right)) }
{
    let (Some(left), Some(right)) = (left, right) else {
        return Ok(None);
    };
    match join_at(alloc, object)? {
        Some(asked) => Ok(Some(joined(alloc, left, right, asked)?)),
        None => Ok(None),
    }
}

/// The tree that a value is, or None where it is none. It is an object with exactly the members of one of three forms:
/// `table`, a text; `column`, a text, `input`, a tree, and `test`; or `args`, as those of a request to join, `left` and
/// `right`, trees, `left_on` and `right_on`, lists of texts. A test is `"is_null"`, `"is_not_null"`, or an object with exactly
/// one member, `eq` or `less`, which is a truth value, a text or a whole number of 64 bits, with or without sign.
pub fn tree_of(alloc: Global, value: &Value) -> Result<Option<Node>, OutOfMemory>
    ensures { IfOk result (λ o. option_map tree_of o ≡ tree_in (view value.now)) }
{
    if has_only(value, table_node_members()) {
        return table_from(alloc, value);
    }
    if has_only(value, filter_members()) {
        let Some(input) = value.get("input") else {
            return Ok(None);
        };
        let input = tree_of(alloc, input)?;
        return filter_from(alloc, value, input);
    }
    if has_only(value, join_node_members()) {
        let Some(left) = value.get("left") else {
            return Ok(None);
        };
        let Some(right) = value.get("right") else {
            return Ok(None);
        };
        let left = tree_of(alloc, left)?;
        let right = tree_of(alloc, right)?;
        return join_from(alloc, value, left, right);
    }
    Ok(None)
}
