//! Joins by nested loops, by the calls of a kind with nothing else asked, and with what a merge took. That of an Inner join is
//! called for the sample.

use crate::texts::{check_text, join_asked};
use crate::workers::trace_of;
use std::alloc::Global;
use std::process::Abort;
use std::test::Fail;
use std::thread::Threads;
use tb_join::{DataFrameJoinOps, JoinTrace};
use tb_nested::nested_join;
use tb_pool::OpenGate;
use tb_request::JoinRequest;

// Absent keys on both sides, and one that matches twice.
const KEYS: &str =
    r#"{"left":{"columns":[{"name":"k","type":"i64","chunks":[[1,null],[2]]}]},"right":{"columns":[{"name":"k","type":"i64","chunks":[[null,1,1,3]]}]},"left_on":["k"],"right_on":["k"],"args":{"how":"full","coalesce":"coalesce","maintain_order":"left_right"}}"#;

fn check_nested(rt: &impl Abort, alloc: Global, request: &JoinRequest) -> Result<(), Fail> {
    let (left, right) = (&request.left, &request.right);
    let (left_on, right_on) = (&request.left_on, &request.right_on);
    let table = nested_join(alloc, left, right, left_on, right_on, &request.args)?;
    let line = r#"{"columns":[{"name":"k","type":"i64","values":[1,1,null,2,null,3]}],"height":6}"#;
    check_text(rt, alloc, table, line)
}

fn check_left(
    rt: &(impl Threads + Sync + Abort),
    alloc: Global,
    request: &JoinRequest,
) -> Result<(), Fail> {
    let (left, right) = (&request.left, &request.right);
    let (left_on, right_on) = (&request.left_on, &request.right_on);
    let table = left.left_join(rt, alloc, right, left_on, right_on, &request.exec)?;
    let line = r#"{"columns":[{"name":"k","type":"i64","values":[1,1,null,2]}],"height":4}"#;
    check_text(rt, alloc, table, line)
}

// The rows of a Full join stand in any order.
fn full_rows(
    rt: &(impl Threads + Sync),
    alloc: Global,
    request: &JoinRequest,
) -> Result<usize, Fail> {
    let (left, right) = (&request.left, &request.right);
    let (left_on, right_on) = (&request.left_on, &request.right_on);
    let table = left.full_join(rt, alloc, right, left_on, right_on, &request.exec)?;
    Ok(table.height())
}

fn check_kinds(
    rt: &(impl Threads + Sync + Abort),
    alloc: Global,
    request: &JoinRequest,
) -> Result<(), Fail> {
    check_nested(rt, alloc, request)?;
    check_left(rt, alloc, request)?;
    assert!(rt; full_rows(rt, alloc, request)? == 6);
    Ok(())
}

#[test]
fn joins_with_nothing_else_asked(rt: HostRuntime) -> Result<(), Fail> {
    let request = join_asked(rt.alloc(), KEYS)?;
    check_kinds(&rt, rt.alloc(), &request)
}

// Four keys and three, which ascend.
const RISING: &str =
    r#"{"left":{"columns":[{"name":"k","type":"i64","chunks":[[1,2,2,4]],"sorted":"ascending"}]},"right":{"columns":[{"name":"k","type":"i64","chunks":[[2,2,3]],"sorted":"ascending"}]},"left_on":["k"],"right_on":["k"],"args":{"how":"left"}}"#;

// How many keys were compared, where they were merged.
fn compared(trace: &JoinTrace) -> Option<u64> {
    match trace {
        JoinTrace::Merge(merged) => Some(merged.comparisons()),
        _ => None,
    }
}

fn comparisons(
    rt: &(impl Threads + Sync),
    alloc: Global,
    request: &JoinRequest,
) -> Result<Option<u64>, Fail> {
    let trace = trace_of(rt, alloc, request, &OpenGate)?;
    Ok(compared(&trace))
}

// Twice as many as left keys, and as many as right ones, at most.
#[test]
fn keys_that_ascend_are_merged(rt: HostRuntime) -> Result<(), Fail> {
    let request = join_asked(rt.alloc(), RISING)?;
    let count = comparisons(&rt, rt.alloc(), &request)?;
    assert!(rt; count.is_some_and(|count| count > 0 && count <= 11));
    Ok(())
}
