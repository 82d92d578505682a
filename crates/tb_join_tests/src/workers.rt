//! What no contract says of a join and a grouping by two workers: that both are at work in each phase at once, and that parts
//! are grouped in a phase of their own.
use crate::meeting::Meeting;
use crate::texts::join_asked;
use std::alloc::Global;
use std::process::Abort;
use std::test::Fail;
use std::thread::Threads;
use tb_build::scatter;
use tb_group::group_by;
use tb_join::{DataFrameJoinOps, JoinTrace};
use tb_pool::{Exec, Gate};
use tb_request::JoinRequest;

// Eight rows of two columns.
const TABLE: &str =
    r#"{"columns":[{"name":"a","type":"i64","chunks":[[0,1,2,3,4,5,6,7]]},{"name":"b","type":"i64","chunks":[[0,1,2,3,4,5,6,7]]}]}"#;

// A join by these keys of the table with itself, by two workers and two partitions.
fn request_of(alloc: Global, how: &str, keys: &str) -> Result<JoinRequest, Fail> {
    let text = format!(in alloc;
        r#"{{"left":{TABLE},"right":{TABLE},"left_on":{keys},"right_on":{keys},"args":{{"how":"{how}"}},"exec":{{"workers":2,"partitions":2,"small":0,"num":1,"den":1}}}}"#
    )?;
    join_asked(alloc, &text)
}

// How the join of a request goes behind the gate.
pub(crate) fn trace_of<G: Gate>(
    rt: &(impl Threads + Sync),
    alloc: Global,
    request: &JoinRequest,
    gate: &G,
) -> Result<JoinTrace, Fail> {
    let args = request.args.copy(alloc)?;
    let joined = request.left.join_traced(
        rt,
        alloc,
        &request.right,
        &request.left_on,
        &request.right_on,
        args,
        &request.exec,
        gate,
    )?;
    Ok(joined.1)
}

// Both parts enter as often, in the scatter, the build and the probe, and none waits in vain.
fn meet(
    rt: &(impl Threads + Sync + Abort),
    alloc: Global,
    request: &JoinRequest,
) -> Result<(), Fail> {
    let gate = Meeting::new();
    assert!(rt; matches!(trace_of(rt, alloc, request, &gate)?, JoinTrace::Hash(_)));
    assert!(rt; gate.meetings().is_some_and(|entries| entries >= 3));
    Ok(())
}

fn check_phases(
    rt: &(impl Threads + Sync + Abort),
    alloc: Global,
    how: &str,
    keys: &str,
) -> Result<(), Fail> {
    let request = request_of(alloc, how, keys)?;
    meet(rt, alloc, &request)
}

#[test]
fn both_workers_enter_each_phase(rt: HostRuntime) -> Result<(), Fail> {
    for how in ["inner", "left", "right", "full", "semi", "anti"] {
        for keys in [r#"["a"]"#, r#"["a","b"]"#] {
            check_phases(&rt, rt.alloc(), how, keys)?;
        }
    }
    Ok(())
}

// How often both parts enter where rows with a key of their own each are grouped.
fn grouped(rt: &(impl Threads + Sync), alloc: Global, request: &JoinRequest) -> Result<u64, Fail> {
    let gate = Meeting::new();
    let (table, by) = (&request.left, &request.left_on);
    group_by(rt, alloc, table, by, &[], &request.exec, &gate)?;
    Ok(gate.meetings().ok_or("a part came late")?)
}

const KEYS: [Option<i64>; 8] = [
    Some(0),
    Some(1),
    Some(2),
    Some(3),
    Some(4),
    Some(5),
    Some(6),
    Some(7),
];

// How often they enter where such keys are scattered.
fn scattered(rt: &(impl Threads + Sync), alloc: Global, exec: &Exec) -> Result<u64, Fail> {
    let gate = Meeting::new();
    scatter(rt, alloc, &KEYS, exec, &gate)?;
    Ok(gate.meetings().ok_or("a part came late")?)
}

fn check_grouped(
    rt: &(impl Threads + Sync + Abort),
    alloc: Global,
    request: &JoinRequest,
) -> Result<(), Fail> {
    let alone = scattered(rt, alloc, &request.exec)?;
    assert!(rt; alone > 0 && grouped(rt, alloc, request)? > alone);
    Ok(())
}

#[test]
fn both_enter_more_often_than_in_a_scatter(rt: HostRuntime) -> Result<(), Fail> {
    let request = request_of(rt.alloc(), "left", r#"["a"]"#)?;
    check_grouped(&rt, rt.alloc(), &request)
}
