//! Tables made long and wide again, columns replaced by dummies, and rows in groups, by each of the calls that no program
//! makes.

use crate::texts::{check_text, dummies_asked, unpivot_asked};
use std::alloc::Global;
use std::process::Abort;
use std::slice;
use std::test::Fail;
use tb_frame::DataFrame;
use tb_request::{DummiesRequest, UnpivotRequest};
use tb_reshape::{DataFrameOps, GroupBy, Groups, UnpivotDF, pivot};

const INDEXED: &str =
    r#"{"table":{"columns":[{"name":"i","type":"str","chunks":[["x","y"]]},{"name":"v1","type":"i64","chunks":[[1,2]]},{"name":"v2","type":"i64","chunks":[[3,4]]}]},"on":["v1","v2"],"index":["i"]}"#;

// Whether the long table, made wide again, is the table that it was made of.
fn is_wide_again(alloc: Global, request: &UnpivotRequest, long: &DataFrame) -> Result<bool, Fail> {
    let on = slice::from_ref(long.column(alloc, "variable")?.name());
    let values = slice::from_ref(long.column(alloc, "value")?.name());
    let index = Some(request.index.as_slice());
    let wide = pivot(alloc, long, on, index, Some(values), false, None, None)?;
    Ok(wide.equals_missing(&request.table))
}

fn check_long(rt: &impl Abort, alloc: Global, request: &UnpivotRequest) -> Result<(), Fail> {
    let long = request.table.unpivot(alloc, &request.on, &request.index)?;
    let line =
        r#"{"columns":[{"name":"i","type":"str","values":["x","y","x","y"]},{"name":"variable","type":"str","values":["v1","v1","v2","v2"]},{"name":"value","type":"i64","values":[1,2,3,4]}],"height":4}"#;
    assert!(rt; is_wide_again(alloc, request, &long)?);
    check_text(rt, alloc, long, line)
}

#[test]
fn a_table_made_long_and_wide_again(rt: HostRuntime) -> Result<(), Fail> {
    let request = unpivot_asked(rt.alloc(), INDEXED)?;
    check_long(&rt, rt.alloc(), &request)
}

const TYPES: &str =
    r#"{"table":{"columns":[{"name":"type","type":"str","chunks":[["A","B","A"]]}]}}"#;

// A column for each value.
const MADE: &str =
    r#"{"columns":[{"name":"type_A","type":"u8","values":[1,0,1]},{"name":"type_B","type":"u8","values":[0,1,0]}],"height":3}"#;

// Dummies of all columns.
fn check_dummies(rt: &impl Abort, alloc: Global, request: &DummiesRequest) -> Result<(), Fail> {
    let made = request.table.to_dummies(alloc, None, false)?;
    check_text(rt, alloc, made, MADE)
}

// Dummies of the columns that are named, of which there is one.
fn check_named(rt: &impl Abort, alloc: Global, request: &DummiesRequest) -> Result<(), Fail> {
    let name = request.table.column(alloc, "type")?.name();
    let made = request
        .table
        .columns_to_dummies(alloc, slice::from_ref(name), None, false)?;
    check_text(rt, alloc, made, MADE)
}

fn check_both(rt: &impl Abort, alloc: Global, request: &DummiesRequest) -> Result<(), Fail> {
    check_dummies(rt, alloc, request)?;
    check_named(rt, alloc, request)
}

#[test]
fn columns_for_values(rt: HostRuntime) -> Result<(), Fail> {
    let request = dummies_asked(rt.alloc(), TYPES)?;
    check_both(&rt, rt.alloc(), &request)
}

// Whether the rows are in two groups: the first and the third, and the second.
fn are_two_groups(groups: &Groups) -> bool {
    groups.len() == 2 && groups.rows(0) == [0, 2].as_slice() && groups.rows(1) == [1].as_slice()
}

fn has_two_groups(alloc: Global, request: &DummiesRequest) -> Result<bool, Fail> {
    let name = request.table.column(alloc, "type")?.name();
    let groups = request.table.group_by_stable(alloc, slice::from_ref(name))?;
    Ok(are_two_groups(&groups))
}

#[test]
fn rows_of_a_table_in_groups(rt: HostRuntime) -> Result<(), Fail> {
    let request = dummies_asked(rt.alloc(), TYPES)?;
    assert!(rt; has_two_groups(rt.alloc(), &request)?);
    Ok(())
}
