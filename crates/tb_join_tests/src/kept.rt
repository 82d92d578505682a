//! A join that is kept while rows come and go.

use crate::texts::{check_text, join_asked};
use std::alloc::Global;
use std::process::Abort;
use std::test::Fail;
use tb_delta::JoinView;
use tb_pool::Exec;
use tb_value::{AnyValue, Side};

// The left keys 1 and 2, and the right ones 1 and 1.
const SIDES: &str =
    r#"{"left":{"columns":[{"name":"k","type":"i64","chunks":[[1,2]]}]},"right":{"columns":[{"name":"k","type":"i64","chunks":[[1,1]]}]},"left_on":["k"],"right_on":["k"],"args":{"how":"inner"}}"#;

// A left row comes that matches both right rows.
fn check_insert(rt: &impl Abort, alloc: Global, view: &mut JoinView) -> Result<(), Fail> {
    let row = vec![in alloc; AnyValue::Int(1)]?;
    let id = view.insert(alloc, Side::Left, row).ok();
    assert!(rt; id == Some(2));
    let partners = view.partners(Side::Left, 2).map(|ids| ids.len());
    assert!(rt; partners == Some(2));
    Ok(())
}

// The first left row goes, and is handed back.
fn check_remove(rt: &impl Abort, view: &mut JoinView) -> Result<(), Fail> {
    let width = view.remove(Side::Left, 0).ok().map(|row| row.len());
    assert!(rt; width == Some(1));
    assert!(rt; view.partners(Side::Left, 0).is_none());
    Ok(())
}

#[test]
fn a_row_comes_and_another_goes(rt: HostRuntime) -> Result<(), Fail> {
    let request = join_asked(rt.alloc(), SIDES)?;
    let (left, right) = (&request.left, &request.right);
    let mut view = JoinView::from_tables(rt.alloc(), left, right, "k", "k", false)?;
    check_insert(&rt, rt.alloc(), &mut view)?;
    check_remove(&rt, &mut view)?;
    let table = view.table(&rt, rt.alloc(), &Exec::standard())?;
    let line = r#"{"columns":[{"name":"k","type":"i64","values":[1,1]}],"height":2}"#;
    check_text(&rt, rt.alloc(), table, line)
}
