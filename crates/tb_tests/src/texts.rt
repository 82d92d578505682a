//! Requests that are read from texts, and tables as texts.

use std::alloc::Global;
use std::process::Abort;
use std::test::Fail;
use tb_frame::DataFrame;
use tb_json::into_text;
use tb_request::{
    DummiesRequest, PivotRequest, UnpivotRequest, dummies_request_of, pivot_request_of,
    unpivot_request_of,
};
use tb_value::PlSmallStr;

pub(crate) fn pivot_asked(alloc: Global, text: &str) -> Result<PivotRequest, Fail> {
    let request = pivot_request_of(alloc, text.as_bytes().to_vec(alloc)?).ok();
    Ok(request.ok_or("no request")?)
}

pub(crate) fn unpivot_asked(alloc: Global, text: &str) -> Result<UnpivotRequest, Fail> {
    let request = unpivot_request_of(alloc, text.as_bytes().to_vec(alloc)?).ok();
    Ok(request.ok_or("no request")?)
}

pub(crate) fn dummies_asked(alloc: Global, text: &str) -> Result<DummiesRequest, Fail> {
    let request = dummies_request_of(alloc, text.as_bytes().to_vec(alloc)?).ok();
    Ok(request.ok_or("no request")?)
}

// Names that are given, or none.
pub(crate) fn given<'a>(names: &'a Option<Vec<PlSmallStr>>) -> Option<&'a [PlSmallStr]> {
    match names {
        Some(names) => Some(names.as_slice()),
        None => None,
    }
}

// The table has this text, and a newline behind it.
pub(crate) fn check_text(
    rt: &impl Abort,
    alloc: Global,
    table: DataFrame,
    line: &str,
) -> Result<(), Fail> {
    let text = into_text(alloc, table)?;
    assert_eq!(rt; text.len(), line.len() + 1);
    let piece = text.pieces().first().ok_or("no piece")?;
    assert!(rt; piece.starts_with(line.as_bytes()));
    Ok(())
}
