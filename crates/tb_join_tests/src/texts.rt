//! Requests that are read from texts, and tables as texts.

use std::alloc::Global;
use std::process::Abort;
use std::test::Fail;
use tb_frame::DataFrame;
use tb_json::into_text;
use tb_request::{DummiesRequest, JoinRequest, dummies_request_of, join_request_of};

pub(crate) fn join_asked(alloc: Global, text: &str) -> Result<JoinRequest, Fail> {
    let request = join_request_of(alloc, text.as_bytes().to_vec(alloc)?).ok();
    Ok(request.ok_or("no request")?)
}

pub(crate) fn dummies_asked(alloc: Global, text: &str) -> Result<DummiesRequest, Fail> {
    let request = dummies_request_of(alloc, text.as_bytes().to_vec(alloc)?).ok();
    Ok(request.ok_or("no request")?)
}

// The table has this text, and a newline behind it.
pub(crate) fn check_text(
    rt: &impl Abort,
    alloc: Global,
    table: DataFrame,
    line: &str,
) -> Result<(), Fail> {
    let text = into_text(alloc, table)?;
    assert_eq!(rt; text.len(), line.len() + 1);
    let piece = text.pieces().first().ok_or("no piece")?;
    assert!(rt; piece.starts_with(line.as_bytes()));
    Ok(())
}
