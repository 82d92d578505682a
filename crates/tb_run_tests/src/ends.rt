//! Runs over the ends of readers and writers, and over ends that never fail.
use crate::rows::{ANSWER, REQUEST};
use std::test::Fail;
use tb_run::{Status, StdSink, StdSource, run, run_calm};
use tb_value::PlSmallStr;

#[test]
fn a_run_over_a_reader_and_a_writer(rt: HostRuntime) -> Result<(), Fail> {
    let alloc = rt.alloc();
    let words = [PlSmallStr::from_str(alloc, "join")?];
    let mut written = Vec::new(alloc);
    let mut source = StdSource::new(REQUEST.as_bytes());
    let mut sink = StdSink::new(&mut written);
    let status = run(&rt, alloc, &words, &mut source, &mut sink);
    drop(sink);
    assert_eq!(rt; status, Status::Done);
    assert_eq!(rt; written.as_slice(), ANSWER.as_bytes());
    Ok(())
}

#[test]
fn a_run_over_ends_that_never_fail(rt: HostRuntime) {
    let status = run_calm(&rt, rt.alloc(), &[], Vec::new(rt.alloc()));
    assert_eq!(rt; status, Status::Usage);
}
