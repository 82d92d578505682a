//! Requests, and what a run over ends in memory makes of each.
use std::alloc::{AllocError, Global};
use std::test::Fail;
use std::thread::Threads;
use tb_run::{MemorySink, MemorySource, Status, run};
use tb_value::{OutOfMemory, PlSmallStr};

/// A request to join that has an answer.
pub const REQUEST: &str =
    "{\"args\":{\"how\":\"inner\",\"maintain_order\":\"left_right\"},\"left\":{\"columns\":[{\"chunks\":[[1,2],[3]],\"name\":\"k\",\"type\":\"i64\"},{\"chunks\":[[10,20],[30]],\"name\":\"a\",\"type\":\"i64\"}]},\"left_on\":[\"k\"],\"right\":{\"columns\":[{\"chunks\":[[3,1]],\"name\":\"k\",\"type\":\"i64\"},{\"chunks\":[[7,8]],\"name\":\"b\",\"type\":\"i64\"}]},\"right_on\":[\"k\"]}";

/// The text of its answer.
pub const ANSWER: &str =
    "{\"columns\":[{\"name\":\"k\",\"type\":\"i64\",\"values\":[1,3]},{\"name\":\"a\",\"type\":\"i64\",\"values\":[10,30]},{\"name\":\"b\",\"type\":\"i64\",\"values\":[8,7]}],\"height\":2}\n";

// Absent keys on both sides, by each of which a Full join keeps a row.
const ABSENT: &str =
    "{\"args\":{\"how\":\"full\",\"maintain_order\":\"left_right\"},\"left\":{\"columns\":[{\"chunks\":[[null,null]],\"name\":\"k\",\"type\":\"i64\"},{\"chunks\":[[1,2]],\"name\":\"a\",\"type\":\"i64\"}]},\"left_on\":[\"k\"],\"right\":{\"columns\":[{\"chunks\":[[null]],\"name\":\"k\",\"type\":\"i64\"},{\"chunks\":[[3]],\"name\":\"b\",\"type\":\"i64\"}]},\"right_on\":[\"k\"]}";

// The same, where absent keys match.
const ABSENT_MATCH: &str =
    "{\"args\":{\"how\":\"full\",\"join_nulls\":true,\"maintain_order\":\"left_right\"},\"left\":{\"columns\":[{\"chunks\":[[null,null]],\"name\":\"k\",\"type\":\"i64\"},{\"chunks\":[[1,2]],\"name\":\"a\",\"type\":\"i64\"}]},\"left_on\":[\"k\"],\"right\":{\"columns\":[{\"chunks\":[[null]],\"name\":\"k\",\"type\":\"i64\"},{\"chunks\":[[3]],\"name\":\"b\",\"type\":\"i64\"}]},\"right_on\":[\"k\"]}";

const ABSENT_ANSWER: &str =
    "{\"columns\":[{\"name\":\"k\",\"type\":\"i64\",\"values\":[null,null,null]},{\"name\":\"a\",\"type\":\"i64\",\"values\":[1,2,null]},{\"name\":\"k_right\",\"type\":\"i64\",\"values\":[null,null,null]},{\"name\":\"b\",\"type\":\"i64\",\"values\":[null,null,3]}],\"height\":3}\n";

const ABSENT_MATCH_ANSWER: &str =
    "{\"columns\":[{\"name\":\"k\",\"type\":\"i64\",\"values\":[null,null]},{\"name\":\"a\",\"type\":\"i64\",\"values\":[1,2]},{\"name\":\"k_right\",\"type\":\"i64\",\"values\":[null,null]},{\"name\":\"b\",\"type\":\"i64\",\"values\":[3,3]}],\"height\":2}\n";

// A slice of the longest length from the last offset on, and one of a single row from the first offset on.
const LAST_SLICE: &str =
    "{\"args\":{\"how\":\"inner\",\"slice\":[9223372036854775807,18446744073709551615]},\"left\":{\"columns\":[{\"chunks\":[[1]],\"name\":\"k\",\"type\":\"i64\"}]},\"left_on\":[\"k\"],\"right\":{\"columns\":[{\"chunks\":[[1]],\"name\":\"k\",\"type\":\"i64\"}]},\"right_on\":[\"k\"]}";

const FIRST_SLICE: &str =
    "{\"args\":{\"how\":\"inner\",\"slice\":[-9223372036854775808,1]},\"left\":{\"columns\":[{\"chunks\":[[1]],\"name\":\"k\",\"type\":\"i64\"}]},\"left_on\":[\"k\"],\"right\":{\"columns\":[{\"chunks\":[[1]],\"name\":\"k\",\"type\":\"i64\"}]},\"right_on\":[\"k\"]}";

const NO_ROWS: &str =
    "{\"columns\":[{\"name\":\"k\",\"type\":\"i64\",\"values\":[]}],\"height\":0}\n";

const JSON: &str = "{\"error\":\"BadRequest\",\"reason\":\"Json\"}\n";

const SHAPE: &str = "{\"error\":\"BadRequest\",\"reason\":\"Shape\"}\n";

// One run: its request, the numbers of a read and of a write that fail, counted from 1, the room of the sink, how it ends and what
// is written.
#[derive(Clone, Copy)]
struct Row {
    request: &'static str,
    read: u64,
    write: u64,
    room: usize,
    status: Status,
    text: &'static str,
}

fn answered(request: &'static str, status: Status, text: &'static str) -> Row {
    Row {
        request,
        read: 0,
        write: 0,
        room: 1000,
        status,
        text,
    }
}

fn failing(read: u64, write: u64, room: usize, status: Status, text: &'static str) -> Row {
    Row {
        request: REQUEST,
        read,
        write,
        room,
        status,
        text,
    }
}

fn join_word(alloc: Global) -> Result<Vec<PlSmallStr>, OutOfMemory> {
    let mut words = Vec::new(alloc);
    words.push(PlSmallStr::from_str(alloc, "join")?)?;
    Ok(words)
}

fn failing_call(alloc: Global, number: u64) -> Result<Vec<u64>, AllocError> {
    let mut failing = Vec::new(alloc);
    failing.push(number)?;
    Ok(failing)
}

// How a run over these bytes ends, and the sink that it wrote to.
fn ended(
    rt: &(impl Threads + Sync),
    alloc: Global,
    words: &[PlSmallStr],
    bytes: &[u8],
    row: &Row,
) -> Result<(Status, MemorySink), OutOfMemory> {
    let mut source = MemorySource::new(bytes.to_vec(alloc)?, failing_call(alloc, row.read)?);
    let mut sink = MemorySink::new(alloc, row.room, failing_call(alloc, row.write)?)?;
    let status = run(rt, alloc, words, &mut source, &mut sink);
    Ok((status, sink))
}

#[test]
fn rows(rt: HostRuntime) -> Result<(), Fail> {
    let alloc = rt.alloc();
    let rows = [
        answered(REQUEST, Status::Done, ANSWER),
        answered(ABSENT, Status::Done, ABSENT_ANSWER),
        answered(ABSENT_MATCH, Status::Done, ABSENT_MATCH_ANSWER),
        answered(LAST_SLICE, Status::Done, NO_ROWS),
        answered(FIRST_SLICE, Status::Done, NO_ROWS),
        answered("{\"x\":1}", Status::BadRequest, SHAPE),
        failing(1, 0, 1000, Status::ReadFault, ""),
        failing(2, 0, 1000, Status::ReadFault, ""),
        failing(0, 1, 1000, Status::WriteFault, ""),
        failing(0, 0, 10, Status::WriteFault, "{\"columns\""),
    ];
    let words = join_word(alloc)?;
    for row in &rows {
        let (status, sink) = ended(&rt, alloc, &words, row.request.as_bytes(), row)?;
        assert_eq!(rt; status, row.status);
        assert_eq!(rt; sink.written(), row.text.as_bytes());
    }
    Ok(())
}

// The first read would fail, so a status other than that of a failed write would tell of a read.
#[test]
fn a_write_fails_and_nothing_is_read(rt: HostRuntime) -> Result<(), Fail> {
    let alloc = rt.alloc();
    let row = failing(1, 1, 1000, Status::WriteFault, "");
    let (status, sink) = ended(&rt, alloc, &[], row.request.as_bytes(), &row)?;
    assert_eq!(rt; status, row.status);
    assert_eq!(rt; sink.written(), row.text.as_bytes());
    Ok(())
}

#[test]
fn no_front_of_a_request_is_one(rt: HostRuntime) -> Result<(), Fail> {
    let alloc = rt.alloc();
    let words = join_word(alloc)?;
    let row = answered("", Status::BadRequest, JSON);
    let request = REQUEST.as_bytes();
    for len in 0..request.len() {
        let (status, sink) = ended(&rt, alloc, &words, &request[..len], &row)?;
        assert_eq!(rt; status, row.status, "of {len} bytes");
        assert_eq!(rt; sink.written(), row.text.as_bytes(), "of {len} bytes");
    }
    Ok(())
}
