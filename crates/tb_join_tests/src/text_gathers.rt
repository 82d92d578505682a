// Tests of gathers of texts by ids: which rows come, and which buffers stand behind them.
ghost use Rattle.std.specs.Prelude.{◌≤◌, length};
ghost use Rattle.tb_gather.specs.Gathered.{NameRows};

use crate::gathers::{are_present, ids_in};
use crate::texts::dummies_asked;
use std::alloc::Global;
use std::process::Abort;
use std::test::Fail;
use tb_gather::TakeChunked;
use tb_store::{DataType, Series};
use tb_value::{IsSorted, MAX_ROWS, NullableIdxSize, OutOfMemory, StandardChunkId, ValueRef};

fn is_text(value: ValueRef<'_>, text: Option<&str>) -> bool {
    match (value, text) {
        (ValueRef::Null, None) => true,
        (ValueRef::String(bytes), Some(text)) => *bytes == *text.as_bytes(),
        _ => false,
    }
}

// The text of the row, and none of no row.
fn text_at<'a>(texts: &[&'a str], row: NullableIdxSize) -> Option<&'a str> {
    match row.row() {
        Some(row) if (row as usize) < texts.len() => Some(texts[row as usize]),
        _ => None,
    }
}

// Whether the column has the texts of these rows.
fn has_rows(column: &Series, texts: &[&str], rows: &[NullableIdxSize]) -> bool {
    if column.len() != rows.len() {
        return false;
    }
    for i in 0..rows.len() {
        if !is_text(column.get(i), text_at(texts, rows[i])) {
            return false;
        }
    }
    true
}

fn has_buffers(column: &Series, buffers: &[&str]) -> bool {
    if !matches!(column.dtype(), DataType::String) || column.n_chunks() != 1 {
        return false;
    }
    let held = column.data_buffers(0);
    if held.len() != buffers.len() {
        return false;
    }
    for i in 0..buffers.len() {
        if *held[i].as_slice() != *buffers[i].as_bytes() {
            return false;
        }
    }
    true
}

// The rows that ids name, by the call for ids that may be null where one is.
fn gather(alloc: Global, column: &Series, by: &[StandardChunkId]) -> Result<Series, OutOfMemory>
    requires named { NameRows by.now column.now }
    requires few { length by.now ≤ MAX_ROWS }
{
    if are_present(by) {
        column.take_chunked_unchecked(alloc, by, IsSorted::Not)
    } else {
        column.take_opt_chunked_unchecked(alloc, by)
    }
}

// These rows of the column, gathered by their ids, have their texts, and these buffers alone behind them.
fn check_rows(
    rt: &impl Abort,
    alloc: Global,
    column: &Series,
    rows: &[NullableIdxSize],
    buffers: &[&str],
) -> Result<(), Fail> {
    let ids = ids_in(alloc, column, rows)?;
    let gathered = gather(alloc, column, &ids)?;
    assert!(rt; has_rows(&gathered, &SEVEN, rows));
    assert!(rt; has_buffers(&gathered, buffers));
    Ok(())
}

const SEVEN: [&str; 7] = [
    "1 loooooooooooong string",
    "2 loooooooooooong string",
    "11 loooooooooooong string",
    "22 loooooooooooong string",
    "111 loooooooooooong string",
    "222 loooooooooooong string",
    "small",
];

// Two chunks of two of these, and one of three, of which the last lies in no buffer.
const THREE_CHUNKS: &str =
    r#"{"table":{"columns":[{"name":"s","type":"str","chunks":[["1 loooooooooooong string","2 loooooooooooong string"],["11 loooooooooooong string","22 loooooooooooong string"],["111 loooooooooooong string","222 loooooooooooong string","small"]]}]}}"#;

const FIRST: &str = "1 loooooooooooong string2 loooooooooooong string";

const SECOND: &str = "11 loooooooooooong string22 loooooooooooong string";

const THIRD: &str = "111 loooooooooooong string222 loooooooooooong string";

// As many ids as chunks keep all buffers, null ones too.
fn check_many(rt: &impl Abort, alloc: Global, column: &Series) -> Result<(), Fail> {
    let rows = [
        NullableIdxSize::null(),
        NullableIdxSize::some(1),
        NullableIdxSize::some(3),
        NullableIdxSize::some(6),
    ];
    check_rows(rt, alloc, column, &rows, &[FIRST, SECOND, THIRD])
}

// Fewer ids than chunks keep the buffers in use, in the order of first use.
fn check_few(rt: &impl Abort, alloc: Global, column: &Series) -> Result<(), Fail> {
    let rows = [NullableIdxSize::some(4), NullableIdxSize::some(1)];
    check_rows(rt, alloc, column, &rows, &[THIRD, FIRST])
}

#[test]
fn rows_keep_the_buffers_in_use(rt: HostRuntime) -> Result<(), Fail> {
    let request = dummies_asked(rt.alloc(), THREE_CHUNKS)?;
    for column in request.table.get_columns() {
        check_many(&rt, rt.alloc(), column.as_materialized_series())?;
        check_few(&rt, rt.alloc(), column.as_materialized_series())?;
    }
    Ok(())
}
