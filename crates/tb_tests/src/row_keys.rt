//! Keys of rows, byte by byte.
ghost use Rattle.std.specs.Prelude.{◌≡◌, ◌↔◌, IfOk, IsTrue, length};
ghost use Rattle.std.specs.List.{All};
ghost use Rattle.tb_value.specs.Promise.SameKind.{is_key};
ghost use Rattle.tb_chunk.specs.Promise.Col.{values};
ghost use Rattle.tb_rowkey.specs.Columns.{lent_columns};

use crate::texts::dummies_asked;
use std::alloc::Global;
use std::process::Abort;
use std::test::Fail;
use tb_frame::DataFrame;
use tb_rowkey::{RowKeys, prepare_keys_multiple};
use tb_store::{OutOfMemory, Series, ValueRef};

// The columns of a table.
fn columns_of(alloc: Global, table: &DataFrame) -> Result<Vec<Series>, OutOfMemory> {
    let mut columns = Vec::new(alloc);
    for column in table.get_columns() {
        columns.push(column.as_materialized_series().copy(alloc)?)?;
    }
    Ok(columns)
}

// Whether the column is of a key type and of this length.
fn is_key_column(column: &Series, rows: usize) -> bool
    ensures { IsTrue result ↔
        (IsTrue (is_key column.now.kind) × (length (values column.now) ≡ rows)) }
{
    column.dtype().is_key() && column.len() == rows
}

// Whether the columns are of key types and of this length.
fn are_keys(columns: &[Series], rows: usize) -> bool
    ensures { IsTrue result
        ↔ All (λ c. IsTrue (is_key c.kind) × (length (values c) ≡ rows)) columns.now }
{
    columns.iter().all(|column| is_key_column(column, rows))
}

// The columns, lent one by one.
fn lend(alloc: Global, columns: &[Series]) -> Result<Vec<&Series>, OutOfMemory>
    ensures { IfOk result (λ v. lent_columns v.items ≡ columns.now) }
{
    let mut lent = Vec::with_capacity(alloc, columns.len())?;
    for column in columns {
        lent.push(column)?;
    }
    Ok(lent)
}

fn keys_of(
    rt: &impl Abort,
    alloc: Global,
    columns: &[Series],
    join_nulls: &[bool],
) -> Result<Series, Fail> {
    assert!(rt; !columns.is_empty());
    assert!(rt; join_nulls.len() == columns.len());
    assert!(rt; are_keys(columns, columns[0].len()));
    let lent = lend(alloc, columns)?;
    assert!(rt; RowKeys::of_columns(alloc, &lent, join_nulls)?.is_some());
    Ok(prepare_keys_multiple(alloc, columns, join_nulls)?)
}

// Whether the key of the row has these bytes.
fn has_key(keys: &Series, row: usize, wanted: &[u8]) -> bool {
    row < keys.len()
        && match keys.get(row) {
            ValueRef::Binary(bytes) => bytes == wanted,
            _ => false,
        }
}

// The keys of the rows (ab, c) and (a, bc).
fn check_keys(rt: &impl Abort, alloc: Global, columns: &[Series]) -> Result<(), Fail> {
    let keys = keys_of(rt, alloc, columns, &[true, true])?;
    assert!(rt; has_key(&keys, 0, b"\x01\x00\x00\x00\x02ab\x01\x00\x00\x00\x01c"));
    assert!(rt; has_key(&keys, 1, b"\x01\x00\x00\x00\x01a\x01\x00\x00\x00\x02bc"));
    Ok(())
}

const CUT_TEXTS: &str =
    r#"{"table":{"columns":[{"name":"a","type":"str","chunks":[["ab"],["a"]]},{"name":"b","type":"str","chunks":[["c"],["bc"]]}]}}"#;

#[test]
fn texts_in_two_chunks(rt: HostRuntime) -> Result<(), Fail> {
    let request = dummies_asked(rt.alloc(), CUT_TEXTS)?;
    let columns = columns_of(rt.alloc(), &request.table)?;
    check_keys(&rt, rt.alloc(), &columns)
}
