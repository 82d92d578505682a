//! The codes of rows, by which they are scattered.
ghost use Rattle.std.specs.Prelude.{◌≡◌, ◌∷◌, [], ◌<◌, None, IfOk, length, map, slice_index_or};
ghost use Rattle.std.specs.List.{All};
ghost use Rattle.tb_value.specs.See.{lent_value};
ghost use Rattle.tb_value.specs.SeeKind.{kind_of};
ghost use Rattle.tb_value.specs.Promise.Datum.{binary};
ghost use Rattle.tb_value.specs.Promise.Kind as kind;
ghost use Rattle.tb_chunk.specs.Chunk.{or_null};
ghost use Rattle.tb_chunk.specs.Lent.{lent_columns};
ghost use Rattle.tb_chunk.specs.Promise.Col.{values};
ghost use Rattle.tb_frame.specs.Promise.Table.{plain_column, table_of};
ghost use Rattle.tb_build.specs.Plan.{codes_of};
ghost use Rattle.tb_build.specs.Promise.Codes.{code_of_int};
ghost use Rattle.tb_hash.specs.Promise.Hashing.{value_code};
ghost use Rattle.tb_group.specs.Codes.{codes_by, own_code};
ghost use Rattle.tb_group.specs.Promise.Keys.{key_code};
ghost use Rattle.tb_rowkey.specs.Promise.Columns.{row_count};

use std::alloc::Global;
use tb_build::{KeyBytes, KeyCode};
use tb_rowkey::RowKeys;
use tb_store::Series;
use tb_value::{DataType, OutOfMemory, ValueRef};

// How many numbers the low half of 128 bits holds.
const HALF: u128 = 0x1_0000_0000_0000_0000;

/// The code of a row's key, as a key.
#[derive(Clone, Copy, PartialEq, Eq, PartialOrd, Ord)]
pub(crate) struct Code {
    pub code: u64,
}

impl KeyCode for Code {
    ghost use Rattle.std.specs.Prelude.{IsTrue};
    ghost use Rattle.tb_group.specs.Codes.{own_code};
    ghost use Rattle.tb_group.specs.CodeLaws.{codes_agree, code_fits};

    ghost code = { own_code };

    ghost codes_agree = { codes_agree };

    ghost code_fits = { code_fits };

    fn code(&self) -> u64 {
        self.code
    }
}

// The code of a whole number of at most 64 bits.
#[tactic(auto, using(crate::proofs::Halves::low_half))]
fn whole_code(z: i128) -> u64
    ensures { result ≡ code_of_int z }
{
    ((z.cast_unsigned() % HALF) as u64).code()
}

// The code of a value of a key type, and 0 of Null.
fn value_code(dtype: &DataType, value: ValueRef<'_>) -> u64
    ensures { result ≡ value_code (kind_of dtype.now) (lent_value value.entry) }
{
    match value {
        ValueRef::Null | ValueRef::List(_) | ValueRef::Struct(_) => 0,
        ValueRef::Boolean(b) => b.code(),
        ValueRef::Int(z) => match dtype {
            DataType::Int128 => z.code(),
            _ => whole_code(z),
        },
        ValueRef::String(bytes) | ValueRef::Binary(bytes) => KeyBytes { bytes }.code(),
    }
}

// The code of the value of a row.
fn column_code(column: &Series, row: usize) -> Code
    requires { row < length (values column.now) }
    ensures { own_code result ≡ key_code (plain_column column.now ∷ []) row }
{
    Code {
        code: value_code(column.dtype(), column.get(row)),
    }
}

// The codes of the values of a column.
fn column_codes(alloc: Global, column: &Series) -> Result<Vec<Option<Code>>, OutOfMemory>
    ensures { IfOk result (λ v.
        codes_of own_code v.items
        ≡ codes_by (plain_column column.now ∷ []) (length (values column.now))) }
{
    let rows = column.len();
    let mut codes = Vec::with_capacity(alloc, rows)?;
    for row in 0..rows {
        codes.push(Some(column_code(column, row)))?;
    }
    Ok(codes)
}

// The code of a row's key, which each row has.
fn row_code(keys: &RowKeys, row: usize) -> Code
    requires { row < length keys.now }
    ensures { own_code result
        ≡ value_code kind.binary (or_null binary (slice_index_or keys.now row None)) }
{
    let code = match keys.get(row) {
        Some(bytes) => KeyBytes { bytes }.code(),
        None => 0,
    };
    Code { code }
}

// The codes of the keys of rows.
fn row_codes(alloc: Global, keys: &RowKeys) -> Result<Vec<Option<Code>>, OutOfMemory>
    ensures { IfOk result (λ v.
        codes_of own_code v.items ≡ map (λ o. value_code kind.binary (or_null binary o)) keys.now) }
{
    let rows = keys.len();
    let mut codes = Vec::with_capacity(alloc, rows)?;
    for row in 0..rows {
        codes.push(Some(row_code(keys, row)))?;
    }
    Ok(codes)
}

// The keys of rows, in which Nulls match. A row of 2^32 bytes or more is want of memory.
fn row_keys(alloc: Global, by: &[&Series]) -> Result<RowKeys, OutOfMemory>
    requires some { 1 < length by.now }
    requires rows { All (λ c. length (values c) ≡ row_count (lent_columns by.now))
        (lent_columns by.now) }
    ensures { IfOk result (λ k.
        map (λ o. value_code kind.binary (or_null binary o)) k
        ≡ codes_by (table_of (lent_columns by.now)) (row_count (lent_columns by.now))) }
{
    let nulls = vec![in alloc; true; by.len()]?;
    match RowKeys::of_columns(alloc, by, &nulls)? {
        Some(keys) => Ok(keys),
        None => Err(OutOfMemory),
    }
}

/// The code of each row's key: of its value in the one column, and else of the key of the row.
pub(crate) fn key_codes(alloc: Global, by: &[&Series]) -> Result<Vec<Option<Code>>, OutOfMemory>
    requires some { 0 < length by.now }
    requires rows { All (λ c. length (values c) ≡ row_count (lent_columns by.now))
        (lent_columns by.now) }
    ensures { IfOk result (λ v.
        codes_of own_code v.items
        ≡ codes_by (table_of (lent_columns by.now)) (row_count (lent_columns by.now))) }
{
    if by.len() == 1 {
        return column_codes(alloc, by[0]);
    }
    let keys = row_keys(alloc, by)?;
    row_codes(alloc, &keys)
}
