//! The keys of a table that is parted.
ghost use Rattle.std.specs.Prelude.{◌≡◌, ◌<◌, IfOk, false, length, map};
ghost use Rattle.std.specs.List.{All};
ghost use Rattle.tb_value.specs.Promise.Datum.{binary};
ghost use Rattle.tb_value.specs.Promise.Pairs.{row_numbers};
ghost use Rattle.tb_value.specs.Refusals.{Settles, SettlesOutright};
ghost use Rattle.tb_chunk.specs.Chunk.{or_null};
ghost use Rattle.tb_chunk.specs.Lent.{lent_columns};
ghost use Rattle.tb_chunk.specs.Promise.Col.{values};
ghost use Rattle.tb_frame.specs.Promise.Table.{table_of};
ghost use Rattle.tb_rowkey.specs.Promise.Columns.{row_count};
ghost use Rattle.tb_split.specs.Keys.{AreKeysOf, key_of_row};
ghost use Rattle.tb_split.specs.Promise.Split.{first_no_key, no_names, split_refusal};

use std::alloc::Global;
use tb_frame::{DataFrame, check_repeated, lend_columns};
use tb_rowkey::RowKeys;
use tb_store::Series;
use tb_value::{InvalidCause, OutOfMemory, PlSmallStr, PolarsError, PolarsResult};

// Refuses keys that are none (NoKeys).
fn check_some(on: &[PlSmallStr]) -> PolarsResult<()>
    ensures { SettlesOutright result (no_names on.now) }
{
    if on.is_empty() {
        return Err(PolarsError::InvalidOperation(InvalidCause::NoKeys));
    }
    Ok(())
}

// Refuses the first place of a column that is of no key type (KeyKind).
fn check_kinds(columns: &[&Series]) -> PolarsResult<()>
    ensures { SettlesOutright result (first_no_key (table_of (lent_columns columns.now))) }
{
    for place in 0..columns.len() {
        if !columns[place].dtype().is_key() {
            return Err(PolarsError::InvalidOperation(InvalidCause::KeyKind { place }));
        }
    }
    Ok(())
}

/// The columns of these names, lent.
///
/// # Errors
///
/// The first of these that holds, or `OutOfMemory`:
/// 1. `NoKeys`: there is no name;
/// 2. `ColumnNotFound`: a name is of no column;
/// 3. `Duplicate`: a name stands twice;
/// 4. `KeyKind`: a column is of type Null, List or Struct.
pub(crate) fn key_columns<'a>(
    alloc: Global,
    table: &'a DataFrame,
    on: &[PlSmallStr],
) -> PolarsResult<Vec<&'a Series>>
    ensures settles { Settles result (split_refusal (table_of table.now) on.now) }
    ensures keys { IfOk result (λ v. AreKeysOf (table_of table.now) on.now v.items) }
{
    check_some(on)?;
    let keys = lend_columns(alloc, table.get_columns(), on)?;
    check_repeated(alloc, on)?;
    check_kinds(&keys)?;
    Ok(keys)
}

/// The keys of the rows, in which no Null matches. A row of 2^32 bytes or more is want of memory.
pub(crate) fn row_keys(alloc: Global, columns: &[&Series]) -> Result<RowKeys, OutOfMemory>
    requires some { 0 < length columns.now }
    requires rows { All (λ c. length (values c) ≡ row_count (lent_columns columns.now))
        (lent_columns columns.now) }
    ensures { IfOk result (λ k.
        map (or_null binary) k
        ≡ map (key_of_row (table_of (lent_columns columns.now)))
        (row_numbers (row_count (lent_columns columns.now)))) }
{
    let nulls = vec![in alloc; false; columns.len()]?;
    match RowKeys::of_columns(alloc, columns, &nulls)? {
        Some(keys) => Ok(keys),
        None => Err(OutOfMemory),
    }
}
