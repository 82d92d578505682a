//! Columns that are cut into chunks, put into one chunk each before they are read by rows.
ghost use Rattle.std.specs.Prelude.{◌≡◌, IfOk, map};
ghost use Rattle.tb_chunk.specs.Lent.{lent_columns};
ghost use Rattle.tb_rowkey.specs.FieldColumns.{joined_if_cut, typed_values};

use crate::field_column::FieldColumn;
use std::alloc::Global;
use tb_store::{OutOfMemory, Series};

// The column in one chunk, where it is cut.
fn joined(alloc: Global, column: &Series) -> Result<Option<Series>, OutOfMemory>
    ensures { IfOk result (λ s. s ≡ joined_if_cut column.now) }
{
    if column.n_chunks() == 1 {
        return Ok(None);
    }
    Ok(Some(column.rechunk(alloc)?))
}

/// The columns that are cut into chunks, in one chunk each, and none in the place of another.
pub(crate) fn joined_columns(
    alloc: Global,
    columns: &[&Series],
) -> Result<Vec<Option<Series>>, OutOfMemory>
    ensures { IfOk result (λ v. v.items ≡ map joined_if_cut (lent_columns columns.now)) }
{
    let mut all = Vec::with_capacity(alloc, columns.len())?;
    for column in columns {
        all.push(joined(alloc, column)?)?;
    }
    Ok(all)
}

// The column as its fields are read.
fn field_column<'a>(column: &'a Series, joined: &'a Option<Series>) -> FieldColumn<'a>
    requires { joined.now ≡ joined_if_cut column.now }
    ensures { typed_values result ≡ typed_values column.now }
{
    match joined {
        Some(whole) => FieldColumn::new(whole),
        None => FieldColumn::new(column),
    }
}

/// The columns as their fields are read, each lent, or in the one chunk into which it was put.
pub(crate) fn field_columns<'a>(
    alloc: Global,
    columns: &'a [&Series],
    joined: &'a [Option<Series>],
) -> Result<Vec<FieldColumn<'a>>, OutOfMemory>
    requires { joined.now ≡ map joined_if_cut (lent_columns columns.now) }
    ensures { IfOk result (λ v.
        map typed_values v.items ≡ map typed_values (lent_columns columns.now)) }
{
    let mut fields = Vec::with_capacity(alloc, columns.len())?;
    for place in 0..columns.len() {
        fields.push(field_column(columns[place], &joined[place]))?;
    }
    Ok(fields)
}
