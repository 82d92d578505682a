//! Columns put into one chunk each, since a row of several chunks is found in as many steps.
ghost use Rattle.std.specs.Prelude.{◌≡◌, IfOk, length, map};
ghost use Rattle.tb_chunk.specs.Lent.{lent_columns};
ghost use Rattle.tb_frame.specs.Promise.Table.{plain_column, table_of};
ghost use Rattle.tb_rowkey.specs.FieldColumns.{joined_if_cut};
ghost use Rattle.tb_group.specs.Asked.{asked_as, asked_list, source_columns};

use crate::lookup::AskedColumn;
use std::alloc::Global;
use tb_store::Series;
use tb_value::OutOfMemory;

// The column in one chunk, where it is cut.
fn joined(alloc: Global, column: &Series) -> Result<Option<Series>, OutOfMemory>
    ensures { IfOk result (λ s. s ≡ joined_if_cut column.now) }
{
    if column.n_chunks() == 1 {
        return Ok(None);
    }
    Ok(Some(column.rechunk(alloc)?))
}

/// The columns that are cut into chunks, in one chunk each, and none in the place of another.
pub(crate) fn joined_columns(
    alloc: Global,
    columns: &[&Series],
) -> Result<Vec<Option<Series>>, OutOfMemory>
    ensures { IfOk result (λ v. v.items ≡ map joined_if_cut (lent_columns columns.now)) }
{
    let mut all = Vec::with_capacity(alloc, columns.len())?;
    for column in columns {
        all.push(joined(alloc, column)?)?;
    }
    Ok(all)
}

// The column, or the one chunk into which it was put.
fn whole_column<'a>(column: &'a Series, joined: &'a Option<Series>) -> &'a Series
    requires { joined.now ≡ joined_if_cut column.now }
    ensures { plain_column result.now ≡ plain_column column.now }
{
    match joined {
        Some(whole) => whole,
        None => column,
    }
}

/// The columns, each lent, or in the one chunk into which it was put.
pub(crate) fn whole_columns<'a>(
    alloc: Global,
    columns: &'a [&Series],
    joined: &'a [Option<Series>],
) -> Result<Vec<&'a Series>, OutOfMemory>
    requires { joined.now ≡ map joined_if_cut (lent_columns columns.now) }
    ensures { IfOk result (λ v.
        table_of (lent_columns v.items) ≡ table_of (lent_columns columns.now)) }
{
    let mut whole = Vec::with_capacity(alloc, columns.len())?;
    for place in 0..columns.len() {
        whole.push(whole_column(columns[place], &joined[place]))?;
    }
    Ok(whole)
}

/// The columns of whose values aggregates are made, where they are cut, in one chunk each, and none in the place of another.
pub(crate) fn joined_sources(
    alloc: Global,
    made: &[AskedColumn<'_>],
) -> Result<Vec<Option<Series>>, OutOfMemory>
    ensures { IfOk result (λ v. v.items ≡ map joined_if_cut (source_columns made.now)) }
{
    let mut all = Vec::with_capacity(alloc, made.len())?;
    for one in made {
        all.push(joined(alloc, one.column)?)?;
    }
    Ok(all)
}

// The aggregate beside its column, or beside the one chunk into which it was put.
fn whole_source<'a>(one: &AskedColumn<'a>, joined: &'a Option<Series>) -> AskedColumn<'a>
    requires { joined.now ≡ joined_if_cut one.now.column.now }
    ensures { asked_as result ≡ asked_as one.now }
{
    AskedColumn {
        asked: one.asked,
        column: whole_column(one.column, joined),
    }
}

/// The aggregates, each beside its column, or beside the one chunk into which it was put.
pub(crate) fn whole_sources<'a>(
    alloc: Global,
    made: &[AskedColumn<'a>],
    joined: &'a [Option<Series>],
) -> Result<Vec<AskedColumn<'a>>, OutOfMemory>
    requires { joined.now ≡ map joined_if_cut (source_columns made.now) }
    ensures { IfOk result (λ v. asked_list v.items ≡ asked_list made.now) }
{
    let mut whole = Vec::with_capacity(alloc, made.len())?;
    for place in 0..made.len() {
        whole.push(whole_source(&made[place], &joined[place]))?;
    }
    Ok(whole)
}
