//! Lent columns, and columns put into one chunk each, since a row of several chunks is found in as many steps.
ghost use Rattle.std.specs.Prelude.{◌≡◌, ◌↔◌, IfOk, IsTrue, length, map};
ghost use Rattle.std.specs.List.{All};
ghost use Rattle.tb_chunk.specs.Lent.{in_one_chunk, lent_columns};

use crate::series::Series;
use std::alloc::Global;
use tb_value::OutOfMemory;

/// Whether each column has one chunk.
pub fn are_in_one_chunk(columns: &[&Series]) -> bool
    ensures { IsTrue result ↔ All (λ c. length c.now.chunks ≡ 1) columns.now }
{
    columns.iter().all(|column| column.n_chunks() == 1)
}

/// The columns, each in one chunk. Names, types, values and flags stay.
pub fn rechunked(alloc: Global, columns: &[&Series]) -> Result<Vec<Series>, OutOfMemory>
    ensures { IfOk result (λ v. v.items ≡ map in_one_chunk (lent_columns columns.now)) }
{
    let mut whole = Vec::with_capacity(alloc, columns.len())?;
    for column in columns {
        whole.push(column.rechunk(alloc)?)?;
    }
    Ok(whole)
}

/// The columns, lent one by one.
pub fn lend(alloc: Global, columns: &[Series]) -> Result<Vec<&Series>, OutOfMemory>
    ensures { IfOk result (λ v. lent_columns v.items ≡ columns.now) }
{
    let mut lent = Vec::with_capacity(alloc, columns.len())?;
    for column in columns {
        lent.push(column)?;
    }
    Ok(lent)
}
