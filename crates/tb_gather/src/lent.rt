//! Columns that are lent, and how they are cut into chunks.
ghost use Rattle.std.specs.Prelude.{◌≡◌, ◌<◌, ◌↔◌, All, IfOk, IsTrue, length};
ghost use Rattle.tb_chunk.specs.Promise.Col.{Col};
ghost use Rattle.tb_chunk.specs.Lent.{lent_columns};
ghost use Rattle.tb_frame.specs.Frame.{AreCutAlike, lens};
ghost use Rattle.tb_gather.specs.Ids.{AreCutForIds};

use std::alloc::Global;
use tb_frame::are_cut_alike;
use tb_store::Column;
use tb_value::{OutOfMemory, TOO_MANY_CHUNKS};

/// The columns, lent one by one.
pub(crate) fn lend(alloc: Global, columns: &[Column]) -> Result<Vec<&Column>, OutOfMemory>
    ensures { IfOk result (λ v. lent_columns v.items ≡ columns.now) }
{
    let mut lent = Vec::with_capacity(alloc, columns.len())?;
    for column in columns {
        lent.push(column)?;
    }
    Ok(lent)
}

/// Whether no chunk has to be looked for.
pub(crate) fn are_in_one_chunk(columns: &[&Column]) -> bool
    ensures { IsTrue result ↔ All (λ c. length c.now.chunks ≡ 1) columns.now }
{
    columns.iter().all(|column| column.n_chunks() == 1)
}

/// Whether one list of ids names the rows of all columns.
pub(crate) fn are_cut_for_ids(columns: &[&Column]) -> bool
    ensures { IsTrue result ↔ AreCutForIds (lent_columns columns.now) }
{
    are_all_cut_alike(columns) && have_few_chunks(columns)
}

fn are_all_cut_alike(columns: &[&Column]) -> bool
    ensures { IsTrue result ↔ AreCutAlike (lent_columns columns.now) }
{
    match columns.first() {
        None => true,
        Some(first) => are_cut_as(columns, first),
    }
}

fn are_cut_as(columns: &[&Column], first: &Column) -> bool
    ensures { IsTrue result ↔ All (λ (c : Col). lens c ≡ lens first.now)
        (lent_columns columns.now) }
{
    let first = first.as_materialized_series();
    for column in columns {
        if !are_cut_alike(column.as_materialized_series(), first) {
            return false;
        }
    }
    true
}

fn have_few_chunks(columns: &[&Column]) -> bool
    ensures { IsTrue result ↔ All (λ c. length c.now.chunks < TOO_MANY_CHUNKS) columns.now }
{
    columns
        .iter()
        .all(|column| column.n_chunks() < TOO_MANY_CHUNKS)
}
