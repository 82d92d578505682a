//! How the columns of a table are cut into chunks.
ghost use Rattle.std.specs.Prelude.{◌≡◌, ◌↔◌, All, IfOk, IsTrue, OnErr, OnOk, map};
ghost use Rattle.tb_chunk.specs.Promise.Col.{Col};
ghost use Rattle.tb_chunk.specs.Lent.{in_one_chunk};
ghost use Rattle.tb_frame.specs.Frame.{lens, AreCutAlike};

use crate::frame::DataFrame;
use std::alloc::Global;
use tb_store::{Column, Series};
use tb_value::OutOfMemory;

impl DataFrame {
    /// Whether two columns differ in the lengths of their chunks.
    pub fn should_rechunk(&self) -> bool
        ensures { IsTrue result ↔ ¬ AreCutAlike self.now }
    {
        match self.columns.first() {
            None => false,
            Some(first) => !are_cut_as(&self.columns, first),
        }
    }

    /// Puts the values of each column into one chunk. Names, types, values and flags stay. After a refusal the table
    /// is as it was.
    pub fn as_single_chunk_par(&mut self, alloc: Global) -> Result<(), OutOfMemory>
        ensures single { OnOk result (self.new ≡ map in_one_chunk self.old) }
        ensures kept { OnErr result (self.new ≡ self.old) }
    {
        self.columns = rechunk_columns(alloc, &self.columns)?;
        Ok(())
    }
}

fn are_cut_as(columns: &[Column], first: &Column) -> bool
    ensures { IsTrue result ↔ All (λ (c : Col). lens c ≡ lens first.now) columns.now }
{
    let first = first.as_materialized_series();
    for column in columns {
        if !are_cut_alike(column.as_materialized_series(), first) {
            return false;
        }
    }
    true
}

/// Whether two columns have as many chunks, and those at a place are as long.
pub fn are_cut_alike(first: &Series, second: &Series) -> bool
    ensures { IsTrue result ↔ (lens first.now ≡ lens second.now) }
{
    let count = first.n_chunks();
    if second.n_chunks() != count {
        return false;
    }
    for chunk in 0..count {
        if first.chunk_len(chunk) != second.chunk_len(chunk) {
            return false;
        }
    }
    true
}

// The values of each column in one chunk. Names, types, values and flags stay.
fn rechunk_columns(alloc: Global, columns: &[Column]) -> Result<Vec<Column>, OutOfMemory>
    ensures { IfOk result (λ v. v.items ≡ map in_one_chunk columns.now) }
{
    let mut whole = Vec::with_capacity(alloc, columns.len())?;
    for column in columns {
        let series = column.as_materialized_series().rechunk(alloc)?;
        whole.push(series.into_column())?;
    }
    Ok(whole)
}
