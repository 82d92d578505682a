//! Columns put into one chunk each, since a row of several chunks is found in as many steps.
ghost use Rattle.std.specs.Prelude.{◌≡◌, ◌↔◌, ◌≤◌, true, IfOk, IsTrue, length, map};
ghost use Rattle.std.specs.List.{All};
ghost use Rattle.tb_value.specs.Promise.Refusals.{first_cause};
ghost use Rattle.tb_value.specs.Refusals.{Settles};
ghost use Rattle.tb_chunk.specs.Lent.{in_one_chunk, lent_columns};
ghost use Rattle.tb_frame.specs.Promise.Table.{table_of};
ghost use Rattle.tb_pivot.specs.Lookup.{AreAsHigh, chosen_of};
ghost use Rattle.tb_pivot.specs.Made.{takes};
ghost use Rattle.tb_pivot.specs.Promise.Pivot.{wide};
ghost use Rattle.tb_pivot.specs.Promise.Refusal.{value_causes};

use crate::lookup::WideColumns;
use crate::maker::CellMaker;
use crate::wide::wide;
use std::alloc::Global;
use tb_frame::DataFrame;
use tb_store::{Series, are_in_one_chunk, lend, rechunked};
use tb_value::{MAX_ROWS, OutOfMemory, PolarsResult};

// The columns of an index and those whose rows become headers, each in one chunk.
#[derive(Drop)]
struct WholeKeys {
    on: Vec<Series>,
    index: Vec<Series>,
}

// The columns, lent once more.
fn lend_again<'a>(alloc: Global, columns: &[&'a Series]) -> Result<Vec<&'a Series>, OutOfMemory>
    ensures { IfOk result (λ v. lent_columns v.items ≡ lent_columns columns.now) }
{
    let mut lent = Vec::with_capacity(alloc, columns.len())?;
    for column in columns {
        lent.push(*column)?;
    }
    Ok(lent)
}

impl WholeKeys {
    fn of(alloc: Global, columns: &WideColumns<'_>) -> Result<WholeKeys, OutOfMemory>
        ensures on { IfOk result (λ k.
            k.on.items ≡ map in_one_chunk (lent_columns columns.now.on.items)) }
        ensures index { IfOk result (λ k.
            k.index.items ≡ map in_one_chunk (lent_columns columns.now.index.items)) }
    {
        Ok(WholeKeys {
            on: rechunked(alloc, &columns.on)?,
            index: rechunked(alloc, &columns.index)?,
        })
    }

    // They and the value columns, lent.
    fn lent<'a>(
        &'a self,
        alloc: Global,
        values: &[&'a Series],
    ) -> Result<WideColumns<'a>, OutOfMemory>
        ensures on { IfOk result (λ r. lent_columns r.on.items ≡ self.now.on.items) }
        ensures index { IfOk result (λ r. lent_columns r.index.items ≡ self.now.index.items) }
        ensures values { IfOk result (λ r. lent_columns r.values.items ≡ lent_columns values.now) }
    {
        Ok(WideColumns {
            on: lend(alloc, &self.on)?,
            index: lend(alloc, &self.index)?,
            values: lend_again(alloc, values)?,
        })
    }
}

/// As `wide`, in as many steps for each value as there are chunks of a value column, however many those of the index and
/// of the headers have.
///
/// # Errors
///
/// Those of `wide`.
pub(crate) fn wide_of_chunks<M: CellMaker>(
    alloc: Global,
    height: usize,
    columns: &WideColumns<'_>,
    maker: &M,
    sorts: bool,
    separator: &str,
) -> PolarsResult<DataFrame>
    requires ready { M.IsReady maker.now }
    requires few { height ≤ MAX_ROWS }
    requires high { AreAsHigh height columns.now }
    requires taken { All (λ c. takes (M.way maker.now) c.now.kind ≡ true) columns.now.values.items }
    ensures settles { Settles result
        (first_cause
        (value_causes (chosen_of height columns.now sorts (M.way maker.now) separator.now))) }
    ensures table { IfOk result (λ t.
        table_of t ≡ wide (chosen_of height columns.now sorts (M.way maker.now) separator.now)) }
{
    if are_in_one_chunk(&columns.on) && are_in_one_chunk(&columns.index) {
        return wide(alloc, height, columns, maker, sorts, separator);
    }
    let keys = WholeKeys::of(alloc, columns)?;
    let whole = keys.lent(alloc, &columns.values)?;
    wide(alloc, height, &whole, maker, sorts, separator)
}
