//! The rows that pass a test.
ghost use Rattle.std.specs.Prelude.{◌≡◌, IfOk, length, map};
ghost use Rattle.tb_value.specs.Promise.Pairs.{left_only};
ghost use Rattle.tb_frame.specs.Promise.Table.{plain_column};
ghost use Rattle.tb_filter.specs.Promise.Filtered.{rows_kept};
ghost use Rattle.tb_filter.specs.Seen.{check_of};

use crate::asked::Test;
use std::alloc::Global;
use tb_store::Series;
use tb_value::{IdxSize, JoinPair, OutOfMemory};

// The rows that pass, each as a pair of a left row alone. No step goes over the chunks where there is one.
fn passing_rows(alloc: Global, column: &Series, test: &Test) -> Result<Vec<JoinPair>, OutOfMemory>
    ensures { IfOk result (λ v.
        v.items ≡ map left_only (rows_kept (check_of test.now) (plain_column column.now))) }
{
    let mut rows = Vec::new(alloc);
    for row in 0..column.len() {
        if test.passes(column.get(row)) {
            rows.push(JoinPair::left_only(row as IdxSize))?;
        }
    }
    Ok(rows)
}

/// The rows of the column that pass, in their order, each as a pair of a left row alone.
pub(crate) fn kept_rows(
    alloc: Global,
    column: &Series,
    test: &Test,
) -> Result<Vec<JoinPair>, OutOfMemory>
    ensures { IfOk result (λ v.
        v.items ≡ map left_only (rows_kept (check_of test.now) (plain_column column.now))) }
{
    if column.n_chunks() == 1 {
        passing_rows(alloc, column, test)
    } else {
        passing_rows(alloc, &column.rechunk(alloc)?, test)
    }
}
