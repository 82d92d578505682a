//! The join of the sample.
ghost use Rattle.std.specs.Prelude.{◌≤◌, ◌<◌, IfOk};
ghost use Rattle.tb_frame.specs.Promise.Join.{IsAnswer};
ghost use Rattle.tb_frame.specs.Promise.Table.{table_of};
ghost use Rattle.tb_sample.specs.Promise.Sample.{IsSummary, request};

use crate::summary::{Summary, summary_of};
use crate::tables::{left_table, right_table};
use std::alloc::Global;
use std::thread::Threads;
use tb_frame::DataFrame;
use tb_join::DataFrameJoinOps;
use tb_pool::Exec;
use tb_value::{OutOfMemory, PlSmallStr, only_memory};

// An answer to the join.
fn joined(rt: &(impl Threads + Sync), alloc: Global, rows: u32) -> Result<DataFrame, OutOfMemory>
    requires some { 0 < rows }
    requires few { rows ≤ 2000000 }
    ensures { IfOk result (λ t. IsAnswer (request rows) (table_of t)) }
{
    let left = left_table(alloc, rows)?;
    let right = right_table(alloc, rows)?;
    let on = [PlSmallStr::from_str(alloc, "key")?];
    only_memory(left.inner_join(rt, alloc, &right, &on, &on, &Exec::standard()))
}

/// Joins two tables of this many rows, 1 to 2,000,000, and tells of the answer. Left row i has the key i and v = 3 i;
/// right row j has the key 7 j modulo the number of rows, and w = j. Nothing refuses the join.
///
/// # Errors
///
/// `OutOfMemory` where memory is wanting.
pub fn sample(rt: &(impl Threads + Sync), alloc: Global, rows: u32) -> Result<Summary, OutOfMemory>
    requires some { 0 < rows }
    requires few { rows ≤ 2000000 }
    ensures { IfOk result (λ s. IsSummary rows s) }
{
    Ok(summary_of(&joined(rt, alloc, rows)?))
}
