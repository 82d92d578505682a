//! Columns of one value for each group.
ghost use Rattle.std.specs.Prelude.{IfOk, IsSome, length};
ghost use Rattle.tb_value.specs.Refusals.{Settles};
ghost use Rattle.tb_chunk.specs.Promise.Col.{values};
ghost use Rattle.tb_agg.specs.Promise.Aggregates.{result_kind};
ghost use Rattle.tb_agg.specs.Grouped.{AreGroupsOf};
ghost use Rattle.tb_agg.specs.Outcome.{agg_refusal, range_cause, IsAggregated};

use crate::kept::Kept;
use crate::table::Aggregate;
use std::alloc::Global;
use tb_rows::{Groups, RowNames};
use tb_store::Series;
use tb_value::{ComputeCause, InvalidCause, PolarsError, PolarsResult};

// The same of a column that has the aggregate. A value is found in as many steps as the column has chunks.
fn of_one_chunk(
    alloc: Global,
    column: &Series,
    groups: &Groups,
    aggregate: Aggregate,
) -> PolarsResult<Series>
    requires groups { AreGroupsOf (length (values column.now)) groups.now }
    requires taken { IsSome (result_kind aggregate column.now.kind) }
    ensures settles { Settles result (range_cause aggregate groups.now column.now) }
    ensures column { IfOk result (IsAggregated aggregate groups.now column.now) }
{
    let _len = column.len();
    let kept = Kept::of(alloc, aggregate, column, RowNames::From(0), groups)?;
    match kept.column(alloc, column, column.name().copy(alloc)?)? {
        Some(made) => Ok(made),
        None => {
            let name = column.name().copy(alloc)?;
            Err(PolarsError::ComputeError(ComputeCause::SumRange(name)))
        }
    }
}

// The same by way of a column in one chunk.
fn of_chunks(
    alloc: Global,
    column: &Series,
    groups: &Groups,
    aggregate: Aggregate,
) -> PolarsResult<Series>
    requires groups { AreGroupsOf (length (values column.now)) groups.now }
    requires taken { IsSome (result_kind aggregate column.now.kind) }
    ensures settles { Settles result (range_cause aggregate groups.now column.now) }
    ensures column { IfOk result (IsAggregated aggregate groups.now column.now) }
{
    let whole = column.rechunk(alloc)?;
    of_one_chunk(alloc, &whole, groups, aggregate)
}

/// The column of one value for each group, under the column's name. Each row of the column has a group. It takes steps in
/// the number of rows and of groups, and sums are exact whatever the sums on the way are.
///
/// # Errors
///
/// 1 AggType where columns of the type have no such aggregate, 2 SumRange where a sum is outside the range of its type,
/// and OutOfMemory.
pub fn aggregated(
    alloc: Global,
    column: &Series,
    groups: &Groups,
    aggregate: Aggregate,
) -> PolarsResult<Series>
    requires { AreGroupsOf (length (values column.now)) groups.now }
    ensures settles { Settles result (agg_refusal aggregate groups.now column.now) }
    ensures column { IfOk result (IsAggregated aggregate groups.now column.now) }
{
    if !aggregate.takes(column.dtype()) {
        let name = column.name().copy(alloc)?;
        return Err(PolarsError::InvalidOperation(InvalidCause::AggType(name)));
    }
    if column.n_chunks() == 1 {
        return of_one_chunk(alloc, column, groups, aggregate);
    }
    of_chunks(alloc, column, groups, aggregate)
}
