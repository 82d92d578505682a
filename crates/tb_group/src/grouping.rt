//! The call by which a table is grouped.
ghost use Rattle.std.specs.Prelude.{◌≡◌, ℕ, ◌<◌, ◌≤◌, IfOk};
ghost use Rattle.tb_value.specs.declared.limits.TheConstants.{MAX_ROWS};
ghost use Rattle.tb_value.specs.Refusals.{Settles};
ghost use Rattle.tb_frame.specs.Promise.Table.{table_of};
ghost use Rattle.tb_group.specs.Promise.Group.{group_table};
ghost use Rattle.tb_group.specs.Promise.Keys.{group_trace};
ghost use Rattle.tb_group.specs.Promise.Refusal.{first_agg_cause, group_refusal, range_cause};
ghost use Rattle.tb_group.specs.Promise.Request.{lent_request, Request};
ghost use Rattle.tb_group.specs.Served.{wanted, AreServed};

use crate::columns::{agg_columns, all_firsts, answer_columns};
use crate::lookup::{AskedColumn, asked_columns, found};
use crate::once::made_once;
use crate::order::{places_in_order, rows_at};
use crate::parts::{Grouped, grouped_parts};
use crate::request::GroupAgg;
use crate::whole::{joined_columns, joined_sources, whole_columns, whole_sources};
use std::alloc::Global;
use std::thread::Threads;
use tb_frame::DataFrame;
use tb_pool::{Exec, Gate};
use tb_store::{Column, Series};
use tb_value::{PlSmallStr, PolarsResult};

// The columns of the answer, where no name and no type is refused: of the aggregates that are made, each that is asked for
// has the one at its seat. Refuses the first that is asked for of which a sum is out of range (SumRange).
fn grouped<G: Gate>(
    rt: &(impl Threads + Sync),
    alloc: Global,
    height: usize,
    by: &[&Series],
    asked: &[AskedColumn<'_>],
    made: &[AskedColumn<'_>],
    seats: &[usize],
    exec: &Exec,
    gate: &G,
) -> PolarsResult<(Vec<Column>, Grouped)>
    requires few { height ≤ MAX_ROWS }
    requires served { (q : Request)
        × AreServed q (wanted height by.now asked.now made.now seats.now) }
    ensures settles { (q : Request)
        → AreServed q (wanted height by.now asked.now made.now seats.now)
        → Settles result (first_agg_cause q (range_cause q)) }
    ensures table { (q : Request) → AreServed q (wanted height by.now asked.now made.now seats.now)
        → IfOk result (λ r. table_of r.0.items ≡ group_table q) }
    ensures traced { (q : Request) → AreServed q (wanted height by.now asked.now made.now seats.now)
        → IfOk result (λ r. r.1 ≡ group_trace exec.now q) }
    ensures let_in { IfOk result (λ _.
        (part : ℕ) → part < exec.now.partitions → G.lets_in gate.now part) }
{
    let (parts, trace) = grouped_parts(rt, alloc, by, made, exec, gate)?;
    let firsts = all_firsts(alloc, &parts)?;
    let places = places_in_order(alloc, height, &firsts)?;
    let answers = agg_columns(alloc, asked, made, seats, &parts, &places)?;
    let rows = rows_at(alloc, &firsts, &places)?;
    let columns = answer_columns(alloc, by, &rows, answers)?;
    Ok((columns, trace))
}

/// The table grouped by these columns: a row for each distinct row of them, in the order in which they stand first, Null the
/// same as Null, and beside these the aggregates of the rows that have it; and into which parts the work fell.
///
/// The rows are scattered by their keys into the partitions of `exec`, always as many as there are, each partition is
/// grouped and aggregated as one part of one phase, and the groups are put in the order of their first rows. An aggregate
/// that is asked for more than once of one column is made once. The gate has let each part in. A row whose key of several
/// columns has 2^32 bytes or more is want of memory.
///
/// # Errors
///
/// The first of these that holds, or `OutOfMemory`:
/// 1. `NoKeys`: no column is named to group by;
/// 2. `ColumnNotFound`: a name is of no column, in `by`, and then of an aggregate;
/// 3. `Duplicate`: a name stands twice in `by`;
/// 4. `KeyKind`: a column of `by` is of type Null, List or Struct;
/// 5. `AggType`: an aggregate doesn't take the type of its column;
/// 6. `Duplicate`: two columns of the answer would have this name;
/// 7. `SumRange`: a sum is outside the range of its type.
pub fn group_by<'a, G: Gate>(
    rt: &(impl Threads + Sync),
    alloc: Global,
    table: &'a DataFrame,
    by: &[PlSmallStr],
    aggs: &'a [GroupAgg],
    exec: &Exec,
    gate: &G,
) -> PolarsResult<(DataFrame, Grouped)>
    ensures settles { Settles result (group_refusal (lent_request table.now by.now aggs.now)) }
    ensures table { IfOk result (λ r.
        table_of r.0 ≡ group_table (lent_request table.now by.now aggs.now)) }
    ensures traced { IfOk result (λ r.
        r.1 ≡ group_trace exec.now (lent_request table.now by.now aggs.now)) }
    ensures let_in { IfOk result (λ _.
        (part : ℕ) → part < exec.now.partitions → G.lets_in gate.now part) }
{
    let columns = found(alloc, table, by, aggs)?;
    let asked = asked_columns(alloc, aggs, &columns.sources)?;
    let once = made_once(alloc, &asked)?;
    let joined = joined_columns(alloc, &columns.by)?;
    let joined_sources = joined_sources(alloc, &once.made)?;
    let keys = whole_columns(alloc, &columns.by, &joined)?;
    let made = whole_sources(alloc, &once.made, &joined_sources)?;
    let seats = once.seats.as_slice();
    let height = table.height();
    let (answer, trace) = grouped(rt, alloc, height, &keys, &asked, &made, seats, exec, gate)?;
    Ok((DataFrame::new(alloc, answer)?, trace))
}
