//! A request is done: its table is grouped.
ghost use Rattle.std.specs.Prelude.{◌≡◌, IfOk};
ghost use Rattle.tb_value.specs.Refusals.{Settles};
ghost use Rattle.tb_frame.specs.Promise.Table.{table_of};
ghost use Rattle.tb_group.specs.Promise.Group.{group_table};
ghost use Rattle.tb_group.specs.Promise.Refusal.{group_refusal};
ghost use Rattle.tb_group_request.specs.Promise.Answers.{asked_groups, trace_told};
ghost use Rattle.tb_group_request.specs.Promise.Reading.{group_view};

use crate::request::GroupRequest;
use std::alloc::Global;
use std::thread::Threads;
use tb_frame::DataFrame;
use tb_group::{Grouped, group_by};
use tb_pool::OpenGate;
use tb_value::PolarsResult;

/// A table that was grouped.
#[derive(Drop)]
pub struct GroupedTable {
    pub table: DataFrame,
    /// Into which parts the work fell, where that was asked.
    pub trace: Option<Grouped>,
}

/// Groups the table of a request, which is let go.
///
/// # Errors
///
/// Those of `group_by`.
pub fn grouped(
    rt: &(impl Threads + Sync),
    alloc: Global,
    request: GroupRequest,
) -> PolarsResult<GroupedTable>
    ensures settles { Settles result (group_refusal (asked_groups (group_view request))) }
    ensures answer { IfOk result (λ g.
        (table_of g.table ≡ group_table (asked_groups (group_view request)))
        × (g.trace ≡ trace_told (group_view request))) }
{
    let GroupRequest {
        table,
        by,
        aggs,
        exec,
        trace,
    } = request;
    let (table, parts) = group_by(rt, alloc, &table, &by, &aggs, &exec, &OpenGate)?;
    Ok(GroupedTable {
        table,
        trace: trace.then_some(parts),
    })
}
