//! Which groupings would compare decimal numbers by their bytes.
ghost use Rattle.std.specs.Prelude.{◌≡◌, ◌&&◌, Some, IfOk};
ghost use Rattle.tb_value.specs.Promise.Names.{Name};
ghost use Rattle.tb_value.specs.Promise.Refusals.{first_cause};
ghost use Rattle.tb_frame.specs.NameSets.{has_name};
ghost use Rattle.tb_frame.specs.Promise.Naming.{is_among};
ghost use Rattle.tb_frame.specs.Promise.Table.{table_of};
ghost use Rattle.tb_front.specs.Promise.Asked.{compares, first_decimals};
ghost use Rattle.tb_front.specs.Promise.Faults.{Settles};
ghost use Rattle.tb_group_front.specs.Promise.Grouped.{compared_names, decimal_faults};

use crate::call::GroupCall;
use std::alloc::Global;
use tb_agg::Aggregate;
use tb_csv::TypeOf;
use tb_frame::{DataFrame, NameSet, name_set};
use tb_front::{Comparison, FrontFault, check_undecimal};
use tb_group::GroupAgg;
use tb_value::OutOfMemory;

fn compares(agg: &Aggregate) -> bool
    ensures { result ≡ compares (Some agg.now) }
{
    matches!(agg, Aggregate::Min | Aggregate::Max)
}

// The names of the columns of whose values the least or the greatest is asked.
fn compared_names<'a>(alloc: Global, aggs: &'a [GroupAgg]) -> Result<NameSet<'a>, OutOfMemory>
    ensures { IfOk result (λ set.
        (n : Name) → has_name set n ≡ is_among (compared_names aggs.now) n) }
{
    let mut names = NameSet::new(alloc);
    for asked in aggs {
        if !compares(&asked.agg) {
            continue;
        }
        names.insert(&asked.column)?;
    }
    Ok(names)
}

// Refuses the first column of decimal numbers of which a least or greatest value is asked.
fn check_extremes(
    alloc: Global,
    types: &[TypeOf],
    aggs: &[GroupAgg],
    table: &DataFrame,
) -> Result<(), FrontFault>
    ensures { Settles result
        (first_decimals types.now Comparison.LeastOrGreatest
        (is_among (compared_names aggs.now)) (table_of table.now)) }
{
    let names = compared_names(alloc, aggs)?;
    check_undecimal(alloc, types, Comparison::LeastOrGreatest, &names, table)
}

// Refuses the first column of decimal numbers by which groups would be put in order.
fn check_order(
    alloc: Global,
    types: &[TypeOf],
    call: &GroupCall,
    table: &DataFrame,
) -> Result<(), FrontFault>
    ensures { Settles result
        (first_decimals types.now Comparison.Rows
        (λ n. call.now.sorts && is_among call.now.by.items n) (table_of table.now)) }
{
    if !call.sorts {
        return Ok(());
    }
    let names = name_set(alloc, &call.by)?;
    check_undecimal(alloc, types, Comparison::Rows, &names, table)
}

/// Refuses a grouping that would compare decimal numbers by their bytes.
pub(crate) fn check_decimals(
    alloc: Global,
    types: &[TypeOf],
    call: &GroupCall,
    table: &DataFrame,
) -> Result<(), FrontFault>
    ensures { Settles result
        (first_cause (decimal_faults types.now call.now (table_of table.now))) }
{
    check_extremes(alloc, types, &call.aggs, table)?;
    check_order(alloc, types, call, table)
}
