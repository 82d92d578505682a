//! Which pivots would compare decimal numbers by their bytes.
ghost use Rattle.std.specs.Prelude.{◌≡◌, ◌&&◌, [], unwrap_or};
ghost use Rattle.tb_value.specs.Promise.Names.{Name};
ghost use Rattle.tb_value.specs.Promise.Refusals.{first_cause};
ghost use Rattle.tb_frame.specs.NameSets.{has_name};
ghost use Rattle.tb_frame.specs.Promise.Naming.{is_among};
ghost use Rattle.tb_frame.specs.Promise.Table.{table_of};
ghost use Rattle.tb_calls.specs.Promise.Asked.{names_in};
ghost use Rattle.tb_front.specs.Promise.Asked.{compares, decimal_faults, first_decimals, is_value, makes_cells};
ghost use Rattle.tb_front.specs.Promise.Faults.{Settles};

use crate::decimals::{check_undecimal, is_told_decimal};
use crate::fault::{Comparison, FrontFault};
use std::alloc::Global;
use tb_agg::Aggregate;
use tb_calls::PivotCall;
use tb_csv::TypeOf;
use tb_frame::{DataFrame, NameSet, name_set};
use tb_value::PlSmallStr;

fn compares(agg: &Option<Aggregate>) -> bool
    ensures { result ≡ compares agg.now }
{
    matches!(agg, Some(Aggregate::Min | Aggregate::Max))
}

fn names_or_none(names: &Option<Vec<PlSmallStr>>) -> &[PlSmallStr]
    ensures { result.now ≡ unwrap_or (names_in names.now) [] }
{
    match names {
        Some(names) => names.as_slice(),
        None => &[],
    }
}

// Whether cells are made of the values of the column of this name.
fn makes_cells(
    call: &PivotCall,
    on: &NameSet<'_>,
    index: &NameSet<'_>,
    values: &NameSet<'_>,
    name: &PlSmallStr,
) -> bool
    requires on { (n : Name) → has_name on.now n ≡ is_among call.now.on.items n }
    requires index { (n : Name)
        → has_name index.now n ≡ is_among (unwrap_or (names_in call.now.index) []) n }
    requires values { (n : Name)
        → has_name values.now n ≡ is_among (unwrap_or (names_in call.now.values) []) n }
    ensures { result ≡ makes_cells call.now name.now }
{
    match call.values {
        Some(_) => values.contains(name),
        None => !(on.contains(name) || index.contains(name)),
    }
}

// Refuses the first column of decimal numbers of which a least or greatest value is asked.
fn check_cells(
    alloc: Global,
    types: &[TypeOf],
    call: &PivotCall,
    table: &DataFrame,
) -> Result<(), FrontFault>
    ensures { Settles result
        (first_decimals types.now Comparison.LeastOrGreatest
        (λ n. compares call.now.agg && makes_cells call.now n) (table_of table.now)) }
{
    if !compares(&call.agg) {
        return Ok(());
    }
    let on = name_set(alloc, &call.on)?;
    let index = name_set(alloc, names_or_none(&call.index))?;
    let values = name_set(alloc, names_or_none(&call.values))?;
    for column in table.get_columns() {
        if makes_cells(call, &on, &index, &values, column.name())
            && is_told_decimal(types, column)
        {
            let name = column.name().copy(alloc)?;
            return Err(FrontFault::Decimals(Comparison::LeastOrGreatest, name));
        }
    }
    Ok(())
}

// Refuses the first column of decimal numbers whose values name columns that are sorted.
fn check_headers(
    alloc: Global,
    types: &[TypeOf],
    call: &PivotCall,
    table: &DataFrame,
) -> Result<(), FrontFault>
    ensures { Settles result
        (first_decimals types.now Comparison.Order
        (λ n. call.now.sort_columns && is_among call.now.on.items n) (table_of table.now)) }
{
    if !call.sort_columns {
        return Ok(());
    }
    let on = name_set(alloc, &call.on)?;
    check_undecimal(alloc, types, Comparison::Order, &on, table)
}

/// Refuses a pivot that would compare decimal numbers by their bytes.
pub(crate) fn check_decimals(
    alloc: Global,
    types: &[TypeOf],
    call: &PivotCall,
    table: &DataFrame,
) -> Result<(), FrontFault>
    ensures { Settles result
        (first_cause (decimal_faults types.now call.now (table_of table.now))) }
{
    check_cells(alloc, types, call, table)?;
    check_headers(alloc, types, call, table)
}
