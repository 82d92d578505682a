//! Tables whose names are repeated.
ghost use Rattle.std.specs.Prelude.{◌≡◌, IfOk, map};
ghost use Rattle.tb_value.specs.Promise.Refusals.{SettlesBut};
ghost use Rattle.tb_node.specs.declared.tables.NamedTable as rust;
ghost use Rattle.tb_node.specs.Seen.{given_tables};
ghost use Rattle.tb_plan.specs.declared.faults.PlanFault.TheVariants as fault;
ghost use Rattle.tb_plan.specs.Promise.Outcome.{repeated_table};

use crate::faults::PlanFault;
use std::alloc::Global;
use tb_frame::check_distinct;
use tb_node::NamedTable;
use tb_value::{OutOfMemory, PlSmallStr, PolarsError};

fn table_names(alloc: Global, tables: &[NamedTable]) -> Result<Vec<&PlSmallStr>, OutOfMemory>
    ensures { IfOk result (λ v.
        map (λ n. n.now) v.items ≡ map (λ (t : rust.NamedTable). t.name) tables.now) }
{
    let mut names = Vec::with_capacity(alloc, tables.len())?;
    for table in tables {
        names.push(&table.name)?;
    }
    Ok(names)
}

/// Refuses the first repeated name (RepeatedTable).
pub(crate) fn check_table_names(alloc: Global, tables: &[NamedTable]) -> Result<(), PlanFault>
    ensures { SettlesBut fault.OutOfMemory result (repeated_table (given_tables tables.now)) }
{
    match check_distinct(alloc, &table_names(alloc, tables)?) {
        Ok(()) => Ok(()),
        Err(PolarsError::Duplicate(name)) => Err(PlanFault::RepeatedTable(name)),
        Err(_) => Err(PlanFault::OutOfMemory),
    }
}
