//! The tables of a request, under their names.
ghost use Rattle.std.specs.Prelude.{◌≡◌, map, IfOk};
ghost use Rattle.std.specs.List.{zip};
ghost use Rattle.tb_request.specs.Columns.{relaid_column};
ghost use Rattle.tb_request.specs.Lent.{written_views};
ghost use Rattle.tb_plan_request.specs.Lent.{table_view, written_table};
ghost use Rattle.tb_plan_request.specs.Promise.Reading.{table_columns, table_names};

use crate::members::WrittenTable;
use std::alloc::Global;
use tb_frame::DataFrame;
use tb_node::NamedTable;
use tb_request::WrittenColumn;
use tb_value::{OutOfMemory, PlSmallStr};

/// The names of tables, and beside them the tables' columns.
#[derive(Drop)]
pub(crate) struct NamedColumns {
    pub names: Vec<PlSmallStr>,
    pub columns: Vec<Vec<WrittenColumn>>,
}

/// The columns of tables, with the names of these beside them.
pub(crate) fn named_columns(
    alloc: Global,
    written: Vec<WrittenTable>,
) -> Result<NamedColumns, OutOfMemory>
    ensures names { IfOk result (λ n.
        n.names.items ≡ table_names (map written_table written.items)) }
    ensures columns { IfOk result (λ n.
        map written_views n.columns.items ≡ table_columns (map written_table written.items)) }
{
    let mut names = Vec::with_capacity(alloc, written.len())?;
    let mut columns = Vec::with_capacity(alloc, written.len())?;
    for table in written {
        names.push(table.name)?;
        columns.push(table.columns)?;
    }
    Ok(NamedColumns { names, columns })
}

/// The tables under their names.
pub(crate) fn named_tables(
    alloc: Global,
    names: Vec<PlSmallStr>,
    tables: Vec<DataFrame>,
) -> Result<Vec<NamedTable>, OutOfMemory>
    ensures { IfOk result (λ v.
        map table_view v.items ≡ zip names.items (map (map relaid_column) tables.items)) }
{
    let mut named = Vec::with_capacity(alloc, names.len())?;
    for (name, table) in names.into_iter().zip(tables) {
        named.push(NamedTable { name, table })?;
    }
    Ok(named)
}
