//! Columns by names.
ghost use Rattle.std.specs.Prelude.{◌≡◌, ◌∷◌, [], ◌++◌, IfOk, None, OnErr, OnOk, Some, if◌then◌else◌, is_none, unwrap_or};
ghost use Rattle.std.specs.List.{find};
ghost use Rattle.std.specs.Option.{option_copied};
ghost use Rattle.tb_value.specs.Promise.Names.{Name, same_name};
ghost use Rattle.tb_value.specs.Promise.Refusals.{when};
ghost use Rattle.tb_value.specs.Refusals.{Settles};
ghost use Rattle.tb_value.specs.declared.error.PolarsError.TheVariants.{ColumnNotFound};
ghost use Rattle.tb_chunk.specs.Promise.Col.{Col};
ghost use Rattle.tb_chunk.specs.Lent.{lent_columns};
ghost use Rattle.tb_frame.specs.Promise.Frame.{selected_columns};
ghost use Rattle.tb_frame.specs.NamedColumns.{column_by};
ghost use Rattle.tb_frame.specs.Promise.Refusal.{unknown_key};
ghost use Rattle.tb_frame.specs.Promise.Table.{table_of};

use std::alloc::Global;
use std::collections::BTreeMap;
use tb_store::{Column, Series};
use tb_value::{OutOfMemory, PlSmallStr, PolarsError, PolarsResult};

/// Columns that are lent, each under a name, for finding many of them.
#[derive(Drop)]
pub struct NamedColumns<'a> {
    columns: BTreeMap<&'a str, &'a Series>,
}

impl<'a> NamedColumns<'a> {
    /// No columns.
    pub fn new(alloc: Global) -> NamedColumns<'a>
        ensures { (n : Name) → column_by result n ≡ None }
    {
        NamedColumns {
            columns: BTreeMap::new(alloc),
        }
    }

    /// Puts the column under the name, where no other is under it. After a refusal the columns are as they were.
    pub fn insert(&mut self, name: &'a PlSmallStr, column: &'a Series) -> Result<(), OutOfMemory>
        ensures puts { OnOk result ((n : Name) → column_by self.new n
            ≡ (if same_name name.now n then Some (unwrap_or (column_by self.old name.now) column.now) else column_by self.old n)) }
        ensures err { OnErr result ((n : Name) → column_by self.new n ≡ column_by self.old n) }
    {
        let name = name.as_str();
        if self.columns.contains_key(name) {
            return Ok(());
        }
        self.columns.insert(name, column)?;
        Ok(())
    }

    /// The column under the name.
    pub fn get(&self, name: &PlSmallStr) -> Option<&'a Series>
        ensures { option_copied result ≡ column_by self.now name.now }
    {
        self.columns.get(name.as_str()).copied()
    }
}

// The columns under their names; of two of one name the first.
fn columns_by_name<'a>(
    alloc: Global,
    columns: &'a [Column],
) -> Result<NamedColumns<'a>, OutOfMemory>
    ensures { IfOk result (λ m.
        (n : Name) → column_by m n ≡ find (λ (c : Col). same_name c.name n) columns.now) }
{
    let mut by_name = NamedColumns::new(alloc);
    for column in columns {
        by_name.insert(column.name(), column.as_materialized_series())?;
    }
    Ok(by_name)
}

// The column under this name. Refuses a name under which there is none (ColumnNotFound).
fn known_column<'a>(
    alloc: Global,
    by_name: &NamedColumns<'a>,
    name: &PlSmallStr,
) -> PolarsResult<&'a Series>
    ensures found { IfOk result (λ c. column_by by_name.now name.now ≡ Some c.now) }
    ensures settles { Settles result
        (when (is_none (column_by by_name.now name.now)) (ColumnNotFound name.now)) }
{
    match by_name.get(name) {
        Some(column) => Ok(column),
        None => Err(PolarsError::ColumnNotFound(name.copy(alloc)?)),
    }
}

fn push_lent<'a>(lent: &mut Vec<&'a Series>, column: &'a Series) -> Result<(), OutOfMemory>
    ensures { OnOk result
        (lent_columns lent.new.items ≡ lent_columns lent.old.items ++ column.now ∷ []) }
{
    lent.push(column)?;
    Ok(())
}

/// The columns of these names, lent, in the order of the names. Refuses the first name that no column has
/// (ColumnNotFound).
pub fn lend_columns<'a>(
    alloc: Global,
    columns: &'a [Column],
    names: &[PlSmallStr],
) -> PolarsResult<Vec<&'a Series>>
    ensures settles { Settles result (unknown_key (table_of columns.now) names.now) }
    ensures columns { IfOk result (λ v.
        lent_columns v.items ≡ selected_columns names.now columns.now) }
{
    let by_name = columns_by_name(alloc, columns)?;
    let mut lent = Vec::new(alloc);
    for name in names {
        let column = known_column(alloc, &by_name, name)?;
        push_lent(&mut lent, column)?;
    }
    Ok(lent)
}
