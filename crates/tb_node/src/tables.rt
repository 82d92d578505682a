//! Tables by their names.
ghost use Rattle.std.specs.Prelude.{◌≡◌, IfOk, Some, None, if◌then◌else◌, unwrap_or, OnOk};
ghost use Rattle.std.specs.Option.{option_copied};
ghost use Rattle.tb_value.specs.Promise.Names.{Name, same_name};
ghost use Rattle.tb_node.specs.Promise.Tables.{table_named};
ghost use Rattle.tb_node.specs.Seen.{given_tables};
ghost use Rattle.tb_node.specs.TableMaps.{columns_under, tables_in};

use std::alloc::Global;
use std::collections::BTreeMap;
use tb_frame::DataFrame;
use tb_value::{OutOfMemory, PlSmallStr};

/// A table under a name.
#[derive(Drop)]
pub struct NamedTable {
    pub name: PlSmallStr,
    pub table: DataFrame,
}

/// Tables that are lent, each under a name; of two of one name the first.
#[derive(Drop)]
pub struct TableMap<'t> {
    tables: BTreeMap<&'t str, &'t DataFrame>,
}

impl<'t> TableMap<'t> {
    fn new(alloc: Global) -> TableMap<'t>
        ensures { (n : Name) → columns_under result n ≡ None }
    {
        TableMap {
            tables: BTreeMap::new(alloc),
        }
    }

    // Puts the table under the name, where no other is under it.
    fn insert(&mut self, name: &'t PlSmallStr, table: &'t DataFrame) -> Result<(), OutOfMemory>
        ensures { OnOk result ((n : Name) → columns_under self.new n
            ≡ (if same_name name.now n then Some (unwrap_or (columns_under self.old name.now) table.now) else columns_under self.old n)) }
    {
        let name = name.as_str();
        if self.tables.contains_key(name) {
            return Ok(());
        }
        self.tables.insert(name, table)?;
        Ok(())
    }

    /// The table under the name.
    pub fn get(&self, name: &PlSmallStr) -> Option<&'t DataFrame>
        ensures { option_copied result ≡ columns_under self.now name.now }
    {
        self.tables.get(name.as_str()).copied()
    }

    /// The tables under their names.
    pub fn of(alloc: Global, tables: &'t [NamedTable]) -> Result<TableMap<'t>, OutOfMemory>
        ensures { IfOk result (λ m.
            (n : Name) → tables_in m n ≡ table_named (given_tables tables.now) n) }
    {
        let mut map = TableMap::new(alloc);
        for table in tables {
            map.insert(&table.name, &table.table)?;
        }
        Ok(map)
    }
}
