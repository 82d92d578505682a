//! The tables that texts under names are.
ghost use Rattle.std.specs.Prelude.{◌≡◌, ◌++◌, [], IfOk, OnOk};
ghost use Rattle.tb_frame.specs.Promise.Table.{names_of, table_of};
ghost use Rattle.tb_node.specs.Seen.{given_tables};
ghost use Rattle.tb_plan_front.specs.Plans.{given_texts};
ghost use Rattle.tb_front.specs.Promise.Due.{each_from, Gives};
ghost use Rattle.tb_front.specs.Promise.Faults.{Settles, unknown_type};
ghost use Rattle.tb_plan_front.specs.Promise.Plans.{named_table, names_in, tables_of};

use std::alloc::Global;
use std::thread::Threads;
use tb_csv::{CsvOptions, TypeOf};
use tb_frame::DataFrame;
use tb_front::{FrontFault, Place, check_types, read_at};
use tb_node::NamedTable;
use tb_value::{OutOfMemory, PlSmallStr};

/// A text of comma-separated values under the name that a plan has for its table.
#[derive(Drop)]
pub struct NamedText {
    pub name: PlSmallStr,
    pub text: Vec<u8>,
}

// The tables of the texts, each of which is let go once it is read.
fn tables_from(
    rt: &(impl Threads + Sync),
    alloc: Global,
    options: &CsvOptions,
    texts: Vec<NamedText>,
) -> Result<Vec<NamedTable>, FrontFault>
    ensures { Gives (λ v. given_tables v.items) result
        (each_from (named_table options.now) 0 (given_texts texts.items)) }
{
    let mut tables = Vec::with_capacity(alloc, texts.len())?;
    for (number, given) in texts.into_iter().enumerate() {
        let NamedText { name, text } = given;
        match read_at(rt, alloc, options, Place::Named(number), text) {
            Ok(table) => tables.push(NamedTable { name, table })?,
            Err(fault) => return Err(fault),
        }
    }
    Ok(tables)
}

fn push_names(
    alloc: Global,
    table: &DataFrame,
    names: &mut Vec<PlSmallStr>,
) -> Result<(), OutOfMemory>
    ensures { OnOk result (names.new.items ≡ names.old.items ++ names_of (table_of table.now)) }
{
    for column in table.get_columns() {
        names.push(column.name().copy(alloc)?)?;
    }
    Ok(())
}

// The names of all columns, table by table.
fn names_in(alloc: Global, tables: &[NamedTable]) -> Result<Vec<PlSmallStr>, OutOfMemory>
    ensures { IfOk result (λ v. v.items ≡ names_in (given_tables tables.now)) }
{
    let mut names = Vec::new(alloc);
    for table in tables {
        push_names(alloc, &table.table, &mut names)?;
    }
    Ok(names)
}

// Refuses the first type of a name that no column of any table has.
fn check_names(alloc: Global, types: &[TypeOf], tables: &[NamedTable]) -> Result<(), FrontFault>
    ensures { Settles result (unknown_type types.now (names_in (given_tables tables.now)) []) }
{
    let names = names_in(alloc, tables)?;
    check_types(alloc, types, &names, &[])
}

/// The tables that the texts are, under their names.
pub(crate) fn tables_of(
    rt: &(impl Threads + Sync),
    alloc: Global,
    options: &CsvOptions,
    texts: Vec<NamedText>,
) -> Result<Vec<NamedTable>, FrontFault>
    ensures { Gives (λ v. given_tables v.items) result
        (tables_of options.now (given_texts texts.items)) }
{
    match tables_from(rt, alloc, options, texts) {
        Ok(tables) => match check_names(alloc, &options.types, &tables) {
            Ok(()) => Ok(tables),
            Err(fault) => Err(fault),
        },
        Err(fault) => Err(fault),
    }
}
