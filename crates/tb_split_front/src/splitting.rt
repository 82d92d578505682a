//! Tables in parts over texts.
ghost use Rattle.std.specs.Prelude.{◌≡◌, ◌<◌, IfOk, length, map};
ghost use Rattle.tb_value.specs.Promise.Pairs.{row_numbers};
ghost use Rattle.tb_value.specs.Promise.Refusals.{first_cause};
ghost use Rattle.tb_value.specs.Refusals as causes;
ghost use Rattle.tb_frame.specs.Promise.Table.{table_of};
ghost use Rattle.tb_csv.specs.Promise.Texts.{csv_text};
ghost use Rattle.tb_front.specs.Promise.Due.{Gives, each_from};
ghost use Rattle.tb_front.specs.Promise.Faults.{Settles};
ghost use Rattle.tb_front.specs.Promise.Texts.{table_in};
ghost use Rattle.tb_split_front.specs.Promise.Parts.{part_table, part_text, parting_refusal, split_fault, split_faults};
ghost use Rattle.tb_split_front.specs.Texts.{written_text};

use crate::call::SplitCall;
use crate::numbering::numbered;
use std::alloc::Global;
use std::thread::Threads;
use tb_csv::CsvOptions;
use tb_frame::DataFrame;
use tb_front::{FrontFault, TextForm, read_table, refused, text_of_table};
use tb_split::split;
use tb_text::Text;
use tb_value::PolarsResult;

// The parts of the table, which is let go.
fn parts_of(alloc: Global, table: DataFrame, call: &SplitCall) -> PolarsResult<Vec<DataFrame>>
    ensures settles { causes.Settles result (parting_refusal call.now (table_of table)) }
    ensures tables { IfOk result (λ ts.
        map table_of ts.items
        ≡ map (part_table call.now (table_of table)) (row_numbers call.now.parts)) }
    ensures some { IfOk result (λ ts. 0 < length ts.items) }
{
    let table = numbered(alloc, &call.number, table)?;
    split(alloc, &table, &call.on, call.parts.get())
}

// The texts of the tables, each of which is let go once it is written.
fn texts_of(
    rt: &(impl Threads + Sync),
    alloc: Global,
    separator: u8,
    tables: Vec<DataFrame>,
) -> Result<Vec<Text>, FrontFault>
    ensures { Gives (λ v. v.items) result
        (each_from (written_text separator) 0 (map table_of tables.items)) }
{
    let mut texts = Vec::with_capacity(alloc, tables.len())?;
    for table in tables {
        match text_of_table(rt, alloc, TextForm::Csv, separator, table) {
            Ok(text) => texts.push(text)?,
            Err(fault) => return Err(fault),
        }
    }
    Ok(texts)
}

fn part_texts(
    rt: &(impl Threads + Sync),
    alloc: Global,
    table: DataFrame,
    call: &SplitCall,
    separator: u8,
) -> Result<Vec<Text>, FrontFault>
    ensures settles { Settles result (first_cause (split_faults call.now (table_of table))) }
    ensures texts { IfOk result (λ v. v.items
        ≡ map (part_text separator call.now (table_of table)) (row_numbers call.now.parts)) }
{
    match parts_of(alloc, table, call) {
        Ok(tables) => texts_of(rt, alloc, separator, tables),
        Err(error) => Err(refused(error)),
    }
}

/// Splits the table that a text of comma-separated values is, and answers the texts of its parts in their order: rows with equal
/// keys are in one part, of whichever texts with keys of the same types they are, and rows with a Null key are in part 0. Where a
/// name is given for them, the numbers of the rows stand in a column before the others, counted from 0. In a part rows keep their
/// order, and each part has all columns. The text is let go once it is read, and the table of a part once its text is made.
///
/// # Errors
///
/// The first of these that holds, or `OutOfMemory`: 1 `NoTable`, as `records_of_csv` refuses the text, 2 `UnknownType` of a name that
/// no column has, 3 `NoTable`, where a field isn't of the type of its column, 4 `Refused` with `Duplicate`, where a column has the name
/// that is given for the numbers, 5 `Refused`, as `split` refuses the table with its numbers, 6 `NoText`.
pub fn split_text(
    rt: &(impl Threads + Sync),
    alloc: Global,
    text: Vec<u8>,
    call: &SplitCall,
    options: &CsvOptions,
) -> Result<Vec<Text>, FrontFault>
    ensures settles { Settles result (split_fault options.now call.now text.items) }
    ensures texts { IfOk result (λ v. v.items
        ≡ map (part_text options.now.separator call.now (table_in options.now text.items))
        (row_numbers call.now.parts)) }
{
    let table = read_table(rt, alloc, options, text)?;
    part_texts(rt, alloc, table, call, options.separator)
}
