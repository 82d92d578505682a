//! The texts of tables.
ghost use Rattle.std.specs.Prelude.{◌≡◌, IfOk};
ghost use Rattle.tb_frame.specs.Promise.Table.{table_of};
ghost use Rattle.tb_front.specs.Promise.Faults.{Settles, writing_fault};
ghost use Rattle.tb_front.specs.Promise.Due.{Gives};
ghost use Rattle.tb_front.specs.Promise.Texts.{IsOutcome, fault_of, text_in, written};

use crate::fault::FrontFault;
use crate::options::TextForm;
use std::alloc::Global;
use std::thread::Threads;
use tb_csv::{CsvFault, csv_of_table};
use tb_frame::DataFrame;
use tb_json::into_text;
use tb_layout::layout_of_table;
use tb_text::Text;
use tb_value::{OutOfMemory, PolarsError, PolarsResult};

// How many rows a chunk has on average that is written as it is.
const ROWS_OF_A_CHUNK: usize = 16_384;

fn has_many_chunks(table: &DataFrame) -> bool {
    table
        .get_columns()
        .iter()
        .any(|column| column.n_chunks() > 1)
}

// The same table, each column in one chunk, since a row of several chunks is found in as many steps.
fn in_single_chunks(alloc: Global, table: DataFrame) -> Result<DataFrame, OutOfMemory>
    ensures { IfOk result (λ t. table_of t ≡ table_of table) }
{
    if !has_many_chunks(&table) {
        return Ok(table);
    }
    let mut single = table;
    single.as_single_chunk_par(alloc)?;
    Ok(single)
}

// Whether a column has chunks that are short on average.
fn has_short_chunks(table: &DataFrame) -> bool {
    table.get_columns().iter().any(|column| column.n_chunks() > 1 + column.len() / ROWS_OF_A_CHUNK)
}

// The same table. This writer finds the chunk of a row again for each run of rows, so it goes over long chunks as they are.
fn in_long_chunks(alloc: Global, table: DataFrame) -> Result<DataFrame, OutOfMemory>
    ensures { IfOk result (λ t. table_of t ≡ table_of table) }
{
    if has_short_chunks(&table) {
        in_single_chunks(alloc, table)
    } else {
        Ok(table)
    }
}

/// The text of comma-separated values of the table, which is let go.
pub(crate) fn write_csv(
    rt: &(impl Threads + Sync),
    alloc: Global,
    separator: u8,
    table: DataFrame,
) -> Result<Text, FrontFault>
    ensures settles { Settles result (writing_fault TextForm.Csv (table_of table)) }
    ensures text { IfOk result (λ t. t ≡ text_in TextForm.Csv separator (table_of table)) }
{
    let table = in_long_chunks(alloc, table)?;
    match csv_of_table(rt, alloc, &table, separator) {
        Ok(text) => Ok(text),
        Err(CsvFault::OutOfMemory) => Err(FrontFault::OutOfMemory),
        Err(fault) => Err(FrontFault::NoText(fault)),
    }
}

// This writer goes over the chunks itself.
fn write_json(alloc: Global, table: DataFrame) -> Result<Text, FrontFault>
    ensures settles { Settles result (writing_fault TextForm.Json (table_of table)) }
    ensures text { IfOk result (λ t. t ≡ text_in TextForm.Json 0 (table_of table)) }
{
    Ok(into_text(alloc, table)?)
}

fn write_lines(
    rt: &(impl Threads + Sync),
    alloc: Global,
    width: usize,
    table: DataFrame,
) -> Result<Text, FrontFault>
    ensures settles { Settles result (writing_fault (TextForm.Layout width) (table_of table)) }
    ensures text { IfOk result (λ t. t ≡ text_in (TextForm.Layout width) 0 (table_of table)) }
{
    let table = in_single_chunks(alloc, table)?;
    Ok(layout_of_table(rt, alloc, &table, width)?)
}

fn write_table(
    rt: &(impl Threads + Sync),
    alloc: Global,
    form: TextForm,
    separator: u8,
    table: DataFrame,
) -> Result<Text, FrontFault>
    ensures settles { Settles result (writing_fault form (table_of table)) }
    ensures text { IfOk result (λ t. t ≡ text_in form separator (table_of table)) }
{
    match form {
        TextForm::Csv => write_csv(rt, alloc, separator, table),
        TextForm::Json => write_json(alloc, table),
        TextForm::Layout(width) => write_lines(rt, alloc, width, table),
    }
}

/// The text of the table, which is let go.
///
/// # Errors
///
/// `NoText` of a table that has no text in the form, or `OutOfMemory`.
pub fn text_of_table(
    rt: &(impl Threads + Sync),
    alloc: Global,
    form: TextForm,
    separator: u8,
    table: DataFrame,
) -> Result<Text, FrontFault>
    ensures { Gives (λ t. t) result (written form separator (table_of table)) }
{
    write_table(rt, alloc, form, separator, table)
}

/// The fault that an operation's refusal is.
pub fn refused(error: PolarsError) -> FrontFault
    ensures { result ≡ fault_of error }
{
    match error {
        PolarsError::OutOfMemory => FrontFault::OutOfMemory,
        error => FrontFault::Refused(error),
    }
}

/// The text of the table that an operation gave, or why it gave none.
///
/// # Errors
///
/// `Refused`, as the operation refused, `NoText`, or `OutOfMemory`.
pub fn written(
    rt: &(impl Threads + Sync),
    alloc: Global,
    form: TextForm,
    separator: u8,
    outcome: PolarsResult<DataFrame>,
) -> Result<Text, FrontFault>
    ensures { IsOutcome form separator outcome result }
{
    match outcome {
        Ok(table) => write_table(rt, alloc, form, separator, table),
        Err(error) => Err(refused(error)),
    }
}
