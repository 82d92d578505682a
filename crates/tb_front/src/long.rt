//! Long tables written some columns at a time, so that none stands whole.
ghost use Rattle.std.specs.Prelude.{◌≡◌, ◌++◌, ◌<◌, IfOk, OnOk, length};
ghost use Rattle.tb_value.specs.Promise.Refusals.{first_cause};
ghost use Rattle.tb_frame.specs.Promise.Table.{table_of};
ghost use Rattle.tb_csv.specs.Promise.Texts.{body_text, csv_text};
ghost use Rattle.tb_unpivot.specs.Blocks.{block_table};
ghost use Rattle.tb_unpivot.specs.Promise.Unpivot.{unpivot_table};
ghost use Rattle.tb_calls.specs.Promise.Asked.{long_of};
ghost use Rattle.tb_front.specs.Promise.Asked.{unpivot_faults};
ghost use Rattle.tb_front.specs.Promise.Faults.{Settles, writing_fault};
ghost use Rattle.tb_front.specs.Promise.Texts.{text_in};

use crate::fault::FrontFault;
use crate::options::TextForm;
use crate::writing::{refused, write_csv};
use std::alloc::Global;
use std::thread::Threads;
use tb_calls::UnpivotArgsIR;
use tb_csv::push_rows;
use tb_frame::DataFrame;
use tb_text::Text;
use tb_unpivot::{LongBlocks, long_blocks};
use tb_value::OutOfMemory;

// How many rows are made at a time, unless one column alone makes more.
const ROWS_OF_A_BLOCK: usize = 1 << 18;

// How many columns, each of so many rows, are made long at a time.
fn columns_of_a_block(rows: usize) -> usize
    ensures { 0 < result }
{
    (ROWS_OF_A_BLOCK / rows.max(1)).max(1)
}

// Appends the rows of the long table.
fn push_blocks(
    rt: &(impl Threads + Sync),
    alloc: Global,
    text: &mut Text,
    blocks: &LongBlocks<'_>,
    separator: u8,
) -> Result<(), OutOfMemory>
    ensures { OnOk result (text.new
        ≡ text.old ++ body_text separator (block_table blocks.now 0 (length blocks.now.on))) }
{
    let many = blocks.len();
    let width = columns_of_a_block(blocks.rows());
    let mut first = 0;
    while first < many {
        let last = first + width.min(many - first);
        let block = blocks.block(alloc, first, last)?;
        push_rows(rt, alloc, text, &block, separator)?;
        first = last;
    }
    Ok(())
}

// The text of the long table. Its names, which don't depend on rows, are those of the long table of no column.
fn text_of_blocks(
    rt: &(impl Threads + Sync),
    alloc: Global,
    blocks: &LongBlocks<'_>,
    separator: u8,
) -> Result<Text, FrontFault>
    ensures settles { Settles result
        (writing_fault TextForm.Csv (block_table blocks.now 0 (length blocks.now.on))) }
    ensures text { IfOk result (λ t. t
        ≡ csv_text separator (block_table blocks.now 0 (length blocks.now.on))) }
{
    let mut text = write_csv(rt, alloc, separator, blocks.block(alloc, 0, 0)?)?;
    push_blocks(rt, alloc, &mut text, blocks, separator)?;
    Ok(text)
}

/// The text of comma-separated values of the table made long.
///
/// # Errors
///
/// `Refused`, as `unpivot2` refuses, `NoText`, or `OutOfMemory`.
pub(crate) fn long_csv(
    rt: &(impl Threads + Sync),
    alloc: Global,
    table: &DataFrame,
    call: UnpivotArgsIR,
    separator: u8,
) -> Result<Text, FrontFault>
    ensures settles { Settles result
        (first_cause (unpivot_faults TextForm.Csv call (table_of table.now))) }
    ensures text { IfOk result (λ t. t
        ≡ text_in TextForm.Csv separator (unpivot_table (long_of call (table_of table.now)))) }
{
    match long_blocks(alloc, table, call) {
        Ok(blocks) => text_of_blocks(rt, alloc, &blocks, separator),
        Err(error) => Err(refused(error)),
    }
}
