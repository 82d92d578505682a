//! The rows of a table, written in pieces side by side.
ghost use Rattle.std.specs.Prelude.{◌≡◌, ◌++◌, ◌-◌, ◌≤◌, length, IfOk, OnOk};
ghost use Rattle.std.specs.List.{All};
ghost use Rattle.tb_chunk.specs.Promise.Col.{Col, values};
ghost use Rattle.tb_frame.specs.Promise.Table.{table_of};
ghost use Rattle.tb_csv.specs.Promise.Texts.{body_text};
ghost use Rattle.tb_pieces.specs.Rows.{rows_bytes};
ghost use Rattle.tb_csv.specs.Texts.{row_text};

use crate::text::rows_text;
use std::alloc::Global;
use std::thread::Threads;
use tb_frame::DataFrame;
use tb_pieces::push_row_pieces;
use tb_text::Text;
use tb_value::OutOfMemory;

/// Appends the records of the rows of the table, each ended by a line feed, and no names. A value without a text form is written as
/// Null is.
///
/// # Errors
///
/// `OutOfMemory`. Nothing is said then of what the text holds.
pub fn push_rows(
    rt: &(impl Threads + Sync),
    alloc: Global,
    text: &mut Text,
    table: &DataFrame,
    separator: u8,
) -> Result<(), OutOfMemory>
    ensures { OnOk result (text.new ≡ text.old ++ body_text separator (table_of table.now)) }
{
    let columns = table.get_columns();
    push_row_pieces(
        rt,
        alloc,
        text,
        table.height(),
        |start: usize, end: usize| -> Result<Vec<u8>, OutOfMemory>
            requires { All (λ (c : Col). end ≤ length (values c)) columns.now }
            ensures { IfOk result (λ v. v.items
                ≡ rows_bytes (row_text separator (table_of columns.entry.now))
                start (end - start)) }
        { rows_text(alloc, separator, columns, start, end) },
    )
}
