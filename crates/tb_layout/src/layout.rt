//! The text of a table.
ghost use Rattle.std.specs.Prelude.{◌≡◌, ◌++◌, IfOk, OnOk, encode_utf8_all};
ghost use Rattle.tb_frame.specs.Promise.Table.{names_of, table_of};
ghost use Rattle.tb_layout.specs.Laid.{ended, head_text};
ghost use Rattle.tb_layout.specs.Promise.Lines.{layout, note};

use crate::characters::push_whole;
use crate::grid::{Grid, columns_behind, shown_grid};
use crate::lines::{push_dashes_line, push_names_line};
use crate::notes::{cut_columns, note_text};
use crate::pieces::push_rows;
use std::alloc::Global;
use std::thread::Threads;
use tb_frame::DataFrame;
use tb_store::Column;
use tb_text::Text;
use tb_value::OutOfMemory;

// The lines of the names and of the dashes.
fn head_text(alloc: Global, grid: &Grid<'_>) -> Result<Vec<u8>, OutOfMemory>
    ensures { IfOk result (λ v.
        v.items
        ≡ encode_utf8_all (head_text grid.now.line (table_of grid.now.columns.now))) }
{
    let mut text = Vec::new(alloc);
    push_names_line(&mut text, grid)?;
    push_dashes_line(&mut text, grid)?;
    Ok(text)
}

// Appends a line on what became of the columns, if there is one.
fn push_note(
    alloc: Global,
    text: &mut Text,
    what: &str,
    columns: &[Column],
) -> Result<(), OutOfMemory>
    ensures { OnOk result
        (text.new
        ≡ text.old ++ encode_utf8_all (ended (note what.now (names_of (table_of columns.now))))) }
{
    if columns.is_empty() {
        return Ok(());
    }
    let said = note_text(alloc, what, columns)?;
    let mut line = String::new(alloc);
    push_whole(&mut line, said.as_str())?;
    line.push('\n')?;
    text.push(line.into_bytes())
}

/// The text of a table for a terminal that is `width` columns wide: a line of the names, a line of dashes, and a line for each
/// row, each ended by a line feed.
///
/// Columns are two blanks apart. Whole numbers, dates and times stand at the right of their column, all else at the left. A day of
/// the years 0 to 9999 is shown as its date, `YYYY-MM-DD`. A column is as wide as the widest of its name and values. Blanks at the
/// end of a line are left out. The width of a line is the sum of those of its characters, as the crate `unicode_width` tells them
/// one by one.
///
/// The columns are shown that stand whole beside each other in a line of the terminal, from the left. The others are named in a line
/// below the table, as in `(2 columns left out: a, b)`. A first column that is wider than the terminal is shown all the same, each
/// line cut between two characters; those of no width, such as combining ones, stay with the character before them. Then
/// `(1 column cut: a)` stands below the table. These lines may be wider than the terminal.
///
/// Null is shown as `null`, since an empty cell is what the empty text looks like; the text `null` looks the same. Of bytes,
/// lists and structs `..` is shown. Line feeds, tabs and carriage returns in texts are shown as `\n`, `\t` and `\r`, and other
/// control characters as U+FFFD, so that each row is one line and no text can steer the terminal by them.
///
/// # Errors
///
/// `OutOfMemory` where memory is wanting.
pub fn layout_of_table(
    rt: &(impl Threads + Sync),
    alloc: Global,
    table: &DataFrame,
    width: usize,
) -> Result<Text, OutOfMemory>
    ensures { IfOk result (λ t. t ≡ encode_utf8_all (layout width (table_of table.now))) }
{
    let columns = table.get_columns();
    let grid = shown_grid(rt, alloc, columns, width)?;
    let mut text = Text::new(alloc);
    let head = head_text(alloc, &grid)?;
    text.push(head)?;
    push_rows(rt, alloc, &mut text, &grid, table.height())?;
    let cut = cut_columns(&grid);
    push_note(alloc, &mut text, "cut", cut)?;
    let others = columns_behind(columns, grid.columns.len());
    push_note(alloc, &mut text, "left out", others)?;
    Ok(text)
}
