//! The lines of a table.
ghost use Rattle.std.specs.Prelude.{◌≡◌, ◌<◌, ◌≤◌, ◌++◌, ◌∷◌, [], OnOk, drop, encode_utf8_all, length, take};
ghost use Rattle.std.specs.List.{All};
ghost use Rattle.tb_chunk.specs.Promise.Col.{Col, values};
ghost use Rattle.tb_frame.specs.Promise.Table.{table_of};
ghost use Rattle.tb_layout.specs.Laid.{ended_line, row_bytes};
ghost use Rattle.tb_layout.specs.Promise.Characters.{cut, trimmed_text};
ghost use Rattle.tb_layout.specs.Promise.Lines.{cell_in, dashes_in, name_in, side_by_side};

use crate::cells::push_cell;
use crate::characters::{blanks_at_end, push_blanks, push_repeated};
use crate::column_cells::push_row_cell;
use crate::grid::Grid;
use tb_pieces::PieceColumn;
use tb_value::OutOfMemory;

// Ends the line that begins at this place: takes the blanks at its end, and appends a line feed.
fn end_line(text: &mut Vec<u8>, start: usize) -> Result<(), OutOfMemory>
    requires { start ≤ length text.old.items }
    ensures { OnOk result
        (text.new.items
        ≡ take start text.old.items
        ++ (trimmed_text (drop start text.old.items) ++ 10 ∷ [])) }
{
    let blanks = blanks_at_end(&text[start..]);
    text.truncate(text.len() - blanks);
    text.push(b'\n')?;
    Ok(())
}

fn push_names(text: &mut Vec<u8>, grid: &Grid<'_>) -> Result<(), OutOfMemory>
    ensures { OnOk result
        (text.new.items
        ≡ text.old.items
        ++ encode_utf8_all (cut grid.now.line
        (side_by_side (name_in grid.now.line) (table_of grid.now.columns.now)))) }
{
    let mut room = Some(grid.line);
    for k in 0..grid.columns.len() {
        let name = grid.columns[k].name().as_str();
        room = push_cell(text, room, name, false, grid.widths[k])?;
    }
    Ok(())
}

fn push_dashes(text: &mut Vec<u8>, grid: &Grid<'_>) -> Result<(), OutOfMemory>
    ensures { OnOk result
        (text.new.items
        ≡ text.old.items
        ++ encode_utf8_all (cut grid.now.line
        (side_by_side (dashes_in grid.now.line) (table_of grid.now.columns.now)))) }
{
    let mut room = Some(grid.line);
    for k in 0..grid.columns.len() {
        room = push_repeated(text, room, '-', grid.widths[k])?;
        room = push_blanks(text, room, 2)?;
    }
    Ok(())
}

fn push_cells(
    text: &mut Vec<u8>,
    grid: &Grid<'_>,
    columns: &[PieceColumn<'_>],
    row: usize,
) -> Result<(), OutOfMemory>
    requires columns { columns.now ≡ grid.now.columns.now }
    requires row { All (λ (c : Col). row < length (values c)) columns.now }
    ensures { OnOk result
        (text.new.items
        ≡ text.old.items
        ++ encode_utf8_all (cut grid.now.line
        (side_by_side (cell_in grid.now.line row) (table_of columns.now)))) }
{
    let mut room = Some(grid.line);
    for k in 0..columns.len() {
        room = push_row_cell(text, room, &columns[k], grid.widths[k], row)?;
    }
    Ok(())
}

/// Appends the line of the names, each in its column.
pub(crate) fn push_names_line(text: &mut Vec<u8>, grid: &Grid<'_>) -> Result<(), OutOfMemory>
    ensures { OnOk result
        (text.new.items
        ≡ text.old.items
        ++ encode_utf8_all (ended_line grid.now.line
        (side_by_side (name_in grid.now.line) (table_of grid.now.columns.now)))) }
{
    let start = text.len();
    push_names(text, grid)?;
    end_line(text, start)
}

/// Appends the line of dashes, one for each character that the widest of a column's lines takes.
pub(crate) fn push_dashes_line(text: &mut Vec<u8>, grid: &Grid<'_>) -> Result<(), OutOfMemory>
    ensures { OnOk result
        (text.new.items
        ≡ text.old.items
        ++ encode_utf8_all (ended_line grid.now.line
        (side_by_side (dashes_in grid.now.line) (table_of grid.now.columns.now)))) }
{
    let start = text.len();
    push_dashes(text, grid)?;
    end_line(text, start)
}

/// Appends the line of a row, the values of the grid's columns each in its column.
pub(crate) fn push_row_line(
    text: &mut Vec<u8>,
    grid: &Grid<'_>,
    columns: &[PieceColumn<'_>],
    row: usize,
) -> Result<(), OutOfMemory>
    requires columns { columns.now ≡ grid.now.columns.now }
    requires row { All (λ (c : Col). row < length (values c)) columns.now }
    ensures { OnOk result
        (text.new.items
        ≡ text.old.items ++ row_bytes grid.now.line (table_of columns.now) row) }
{
    let start = text.len();
    push_cells(text, grid, columns, row)?;
    end_line(text, start)
}
