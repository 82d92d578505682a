//! The lines of rows, written in pieces side by side.
ghost use Rattle.std.specs.Prelude.{◌≡◌, ◌++◌, ◌-◌, ◌≤◌, length, IfOk, OnOk};
ghost use Rattle.std.specs.List.{All, flat_map};
ghost use Rattle.tb_value.specs.Promise.Pairs.{row_numbers};
ghost use Rattle.tb_chunk.specs.Promise.Col.{Col, values};
ghost use Rattle.tb_frame.specs.Promise.Table.{table_of};
ghost use Rattle.tb_pieces.specs.Rows.{rows_bytes};
ghost use Rattle.tb_layout.specs.Laid.{row_bytes};

use crate::grid::Grid;
use crate::lines::push_row_line;
use std::alloc::Global;
use std::thread::Threads;
use tb_pieces::{piece_columns, push_row_pieces};
use tb_text::Text;
use tb_value::OutOfMemory;

// The lines of the rows from one number up to another.
fn rows_text(
    alloc: Global,
    grid: &Grid<'_>,
    start: usize,
    end: usize,
) -> Result<Vec<u8>, OutOfMemory>
    requires order { start ≤ end }
    requires within { All (λ (c : Col). end ≤ length (values c)) grid.now.columns.now }
    ensures { IfOk result (λ v. v.items
        ≡ rows_bytes (row_bytes grid.now.line (table_of grid.now.columns.now))
        start (end - start)) }
{
    let columns = piece_columns(alloc, grid.columns, start)?;
    let mut text = Vec::new(alloc);
    for row in start..end {
        push_row_line(&mut text, grid, &columns, row)?;
    }
    Ok(text)
}

/// Appends a line for each row of the columns, which have so many.
pub(crate) fn push_rows(
    rt: &(impl Threads + Sync),
    alloc: Global,
    text: &mut Text,
    grid: &Grid<'_>,
    height: usize,
) -> Result<(), OutOfMemory>
    requires { All (λ (c : Col). length (values c) ≡ height) grid.now.columns.now }
    ensures { OnOk result
        (text.new
        ≡ text.old
        ++ flat_map (row_bytes grid.now.line (table_of grid.now.columns.now))
        (row_numbers height)) }
{
    push_row_pieces(
        rt,
        alloc,
        text,
        height,
        |start: usize, end: usize| -> Result<Vec<u8>, OutOfMemory>
            requires order { start ≤ end }
            requires within { All (λ (c : Col). end ≤ length (values c)) grid.now.columns.now }
            ensures { IfOk result (λ v. v.items
                ≡ rows_bytes (row_bytes grid.entry.now.line (table_of grid.entry.now.columns.now))
                start (end - start)) }
        { rows_text(alloc, grid, start, end) },
    )
}
