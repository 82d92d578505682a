//! The widths of columns, whose cells are measured in pieces side by side.
ghost use Rattle.std.specs.Prelude.{◌≡◌, ◌+◌, ◌*◌, ◌/◌, ◌≤◌, IfOk, length, map};
ghost use Rattle.tb_value.specs.Promise.Pairs.{row_numbers};
ghost use Rattle.tb_chunk.specs.Promise.Col.{values};
ghost use Rattle.tb_frame.specs.Promise.Table.{plain_column};
ghost use Rattle.tb_layout.specs.Promise.Lines.{column_width};
ghost use Rattle.tb_layout.specs.Widths.{piece_width};
ghost use Rattle.tb_pieces.specs.declared.pieces.TheConstants.{ROWS_OF_A_PIECE};

use crate::characters::width_within;
use crate::column_cells::widest_cell;
use rayon::prelude::*;
use std::alloc::Global;
use std::thread::Threads;
use tb_pieces::{PieceColumn, ROWS_OF_A_PIECE, rows_of_piece};
use tb_store::Column;
use tb_value::OutOfMemory;

// The width of the widest cell of the rows of a piece.
fn piece_width(column: &Column, line: usize, piece: usize) -> usize
    requires { piece * ROWS_OF_A_PIECE ≤ length (values column.now) }
    ensures { result ≡ piece_width line (plain_column column.now) piece }
{
    let (start, end) = rows_of_piece(column.len(), piece);
    widest_cell(&PieceColumn::new(column, start), line, start, end)
}

// The width of the widest cell of each piece.
fn piece_widths(
    rt: &(impl Threads + Sync),
    alloc: Global,
    column: &Column,
    line: usize,
) -> Result<Vec<usize>, OutOfMemory>
    ensures { IfOk result (λ v.
        v.items
        ≡ map (piece_width line (plain_column column.now))
        (row_numbers (length (values column.now) / ROWS_OF_A_PIECE + 1))) }
{
    let widths = (0..column.len() / ROWS_OF_A_PIECE + 1)
        .into_par_iter()
        .with_min_len(1)
        .map(
            |piece: usize| -> usize
                requires { piece * ROWS_OF_A_PIECE ≤ length (values column.now) }
                ensures { result ≡ piece_width line (plain_column column.entry.now) piece }
            { piece_width(column, line, piece) },
        )
        .collect(rt, alloc)?;
    Ok(widths)
}

/// The width of a column, which is at most that of the line.
pub(crate) fn column_width(
    rt: &(impl Threads + Sync),
    alloc: Global,
    column: &Column,
    line: usize,
) -> Result<usize, OutOfMemory>
    ensures { IfOk result (λ w. w ≡ column_width line (plain_column column.now)) }
{
    let mut widest = width_within(line, column.name().as_str());
    let widths = piece_widths(rt, alloc, column, line)?;
    for width in widths {
        widest = widest.max(width);
    }
    Ok(widest)
}
