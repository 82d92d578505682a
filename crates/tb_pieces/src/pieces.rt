//! Rows of a table, written in pieces side by side.
ghost use Rattle.std.specs.Prelude.{◌≡◌, ◌++◌, ◌+◌, ◌*◌, ◌/◌, ◌-◌, ◌≤◌, ℕ, List, map, min, IfOk, OnOk};
ghost use Rattle.std.specs.List.{flat_map};
ghost use Rattle.tb_value.specs.Promise.Pairs.{row_numbers};
ghost use Rattle.tb_pieces.specs.Rows.{GivesRows, TakesRows, piece_bytes};
ghost use Rattle.tb_pieces.specs.declared.pieces.TheConstants.{ROWS_OF_A_PIECE};

use rayon::prelude::*;
use std::alloc::Global;
use std::thread::Threads;
use tb_text::Text;
use tb_value::OutOfMemory;

/// How many rows are written as one piece.
pub const ROWS_OF_A_PIECE: usize = 16_384;

/// Where the rows of a piece of so many rows begin, and where they end.
pub fn rows_of_piece(height: usize, piece: usize) -> (usize, usize)
    requires { piece * ROWS_OF_A_PIECE ≤ height }
    ensures start { result.0 ≡ piece * ROWS_OF_A_PIECE }
    ensures count { result.1 - result.0 ≡ min ROWS_OF_A_PIECE (height - result.0) }
    ensures order { result.0 ≤ result.1 }
    ensures end { result.1 ≤ height }
{
    let start = piece * ROWS_OF_A_PIECE;
    if ROWS_OF_A_PIECE < height - start {
        (start, start + ROWS_OF_A_PIECE)
    } else {
        (start, height)
    }
}

// The bytes of the rows of the piece of this number, in no more room than they take.
fn piece_bytes<F: Fn(usize, usize) -> Result<Vec<u8>, OutOfMemory>>(
    rows: &F,
    height: usize,
    piece: usize,
) -> Result<Vec<u8>, OutOfMemory>
    requires takes { TakesRows (F.pre rows.now) height }
    requires piece { piece * ROWS_OF_A_PIECE ≤ height }
    ensures { (row : ℕ → List ℕ) → GivesRows (F.post rows.now) row height
        → IfOk result (λ v. v.items ≡ piece_bytes row height piece) }
{
    let (start, end) = rows_of_piece(height, piece);
    let mut bytes = rows(start, end)?;
    bytes.shrink_to_fit();
    Ok(bytes)
}

// The bytes of the rows of each piece.
fn row_pieces<F: Fn(usize, usize) -> Result<Vec<u8>, OutOfMemory> + Sync>(
    rt: &(impl Threads + Sync),
    alloc: Global,
    height: usize,
    rows: &F,
) -> Result<Vec<Vec<u8>>, OutOfMemory>
    requires { TakesRows (F.pre rows.now) height }
    ensures { (row : ℕ → List ℕ) → GivesRows (F.post rows.now) row height
        → IfOk result (λ v. map (λ p. p.items) v.items
        ≡ map (piece_bytes row height) (row_numbers (height / ROWS_OF_A_PIECE + 1))) }
{
    (0..height / ROWS_OF_A_PIECE + 1)
        .into_par_iter()
        .with_min_len(1)
        .map(
            |piece: usize| -> Result<Vec<u8>, OutOfMemory>
                requires takes { TakesRows (F.pre rows.now) height }
                requires piece { piece * ROWS_OF_A_PIECE ≤ height }
                ensures { (row : ℕ → List ℕ) → GivesRows (F.post rows.entry.now) row height
                    → IfOk result (λ v. v.items ≡ piece_bytes row height piece) }
            { piece_bytes(rows, height, piece) },
        )
        .collect(rt, alloc)?
}

// Appends the pieces, each as it is.
fn push_pieces(text: &mut Text, pieces: Vec<Vec<u8>>) -> Result<(), OutOfMemory>
    ensures { OnOk result (text.new ≡ text.old ++ flat_map (λ p. p.items) pieces.items) }
{
    for piece in pieces {
        text.push(piece)?;
    }
    Ok(())
}

/// Appends the bytes of so many rows, in pieces that threads make side by side. `rows` gives the bytes of the rows from one number up
/// to another.
///
/// # Errors
///
/// `OutOfMemory`. Nothing is said then of what the text holds.
pub fn push_row_pieces<F: Fn(usize, usize) -> Result<Vec<u8>, OutOfMemory> + Sync>(
    rt: &(impl Threads + Sync),
    alloc: Global,
    text: &mut Text,
    height: usize,
    rows: F,
) -> Result<(), OutOfMemory>
    requires { TakesRows (F.pre rows) height }
    ensures { (row : ℕ → List ℕ) → GivesRows (F.post rows) row height → OnOk result
        (text.new ≡ text.old ++ flat_map row (row_numbers height)) }
{
    let pieces = row_pieces(rt, alloc, height, &rows)?;
    push_pieces(text, pieces)
}
