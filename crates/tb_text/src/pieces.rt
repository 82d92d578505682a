//! A text, and the pieces that it stands in.
ghost use Rattle.std.specs.Prelude.{◌≡◌, ◌+◌, ◌≤◌, ◌++◌, [], drop, length, IfOk, OnOk, OnErr, string_bytes};
ghost use Rattle.tb_text.specs.Pieces.{bytes_in, bytes_of};

use crate::rooms::fill;
use std::alloc::Global;
use std::marker::Model;
use tb_value::OutOfMemory;

// Pieces that have no more bytes together are put into one.
const SHORT: usize = 1 << 16;

/// A text in pieces that stand one behind another, seen as its bytes. Short pieces are put together, so that there are few.
#[derive(Drop)]
pub struct Text {
    pieces: Vec<Vec<u8>>,
    len: usize,
}

impl Model for Text {
    ghost use Rattle.std.specs.Prelude.{◌≡◌, ℕ, List, length};
    ghost use Rattle.tb_text.specs.Pieces.{bytes_of};

    ghost Value = { List ℕ };

    ghost view = { λ t. bytes_of t.pieces.items };

    ghost invariant = { λ t. t.len ≡ length (bytes_of t.pieces.items) };
}

impl Text {
    /// The text without a byte.
    pub fn new(alloc: Global) -> Text
        ensures { result ≡ [] }
    {
        Text {
            pieces: Vec::new(alloc),
            len: 0,
        }
    }

    /// The text of this one piece.
    pub fn from_string(alloc: Global, text: String) -> Result<Text, OutOfMemory>
        ensures { IfOk result (λ t. t ≡ string_bytes text) }
    {
        let mut whole = Text::new(alloc);
        whole.push(text.into_bytes())?;
        Ok(whole)
    }

    /// How many bytes it has.
    pub fn len(&self) -> usize
        ensures { result ≡ length self.now }
    {
        self.len
    }

    /// The pieces, in order.
    pub fn pieces(&self) -> &[Vec<u8>]
        ensures { bytes_of result.now ≡ self.now }
    {
        &self.pieces
    }

    /// Puts its bytes at the front of the room.
    pub fn copy_to(&self, room: &mut [u8])
        requires { length self.now ≤ length room.old }
        ensures { room.new ≡ self.now ++ drop (length self.now) room.old }
    {
        fill(&self.pieces, room);
    }

    /// Appends a piece.
    ///
    /// # Errors
    ///
    /// `OutOfMemory`, also where the whole would have more bytes than a `usize` counts. The text has no byte then.
    pub fn push(&mut self, piece: Vec<u8>) -> Result<(), OutOfMemory>
        ensures grown { OnOk result (self.new ≡ self.old ++ piece.items) }
        ensures lost { OnErr result (self.new ≡ []) }
    {
        match push_piece(&mut self.pieces, self.len, piece) {
            Ok(len) => {
                self.len = len;
                Ok(())
            }
            Err(error) => {
                self.pieces.clear();
                self.len = 0;
                Err(error)
            }
        }
    }
}

// Takes out the last piece, where it and so many bytes more are short.
fn pop_short(pieces: &mut Vec<Vec<u8>>, more: usize) -> Option<Vec<u8>>
    ensures { bytes_of pieces.old.items ≡ bytes_of pieces.new.items ++ bytes_in result }
{
    match pieces.last() {
        Some(last) if last.len().saturating_add(more) <= SHORT => pieces.pop(),
        _ => None,
    }
}

// Appends a piece to pieces of so many bytes. Answers how many they have then.
fn push_piece(pieces: &mut Vec<Vec<u8>>, len: usize, piece: Vec<u8>) -> Result<usize, OutOfMemory>
    ensures bytes { OnOk result
        (bytes_of pieces.new.items ≡ bytes_of pieces.old.items ++ piece.items) }
    ensures len { IfOk result (λ n. n ≡ len + length piece.items) }
{
    let grown = len.checked_add(piece.len()).ok_or(OutOfMemory)?;
    match pop_short(pieces, piece.len()) {
        Some(last) => {
            let mut last = last;
            last.extend_from_slice(&piece)?;
            pieces.push(last)?;
        }
        None => pieces.push(piece)?,
    }
    Ok(grown)
}
