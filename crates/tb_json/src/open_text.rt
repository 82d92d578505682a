//! A text while it is written.
ghost use Rattle.std.specs.Prelude.{◌≡◌, [], IfOk, OnOk, string_bytes};

use std::alloc::Global;
use std::marker::Model;
use std::mem::replace;
use tb_text::Text;
use tb_value::OutOfMemory;

// How many bytes a piece has room for: sixteen of them take a mebibyte, with what the allocator keeps of each.
const ROOM: usize = 65_472;

// A piece is full once so many bytes are left.
const LEFT: usize = 256;

/// The pieces of a text that are full, and the last one, which grows.
#[derive(Drop)]
pub(crate) struct OpenText {
    full: Text,
    pub(crate) last: String,
}

impl Model for OpenText {
    ghost use Rattle.std.specs.Prelude.{◌++◌, ℕ, List, string_bytes};

    ghost Value = { List ℕ };

    ghost view = { λ t. t.full ++ string_bytes t.last };
}

impl OpenText {
    /// The text without a byte.
    pub(crate) fn new(alloc: Global) -> Result<OpenText, OutOfMemory>
        ensures { IfOk result (λ t. t ≡ []) }
    {
        Ok(OpenText {
            full: Text::new(alloc),
            last: String::with_capacity(alloc, ROOM)?,
        })
    }

    /// Begins another piece where the last one is full.
    pub(crate) fn close_full(&mut self, alloc: Global) -> Result<(), OutOfMemory>
        ensures { OnOk result (self.new ≡ self.old) }
    {
        if self.last.len() + LEFT > ROOM {
            let next = String::with_capacity(alloc, ROOM)?;
            let full = replace(&mut self.last, next);
            self.full.push(piece_of(full))?;
        }
        Ok(())
    }

    /// The whole text.
    pub(crate) fn close(self) -> Result<Text, OutOfMemory>
        ensures { IfOk result (λ t. t ≡ self) }
    {
        let OpenText { full, last } = self;
        let mut text = full;
        text.push(piece_of(last))?;
        Ok(text)
    }
}

// The bytes of a text. Where it grew beyond the room that it had, what is left of its room is given back.
fn piece_of(text: String) -> Vec<u8>
    ensures { result.items ≡ string_bytes text }
{
    let mut piece = text.into_bytes();
    if piece.capacity() > ROOM {
        piece.shrink_to_fit();
    }
    piece
}
