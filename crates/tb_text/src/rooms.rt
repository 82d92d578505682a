//! Rooms into which texts are put.
ghost use Rattle.std.specs.Prelude.{◌≡◌, ◌+◌, ◌≤◌, ◌++◌, length, drop, take};
ghost use Rattle.tb_text.specs.Pieces.{bytes_of};

// Puts the piece into the room, from this place on.
fn put(piece: &[u8], room: &mut [u8], start: usize)
    requires { start + length piece.now ≤ length room.old }
    ensures { room.new
        ≡ take start room.old ++ (piece.now ++ drop (start + length piece.now) room.old) }
{
    let (_, rest) = room.split_at_mut(start);
    let (front, _) = rest.split_at_mut(piece.len());
    front.copy_from_slice(piece);
}

/// Puts the pieces at the front of the room, one behind another.
pub(crate) fn fill(pieces: &[Vec<u8>], room: &mut [u8])
    requires { length (bytes_of pieces.now) ≤ length room.old }
    ensures { room.new ≡ bytes_of pieces.now ++ drop (length (bytes_of pieces.now)) room.old }
{
    let mut start = 0;
    for piece in pieces {
        put(piece, room, start);
        start += piece.len();
    }
}
