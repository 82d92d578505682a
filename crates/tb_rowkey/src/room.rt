//! How much memory keys take, which is reserved before they are written. No contract rests on it.

use crate::field_column::FieldColumn;
use crate::stored_chunk::StoredChunk;
use tb_store::View;

fn texts_len(views: &[Option<View>]) -> usize {
    let mut len: usize = 0;
    for view in views {
        if let Some(view) = view {
            len = len.saturating_add(view.length as usize);
        }
    }
    len
}

// The bytes of a field that is present, but for those of a text.
fn field_room(chunk: &StoredChunk<'_>) -> usize {
    match chunk {
        StoredChunk::List(_) | StoredChunk::Struct(_) | StoredChunk::Null(_) => 1,
        StoredChunk::Boolean(_) | StoredChunk::Int8(_) | StoredChunk::UInt8(_) => 2,
        StoredChunk::Int16(_) | StoredChunk::UInt16(_) => 3,
        StoredChunk::Int32(_) | StoredChunk::UInt32(_) => 5,
        StoredChunk::String(_) | StoredChunk::Binary(_) => 5,
        StoredChunk::Int64(_) | StoredChunk::UInt64(_) => 9,
        StoredChunk::Int128(_) => 17,
    }
}

/// The bytes of the fields of a chunk of so many rows, or a little more where some are Null.
pub(crate) fn room_of(chunk: &StoredChunk<'_>, rows: usize) -> usize {
    let texts = match chunk {
        StoredChunk::String(chunk) => texts_len(chunk.views()),
        StoredChunk::Binary(chunk) => texts_len(chunk.views()),
        _ => 0,
    };
    field_room(chunk).saturating_mul(rows).saturating_add(texts)
}

/// The bytes of the fields of all rows of these columns, or a little more where some are Null.
pub(crate) fn room_for(columns: &[FieldColumn<'_>]) -> usize {
    let mut room: usize = 0;
    for column in columns {
        room = room.saturating_add(column.room());
    }
    room
}
