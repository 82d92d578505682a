//! The records of a text, one after another.
ghost use Rattle.std.specs.Prelude.{◌+◌, ℕ, List, length, IfOk};
ghost use Rattle.csv.specs.Records.{fields_of};
ghost use Rattle.tb_csv.specs.Left.{IsNext, Leaves};
ghost use Rattle.tb_csv.specs.Promise.Records.{Line, form, lines_of};

use csv::{ByteRecord, Reader, ReaderBuilder};
use std::alloc::Global;
use tb_value::OutOfMemory;

/// The reader of a text.
pub(crate) fn open_reader(alloc: Global, text: &[u8], separator: u8) -> Reader<&[u8]>
    ensures { Leaves (form separator) (length text.now + 1) (lines_of separator text.now) result }
{
    ReaderBuilder::new()
        .has_headers(false)
        .flexible(true)
        .delimiter(separator)
        .from_reader(alloc, text)
}

/// Reads the next record into the row, if there is one.
pub(crate) fn next_record(
    reader: &mut Reader<&[u8]>,
    row: &mut ByteRecord,
) -> Result<bool, OutOfMemory>
    ensures { (separator : ℕ) (turns : ℕ) (lines : List Line) → Leaves (form separator) (turns + 1) lines reader.old
        → IfOk result (λ found. IsNext (form separator) turns lines found (fields_of row.new) reader.new) }
{
    // Bytes that are there are read, or memory is wanting; the reader's contract allows other errors.
    reader.read_byte_record(row).map_err(|_error| OutOfMemory)
}
