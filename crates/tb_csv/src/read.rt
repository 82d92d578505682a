//! The records of texts.
ghost use Rattle.std.specs.Prelude.{◌<◌, IfOk};
ghost use Rattle.std.specs.Thread.{IsSync};
ghost use Rattle.tb_csv.specs.Promise.Faults.{text_fault};
ghost use Rattle.tb_csv.specs.Faults.{Settles};
ghost use Rattle.tb_csv.specs.Read.{AreRecords, IsLevel, IsRead};
ghost use Rattle.tb_csv.specs.Promise.Records.{records_of};

use crate::fault::CsvFault;
use crate::in_pieces::records_of_pieces;
use crate::records::Records;
use crate::whole::records_of_whole;
use rayon::current_num_threads;
use std::alloc::Global;
use std::thread::{Threads, join};

// Pieces of fewer bytes are read in less time than a thread takes to start.
const BYTES_OF_A_PIECE: usize = 262_144;

// How many bytes a piece has at least, where each thread that reads has one: two threads for each processor.
fn bytes_of_a_piece(rt: &impl Threads, len: usize) -> usize
    ensures { 0 < result }
{
    let pieces = current_num_threads(rt).saturating_mul(2);
    (len / pieces).max(BYTES_OF_A_PIECE)
}

/// The records of a text of comma-separated values, as RFC 4180 has them. The first record has the names of the columns,
/// and each other one the fields of a row. A byte-order mark before them is passed over, records end at a line feed, a
/// carriage return or both, and lines without a byte are none. The pieces of a long text are read side by side.
///
/// # Errors
///
/// 1 OpenQuote where the text ends inside quotes, 2 Empty where it has no record, 3 NotUtf8 where a name isn't UTF-8, 4 RepeatedName,
/// 5 FieldCount or NotUtf8 of the first row that has the one or the other, 6 TooManyRows, and OutOfMemory.
pub fn records_of_csv(
    rt: &(impl Threads + Sync),
    alloc: Global,
    text: &[u8],
    separator: u8,
) -> Result<Records, CsvFault>
    ensures settles { Settles result (text_fault separator text.now) }
    ensures read { IfOk result (λ r. IsRead r (records_of separator text.now)) }
    ensures level { IfOk result (λ r. IsLevel r) }
{
    if separator == b'\n' || text.len() < 2 * BYTES_OF_A_PIECE {
        return records_of_whole(alloc, text, separator);
    }
    let least = bytes_of_a_piece(rt, text.len());
    match records_of_pieces(rt, alloc, text, separator, least) {
        Ok(records) => Ok(records),
        Err(CsvFault::OutOfMemory) => Err(CsvFault::OutOfMemory),
        // One pass tells which fault is the first, and reads what can't be cut.
        Err(_) => records_of_whole(alloc, text, separator),
    }
}

/// What `records_of_csv` gives of each of two texts, which are read at once.
pub fn records_of_two<R: Threads + Sync>(
    rt: &R,
    alloc: Global,
    left: &[u8],
    right: &[u8],
    separator: u8,
) -> (Result<Records, CsvFault>, Result<Records, CsvFault>)
    ensures left { AreRecords separator left.now result.0 }
    ensures right { AreRecords separator right.now result.1 }
{
    join(
        rt,
        || -> Result<Records, CsvFault>
            requires { IsSync R.row }
            ensures { AreRecords separator left.entry.now result }
        { records_of_csv(rt, alloc, left, separator) },
        || -> Result<Records, CsvFault>
            requires { IsSync R.row }
            ensures { AreRecords separator right.entry.now result }
        { records_of_csv(rt, alloc, right, separator) },
    )
}
