//! The table of a text.
ghost use Rattle.std.specs.Prelude.{◌≡◌, List, IfOk};
ghost use Rattle.tb_frame.specs.Promise.Table.{table_of};
ghost use Rattle.tb_csv.specs.Promise.Faults.{csv_refusal, types_fault};
ghost use Rattle.tb_csv.specs.Faults.{Settles};
ghost use Rattle.tb_csv.specs.Promise.Records.{Record, records_of};
ghost use Rattle.tb_csv.specs.Promise.Tables.{csv_table};
ghost use Rattle.tb_csv.specs.Read.{IsLevel, IsRead};

use crate::columns::csv_columns;
use crate::fault::CsvFault;
use crate::options::{CsvOptions, TypeOf};
use crate::read::records_of_csv;
use crate::records::Records;
use std::alloc::Global;
use std::thread::Threads;
use tb_frame::DataFrame;

/// The table of records, whose columns have the types that are given or that their fields tell. A field without a byte is Null,
/// unless it stands in quotes and its column is of type String: there it is the empty text. Neither keeps a column from being told
/// as another type.
///
/// # Errors
///
/// NotOfType of the first column from the left that has such a field, and the first such field of it, and OutOfMemory.
pub fn table_of_records(
    rt: &(impl Threads + Sync),
    alloc: Global,
    records: &Records,
    types: &[TypeOf],
) -> Result<DataFrame, CsvFault>
    requires level { IsLevel records.now }
    ensures settles { (rs : List Record) → IsRead records.now rs
        → Settles result (types_fault types.now rs) }
    ensures table { (rs : List Record) → IsRead records.now rs
        → IfOk result (λ t. table_of t ≡ csv_table types.now rs) }
{
    let columns = csv_columns(rt, alloc, records, types)?;
    // The names are distinct and the columns of one height, so that want of memory alone is left.
    DataFrame::new(alloc, columns).map_err(|_error| CsvFault::OutOfMemory)
}

/// The table of a text of comma-separated values: the table of its records.
///
/// # Errors
///
/// Those of `records_of_csv`, then those of `table_of_records`, and OutOfMemory.
pub fn table_of_csv(
    rt: &(impl Threads + Sync),
    alloc: Global,
    text: &[u8],
    options: &CsvOptions,
) -> Result<DataFrame, CsvFault>
    ensures settles { Settles result
        (csv_refusal options.now.types.items options.now.separator text.now) }
    ensures table { IfOk result (λ t.
        table_of t
        ≡ csv_table options.now.types.items (records_of options.now.separator text.now)) }
{
    let records = records_of_csv(rt, alloc, text, options.separator)?;
    table_of_records(rt, alloc, &records, &options.types)
}
