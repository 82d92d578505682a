//! Why a text is no table, and why a table has no text.

use crate::field_type::FieldType;
use std::alloc::{AllocError, AllocFailed};
use tb_value::{OutOfMemory, PlSmallStr};
use thiserror::Error;

/// Why a text is no table, and why a table has no text. Records are counted from 0, which is the record of names.
#[derive(PartialEq, Eq, Debug, Drop, Error)]
pub enum CsvFault {
    /// The text ends inside quotes that nothing closes.
    #[error("a quote is open where the text ends")]
    OpenQuote,
    /// The text has no record, or the table no column.
    #[error("there are no columns")]
    Empty,
    /// A field of this record is not UTF-8.
    #[error("record {record} is not UTF-8")]
    NotUtf8 {
        record: u64,
    },
    /// Two columns have this name.
    #[error("a name stands twice")]
    RepeatedName(PlSmallStr),
    /// The record has another number of fields than the record of names.
    #[error("record {record} has {found} fields, and there are {expected} names")]
    FieldCount {
        record: u64,
        expected: usize,
        found: usize,
    },
    /// There are more rows than a table can have.
    #[error("there are too many rows")]
    TooManyRows,
    /// The field of this column in this record is none of the type.
    #[error("a field of record {record} is not of the type of its column")]
    NotOfType {
        record: u64,
        column: PlSmallStr,
        expected: FieldType,
    },
    /// Values of the type of the column of this name have no text form.
    #[error("the values of a column have no text form")]
    NoText(PlSmallStr),
    /// Want of memory.
    #[error("out of memory")]
    OutOfMemory,
}

impl From<OutOfMemory> for CsvFault {
    ghost use Rattle.std.specs.Prelude.{◌≡◌};
    ghost use Rattle.tb_csv.specs.declared.fault.CsvFault.TheVariants.{OutOfMemory};

    ghost from_gives = { λ _ e. e ≡ OutOfMemory };

    fn from(_error: OutOfMemory) -> CsvFault {
        CsvFault::OutOfMemory
    }
}

impl From<AllocError> for CsvFault {
    ghost use Rattle.std.specs.Prelude.{◌≡◌};
    ghost use Rattle.tb_csv.specs.declared.fault.CsvFault.TheVariants.{OutOfMemory};

    ghost from_gives = { λ _ e. e ≡ OutOfMemory };

    fn from(_error: AllocError) -> CsvFault {
        CsvFault::OutOfMemory
    }
}

impl<T: Drop> From<AllocFailed<T>> for CsvFault {
    ghost use Rattle.std.specs.Prelude.{◌≡◌};
    ghost use Rattle.tb_csv.specs.declared.fault.CsvFault.TheVariants.{OutOfMemory};

    ghost from_gives = { λ _ e. e ≡ OutOfMemory };

    fn from(_error: AllocFailed<T>) -> CsvFault {
        CsvFault::OutOfMemory
    }
}
