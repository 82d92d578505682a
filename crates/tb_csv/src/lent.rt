//! Fields that are lent, where they were read.
ghost use Rattle.std.specs.Prelude.{◌<◌, length};
ghost use Rattle.tb_csv.specs.Read.{IsFull, IsLevel};

use crate::records::Records;
use crate::run::Run;

/// The fields of a column.
#[derive(Clone, Copy)]
pub(crate) struct Fields<'a> {
    pub(crate) records: &'a Records,
    pub(crate) column: usize,
    ghost within: { column < length records.now.names.items },
    ghost level: { IsLevel records.now },
}

/// The fields of a column in the rows of a run.
#[derive(Clone, Copy)]
pub(crate) struct RunColumn<'a> {
    pub(crate) run: &'a Run,
    /// How many fields each row has.
    pub(crate) width: usize,
    pub(crate) column: usize,
    ghost within: { column < width },
    ghost full: { IsFull width run.now },
}
