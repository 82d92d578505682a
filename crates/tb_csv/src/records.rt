//! The names and the fields of a text.
ghost use Rattle.std.specs.Prelude.{◌≡◌, ◌<◌, ◌∷◌, List, length};
ghost use Rattle.tb_csv.specs.Fields.{fields_in, part_fields};
ghost use Rattle.tb_csv.specs.Read.{AreRows, IsFull, IsLevel, IsRead, run_column};
ghost use Rattle.tb_csv.specs.Promise.Records.{Record, column_fields, line_of};

use crate::lent::{Fields, RunColumn};
use crate::run::Run;
use tb_value::PlSmallStr;

/// The records of a text, of which the first has the names. Their fields are not read as values yet.
#[derive(Drop)]
pub struct Records {
    pub(crate) names: Vec<PlSmallStr>,
    // The rows, as many at once as were read at once.
    pub(crate) runs: Vec<Run>,
    pub(crate) height: usize,
}

impl Records {
    /// The names of the columns, from the left.
    pub fn names(&self) -> &[PlSmallStr]
        ensures { (names : Record) (rows : List Record) → IsRead self.now (names ∷ rows)
            → result.now ≡ line_of names }
    {
        &self.names
    }

    /// The fields of a column, lent.
    pub(crate) fn column(&self, column: usize) -> Fields<'_>
        requires column { column < length self.now.names.items }
        requires level { IsLevel self.now }
        ensures { (rows : List Record) → AreRows self.now rows
            → fields_in result ≡ column_fields rows column }
    {
        Fields {
            records: self,
            column,
        }
    }
}

impl<'a> Fields<'a> {
    /// Those of a run of the records.
    pub(crate) fn of_run(self, run: &'a Run) -> RunColumn<'a>
        requires { IsFull (length self.records.now.names.items) run.now }
        ensures fields { part_fields result ≡ run_column
            (length self.entry.records.now.names.items) self.entry.column run.now }
        ensures run { result.run.now ≡ run.now }
    {
        RunColumn {
            run,
            width: self.records.names.len(),
            column: self.column,
        }
    }
}
