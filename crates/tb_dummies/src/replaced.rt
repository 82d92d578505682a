//! Which columns are replaced, and whether their values name columns.
ghost use Rattle.std.specs.Prelude.{◌≡◌, ◌&&◌, not, IfOk};
ghost use Rattle.std.specs.Option.{option_copied};
ghost use Rattle.tb_value.specs.Promise.Names.{Name};
ghost use Rattle.tb_value.specs.Refusals.{Settles};
ghost use Rattle.tb_frame.specs.Promise.Table.{table_of};
ghost use Rattle.tb_label.specs.Promise.Label.{is_header};
ghost use Rattle.tb_dummies.specs.Promise.Dummies.{header_cause, is_replaced};
ghost use Rattle.tb_dummies.specs.Lent.{is_in};

use std::alloc::Global;
use tb_frame::{NameSet, name_set};
use tb_label::is_header_type;
use tb_store::Column;
use tb_value::{InvalidCause, OutOfMemory, PlSmallStr, PolarsError, PolarsResult};

/// The columns that are replaced: those of the names, and all of them where no names are given.
#[derive(Drop)]
pub(crate) struct Replaced<'a> {
    names: Option<NameSet<'a>>,
}

impl<'a> Replaced<'a> {
    pub(crate) fn new(
        alloc: Global,
        columns: Option<&'a [PlSmallStr]>,
    ) -> Result<Replaced<'a>, OutOfMemory>
        ensures { IfOk result (λ r.
            (n : Name) → is_in r.names n ≡ is_replaced (option_copied columns.entry) n) }
    {
        match columns {
            None => Ok(Replaced { names: None }),
            Some(names) => Ok(Replaced {
                names: Some(name_set(alloc, names)?),
            }),
        }
    }

    /// Whether a column of this name is.
    pub(crate) fn contains(&self, name: &PlSmallStr) -> bool
        ensures { result ≡ is_in self.now.names name.now }
    {
        match &self.names {
            None => true,
            Some(names) => names.contains(name),
        }
    }

    // Whether the column is replaced and its values name no columns.
    fn is_refused(&self, column: &Column) -> bool
        ensures { result
            ≡ (is_in self.now.names column.now.name && not (is_header column.now.kind)) }
    {
        self.contains(column.name()) && !is_header_type(column.dtype())
    }

    /// Refuses the first of the columns that is replaced and has a type whose values name no columns (HeaderType).
    pub(crate) fn check_types(&self, alloc: Global, columns: &[Column]) -> PolarsResult<()>
        ensures { Settles result (header_cause (is_in self.now.names) (table_of columns.now)) }
    {
        for column in columns {
            if self.is_refused(column) {
                return Err(PolarsError::InvalidOperation(InvalidCause::HeaderType(
                    column.name().copy(alloc)?,
                )));
            }
        }
        Ok(())
    }
}
