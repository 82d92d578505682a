//! The calls by which columns are replaced by dummies.
ghost use Rattle.std.specs.Prelude.{◌≡◌, IfOk, Some, None};
ghost use Rattle.std.specs.Option.{option_copied};
ghost use Rattle.tb_value.specs.Refusals.{Settles};
ghost use Rattle.tb_frame.specs.Promise.Table.{table_of};
ghost use Rattle.tb_dummies.specs.Promise.Dummies.{dummies_refusal, dummies_table};
ghost use Rattle.tb_dummies.specs.Lent.{lent_request};

use crate::columns::columns_in_place;
use crate::replaced::Replaced;
use std::alloc::Global;
use tb_frame::{DataFrame, IntoDf};
use tb_label::given_separator;
use tb_value::{PlSmallStr, PolarsResult};

/// Tables whose columns are replaced by dummies.
pub trait DataFrameOps: IntoDf {
    /// In the place of each column one column of UInt8 for each of its values, Null among them: 1 in the rows where the
    /// value stands, else 0. It is called by the column's name, the separator (`_` where none is given) and the value's
    /// text, as `tb_label` has it, and those of a column stand by the bytes of these names. `drop_first` leaves out the
    /// value of row 0: a column of one value vanishes then.
    ///
    /// # Errors
    ///
    /// The first of these that holds, or `OutOfMemory`:
    /// 1. `HeaderType`: a column is not of type Null, Boolean, a whole number or String;
    /// 2. `Duplicate`: two columns of the answer would have this name.
    final fn to_dummies(
        &self,
        alloc: Global,
        separator: Option<&str>,
        drop_first: bool,
    ) -> PolarsResult<DataFrame>
        ensures settles { Settles result
            (dummies_refusal (lent_request (Self.frame self.now) None separator.entry drop_first)) }
        ensures table { IfOk result (λ t.
            table_of t
            ≡ dummies_table
            (lent_request (Self.frame self.now) None separator.entry drop_first)) }
    {
        self._to_dummies(alloc, None, separator, drop_first)
    }

    /// As `to_dummies`, of the columns of these names; the others stay as they are. A name that no column has says
    /// nothing.
    ///
    /// # Errors
    ///
    /// Those of `to_dummies`, where `HeaderType` speaks of the columns that are replaced, the first in the table.
    final fn columns_to_dummies(
        &self,
        alloc: Global,
        columns: &[PlSmallStr],
        separator: Option<&str>,
        drop_first: bool,
    ) -> PolarsResult<DataFrame>
        ensures settles { Settles result
            (dummies_refusal
            (lent_request (Self.frame self.now) (Some columns.now) separator.entry
            drop_first)) }
        ensures table { IfOk result (λ t.
            table_of t
            ≡ dummies_table
            (lent_request (Self.frame self.now) (Some columns.now) separator.entry
            drop_first)) }
    {
        self._to_dummies(alloc, Some(columns), separator, drop_first)
    }

    /// As `columns_to_dummies`, and as `to_dummies` where no names are given.
    ///
    /// # Errors
    ///
    /// Those of `columns_to_dummies`.
    final fn _to_dummies(
        &self,
        alloc: Global,
        columns: Option<&[PlSmallStr]>,
        separator: Option<&str>,
        drop_first: bool,
    ) -> PolarsResult<DataFrame>
        ensures settles { Settles result
            (dummies_refusal
            (lent_request (Self.frame self.now) (option_copied columns.entry) separator.entry
            drop_first)) }
        ensures table { IfOk result (λ t.
            table_of t
            ≡ dummies_table
            (lent_request (Self.frame self.now) (option_copied columns.entry)
            separator.entry drop_first)) }
    {
        dummies(alloc, self.to_df(), columns, separator, drop_first)
    }
}

impl<T: IntoDf> DataFrameOps for T {}

// The table with the columns of these names replaced.
fn dummies(
    alloc: Global,
    table: &DataFrame,
    columns: Option<&[PlSmallStr]>,
    separator: Option<&str>,
    drop_first: bool,
) -> PolarsResult<DataFrame>
    ensures settles { Settles result
        (dummies_refusal
        (lent_request table.now (option_copied columns.entry) separator.entry drop_first)) }
    ensures table { IfOk result (λ t.
        table_of t
        ≡ dummies_table
        (lent_request table.now (option_copied columns.entry) separator.entry drop_first)) }
{
    let replaced = Replaced::new(alloc, columns)?;
    replaced.check_types(alloc, table.get_columns())?;
    let separator = given_separator(separator);
    let columns = columns_in_place(alloc, table.get_columns(), &replaced, separator, drop_first)?;
    DataFrame::new(alloc, columns)
}
