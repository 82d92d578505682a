//! The rows of a table in groups.
ghost use Rattle.std.specs.Prelude.{◌≡◌, IfOk};
ghost use Rattle.tb_value.specs.Refusals.{Settles};
ghost use Rattle.tb_frame.specs.Promise.Refusal.{unknown_key};
ghost use Rattle.tb_frame.specs.Promise.Table.{height, table_of};
ghost use Rattle.tb_pivot.specs.Promise.Pivot.{are_alike};
ghost use Rattle.tb_frame.specs.Promise.Join.{columns_named};
ghost use Rattle.tb_rows.specs.Grouped.{AreGroups};

use std::alloc::Global;
use tb_frame::{DataFrame, IntoDf, lend_columns};
use tb_rows::{Groups, group_rows};
use tb_value::{PlSmallStr, PolarsResult};

/// Tables whose rows are put in groups.
pub trait GroupBy: IntoDf {
    /// The rows in groups of the same values of the columns of these names, Null the same as Null: the first row of each
    /// group, in the order of these rows, and for each row its group. Without names all rows are in one group. A name may
    /// stand twice.
    ///
    /// # Errors
    ///
    /// `ColumnNotFound` of the first name that no column has, or `OutOfMemory`.
    final fn group_by_stable(&self, alloc: Global, names: &[PlSmallStr]) -> PolarsResult<Groups>
        ensures settles { Settles result (unknown_key (table_of (Self.frame self.now)) names.now) }
        ensures groups { IfOk result
            (AreGroups (are_alike (columns_named (table_of (Self.frame self.now)) names.now))
            (height (table_of (Self.frame self.now)))) }
    {
        groups_by(alloc, self.to_df(), names)
    }
}

impl<T: IntoDf> GroupBy for T {}

fn groups_by(alloc: Global, table: &DataFrame, names: &[PlSmallStr]) -> PolarsResult<Groups>
    ensures settles { Settles result (unknown_key (table_of table.now) names.now) }
    ensures groups { IfOk result
        (AreGroups (are_alike (columns_named (table_of table.now) names.now))
        (height (table_of table.now))) }
{
    let columns = lend_columns(alloc, table.get_columns(), names)?;
    Ok(group_rows(alloc, &columns, table.height())?)
}
