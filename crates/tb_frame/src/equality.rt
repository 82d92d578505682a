//! Whether two tables are equal.
ghost use Rattle.std.specs.Prelude.{◌≡◌, ◌↔◌, IsTrue};
ghost use Rattle.tb_value.specs.Promise.SameKind.{same_kind};
ghost use Rattle.tb_chunk.specs.Promise.Col.{values};
ghost use Rattle.tb_frame.specs.Promise.Table.{plain_column, table_of};

use crate::frame::DataFrame;
use tb_store::{Column, Series};
use tb_value::same_value;

impl DataFrame {
    /// Whether the tables have the same names, types and values, column by column, where Null is equal to Null. How
    /// the columns are cut into chunks, and their flags, don't matter.
    pub fn equals_missing(&self, other: &DataFrame) -> bool
        ensures { IsTrue result ↔ (table_of self.now ≡ table_of other.now) }
    {
        same_columns(&self.columns, &other.columns)
    }
}

fn same_columns(first: &[Column], second: &[Column]) -> bool
    ensures { IsTrue result ↔ (table_of first.now ≡ table_of second.now) }
{
    if first.len() != second.len() {
        return false;
    }
    for i in 0..first.len() {
        if !same_column(&first[i], &second[i]) {
            return false;
        }
    }
    true
}

fn same_column(first: &Column, second: &Column) -> bool
    ensures { IsTrue result ↔ (plain_column first.now ≡ plain_column second.now) }
{
    first.name().as_str() == second.name().as_str()
        && same_type(
            first.as_materialized_series(),
            second.as_materialized_series(),
        )
        && same_values(first, second)
}

/// Whether the columns are of one type.
pub fn same_type(first: &Series, second: &Series) -> bool
    ensures { result ≡ same_kind first.now.kind second.now.kind }
{
    first.dtype() == second.dtype()
}

fn same_values(first: &Column, second: &Column) -> bool
    ensures { IsTrue result ↔ (values first.now ≡ values second.now) }
{
    let len = first.len();
    if second.len() != len {
        return false;
    }
    for row in 0..len {
        if !same_value(first.get(row), second.get(row)) {
            return false;
        }
    }
    true
}
