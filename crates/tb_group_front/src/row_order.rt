//! How rows compare.
ghost use Rattle.std.specs.Prelude.{◌≡◌};
ghost use Rattle.tb_value.specs.See.{lent_value};
ghost use Rattle.tb_chunk.specs.Promise.Col.{values};
ghost use Rattle.tb_rows.specs.Promise.Rows.{row_value};
ghost use Rattle.tb_frame.specs.Promise.Table.{table_of};
ghost use Rattle.tb_group_front.specs.Promise.Sorted.{row_cmp};

use std::cmp::Ordering;
use tb_rows::order_of_values;
use tb_store::Column;
use tb_value::ValueRef;

/// The value of a row, and Null past the end.
pub(crate) fn value_or_null(column: &Column, row: usize) -> ValueRef<'_>
    ensures { lent_value result ≡ row_value (values column.now) row }
{
    if row < column.len() {
        column.get(row)
    } else {
        ValueRef::Null
    }
}

/// How two rows compare by the first of their values that don't tie.
pub(crate) fn compare_rows(columns: &[Column], first: usize, second: usize) -> Ordering
    ensures { result ≡ row_cmp (table_of columns.now) first second }
{
    for column in columns {
        let order = order_of_values(value_or_null(column, first), value_or_null(column, second));
        if order.is_ne() {
            return order;
        }
    }
    Ordering::Equal
}
