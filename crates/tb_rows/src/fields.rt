//! The values of a row in some columns: whether they are the same, how they compare, and their code.
ghost use Rattle.std.specs.Prelude.{◌≡◌, fold};
ghost use Rattle.std.specs.Cmp.Lexicographic.{slice_cmp};
ghost use Rattle.tb_value.specs.See.{lent_value};
ghost use Rattle.tb_chunk.specs.Promise.Col.{values};
ghost use Rattle.tb_rows.specs.Fields.{fed_fields, fields_at, row_code, same_at};
ghost use Rattle.tb_rows.specs.Order.{value_cmp};
ghost use Rattle.tb_rows.specs.Promise.Rows.{row_value};

use crate::order::order_of_values;
use std::cmp::Ordering;
use std::hash::{FoldHasher, Hasher};
use tb_store::Series;
use tb_value::{ValueRef, hash_ref, same_value};

// The value of a row, and Null past the end.
fn value_or_null(column: &Series, row: usize) -> ValueRef<'_>
    ensures { lent_value result ≡ row_value (values column.now) row }
{
    if row < column.len() {
        column.get(row)
    } else {
        ValueRef::Null
    }
}

/// Whether two rows have the same values.
pub(crate) fn same_fields(columns: &[&Series], first: usize, second: usize) -> bool
    ensures { result ≡ same_at columns.now first second }
{
    for column in columns {
        if !same_value(value_or_null(column, first), value_or_null(column, second)) {
            return false;
        }
    }
    true
}

/// How two rows compare by the first of their values that don't tie.
pub(crate) fn compare_fields(columns: &[&Series], first: usize, second: usize) -> Ordering
    ensures { result
        ≡ slice_cmp value_cmp (fields_at columns.now first) (fields_at columns.now second) }
{
    for column in columns {
        let order = order_of_values(value_or_null(column, first), value_or_null(column, second));
        if order.is_ne() {
            return order;
        }
    }
    Ordering::Equal
}

fn hash_fields<H: Hasher>(columns: &[&Series], row: usize, state: &mut H)
    ensures { state.new ≡ fold H.write state.old (fed_fields (fields_at columns.now row)) }
{
    for column in columns {
        hash_ref(value_or_null(column, row), state);
    }
}

/// The code of a row's values. Others may have it too.
pub(crate) fn code_at(columns: &[&Series], row: usize) -> u64
    ensures { result ≡ row_code (fields_at columns.now row) }
{
    let mut state = FoldHasher::default();
    hash_fields(columns, row, &mut state);
    state.finish()
}
