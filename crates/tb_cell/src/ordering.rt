//! How values compare, and which may stand behind which.
ghost use Rattle.std.specs.Prelude.{◌≡◌};
ghost use Rattle.tb_value.specs.See.{lent_value};
ghost use Rattle.tb_cell.specs.Promise.Flag.{datum_cmp};
ghost use Rattle.tb_cell.specs.Promise.Order.{may_follow, order_of};

use std::cmp::Ordering;
use tb_value::ValueRef;

/// How two values of one key type compare: numbers as numbers, false before true, texts and bytes by their bytes. Null has
/// no place among them: it is Equal to every value, as are lists, structs and values of different kinds.
pub fn compare_values(first: ValueRef<'_>, second: ValueRef<'_>) -> Ordering
    ensures { result ≡ datum_cmp (lent_value first.entry) (lent_value second.entry) }
{
    match (first, second) {
        (ValueRef::Boolean(a), ValueRef::Boolean(b)) => a.cmp(&b),
        (ValueRef::Int(a), ValueRef::Int(b)) => a.cmp(&b),
        (ValueRef::String(a), ValueRef::String(b)) => a.cmp(b),
        (ValueRef::Binary(a), ValueRef::Binary(b)) => a.cmp(b),
        _ => Ordering::Equal,
    }
}

// How they compare where values are to ascend, or to descend.
fn compare_in(first: ValueRef<'_>, second: ValueRef<'_>, descending: bool) -> Ordering
    ensures { result ≡ order_of descending (lent_value first.entry) (lent_value second.entry) }
{
    if descending {
        compare_values(second, first)
    } else {
        compare_values(first, second)
    }
}

/// Whether a value is present and not less than the one before it, where values are to ascend, or not greater where they are
/// to descend. Null stands before the first.
pub fn may_follow(before: ValueRef<'_>, value: ValueRef<'_>, descending: bool) -> bool
    ensures { result ≡ may_follow descending (lent_value before.entry) (lent_value value.entry) }
{
    match value {
        ValueRef::Null => false,
        _ => !compare_in(value, before, descending).is_lt(),
    }
}
