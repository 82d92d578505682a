//! Equality of values.
ghost use Rattle.std.specs.Prelude.{◌≡◌};
ghost use Rattle.tb_value.specs.Promise.Datum.{items_of};
ghost use Rattle.tb_value.specs.Promise.Same.{same, same_items};
ghost use Rattle.tb_value.specs.See.{datum, lent_value};

use crate::any_value::{AnyValue, ValueRef, Values};

/// Whether two lent values are the same.
pub fn same_value(first: ValueRef<'_>, second: ValueRef<'_>) -> bool
    ensures { result ≡ same (lent_value first.entry) (lent_value second.entry) }
{
    match (first, second) {
        (ValueRef::Null, ValueRef::Null) => true,
        (ValueRef::Boolean(a), ValueRef::Boolean(b)) => a == b,
        (ValueRef::Int(a), ValueRef::Int(b)) => a == b,
        (ValueRef::String(a), ValueRef::String(b)) => a == b,
        (ValueRef::Binary(a), ValueRef::Binary(b)) => a == b,
        (ValueRef::List(a), ValueRef::List(b)) => a == b,
        (ValueRef::Struct(a), ValueRef::Struct(b)) => a == b,
        _ => false,
    }
}

#[cycle(same)]
fn same_values(first: &AnyValue, second: &AnyValue) -> bool
    ensures { result ≡ same (datum first.now) (datum second.now) }
{
    match (first, second) {
        (AnyValue::Null, AnyValue::Null) => true,
        (AnyValue::Boolean(a), AnyValue::Boolean(b)) => a == b,
        (AnyValue::Int(a), AnyValue::Int(b)) => a == b,
        (AnyValue::String(a), AnyValue::String(b)) => a.as_str() == b.as_str(),
        (AnyValue::Binary(a), AnyValue::Binary(b)) => a.as_slice() == b.as_slice(),
        (AnyValue::List(a), AnyValue::List(b)) => same_lists(a, b),
        (AnyValue::Struct(a), AnyValue::Struct(b)) => same_lists(a, b),
        _ => false,
    }
}

#[cycle(same)]
fn same_lists(first: &Values, second: &Values) -> bool
    ensures { result ≡ same_items (items_of first.now) (items_of second.now) }
{
    if first.items.len() != second.items.len() {
        return false;
    }
    for i in 0..first.items.len() {
        if !same_values(&first.items[i], &second.items[i]) {
            return false;
        }
    }
    true
}

impl PartialEq for AnyValue {
    ghost use Rattle.std.specs.Cmp.{partial_equiv_from_equiv};
    ghost use Rattle.tb_value.specs.Promise.Same.{same};
    ghost use Rattle.tb_value.specs.Proved.ValueTests.{same_equiv, pulled};
    ghost use Rattle.tb_value.specs.See.{datum};

    ghost eq = { λ a b. same (datum a) (datum b) };

    ghost laws = { partial_equiv_from_equiv (pulled datum same_equiv) };

    fn eq(&self, other: &AnyValue) -> bool {
        same_values(self, other)
    }
}

impl Eq for AnyValue {
    ghost use Rattle.tb_value.specs.Proved.ValueTests.{same_equiv, pulled};
    ghost use Rattle.tb_value.specs.See.{datum};

    ghost laws = { pulled datum same_equiv };
}

impl PartialEq for Values {
    ghost use Rattle.std.specs.Cmp.{partial_equiv_from_equiv};
    ghost use Rattle.tb_value.specs.Promise.Datum.{items_of};
    ghost use Rattle.tb_value.specs.Promise.Same.{same_items};
    ghost use Rattle.tb_value.specs.Proved.ValueTests.{items_equiv, pulled};

    ghost eq = { λ a b. same_items (items_of a) (items_of b) };

    ghost laws = { partial_equiv_from_equiv (pulled items_of items_equiv) };

    fn eq(&self, other: &Values) -> bool {
        same_lists(self, other)
    }
}

impl Eq for Values {
    ghost use Rattle.tb_value.specs.Promise.Datum.{items_of};
    ghost use Rattle.tb_value.specs.Proved.ValueTests.{items_equiv, pulled};

    ghost laws = { pulled items_of items_equiv };
}
