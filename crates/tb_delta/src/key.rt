//! Keys of rows, in an order in which only equal ones tie.
ghost use Rattle.std.specs.Prelude.{◌≡◌, IfOk};
ghost use Rattle.tb_rows.specs.Order.{value_cmp};
ghost use Rattle.tb_value.specs.See.{datum};

use std::alloc::Global;
use std::cmp::Ordering;
use tb_rows::order_of_values;
use tb_value::{AnyValue, OutOfMemory};

/// The value of a key. Maps of keys are ordered, so that no choice of keys makes them slow.
#[derive(Drop)]
pub(crate) struct RowKey {
    pub value: AnyValue,
}

impl RowKey {
    /// The key of this value.
    pub(crate) fn of(alloc: Global, value: &AnyValue) -> Result<RowKey, OutOfMemory>
        ensures { IfOk result (λ k. datum k.value ≡ datum value.now) }
    {
        Ok(RowKey {
            value: value.as_ref().to_value(alloc)?,
        })
    }
}

// How two keys compare. Most keys are whole numbers, and each search compares many.
fn order_of_keys(first: &AnyValue, second: &AnyValue) -> Ordering
    ensures { result ≡ value_cmp (datum first.now) (datum second.now) }
{
    match (first, second) {
        (AnyValue::Int(a), AnyValue::Int(b)) => a.cmp(b),
        _ => order_of_values(first.as_ref(), second.as_ref()),
    }
}

impl PartialEq for RowKey {
    ghost use Rattle.std.specs.Cmp.{partial_equiv_from_equiv};
    ghost use Rattle.tb_value.specs.Promise.Same.{same};
    ghost use Rattle.tb_value.specs.Proved.ValueTests.{same_equiv, pulled};
    ghost use Rattle.tb_value.specs.See.{datum};

    ghost eq = { λ a b. same (datum a.value) (datum b.value) };

    ghost laws = { partial_equiv_from_equiv (pulled (λ k. datum k.value) same_equiv) };

    fn eq(&self, other: &RowKey) -> bool {
        self.value == other.value
    }
}

impl Eq for RowKey {
    ghost use Rattle.tb_value.specs.Proved.ValueTests.{same_equiv, pulled};
    ghost use Rattle.tb_value.specs.See.{datum};

    ghost laws = { pulled (λ k. datum k.value) same_equiv };
}

impl Ord for RowKey {
    ghost use Rattle.std.proofs.Common.{refl};
    ghost use Rattle.tb_delta.specs.Proved.KeyOrder.{same-ties, keys_total};
    ghost use Rattle.tb_rows.specs.Order.{value_cmp};
    ghost use Rattle.tb_value.specs.See.{datum};

    ghost cmp = { λ a b. value_cmp (datum a.value) (datum b.value) };

    ghost total = { keys_total (λ k. datum k.value) };

    ghost matches_partial_cmp = { λ a b. refl };

    ghost matches_eq = { λ a b. same-ties (datum a.value) (datum b.value) };

    fn cmp(&self, other: &RowKey) -> Ordering {
        order_of_keys(&self.value, &other.value)
    }
}

impl PartialOrd for RowKey {
    ghost use Rattle.std.specs.Cmp.{partial_order_from_agreeing_total};
    ghost use Rattle.std.proofs.Common.{refl};
    ghost use Rattle.std.specs.Ordering.{as_partial_cmp};
    ghost use Rattle.tb_delta.specs.Proved.KeyOrder.{same-ties, keys_total};
    ghost use Rattle.tb_rows.specs.Order.{value_cmp};
    ghost use Rattle.tb_value.specs.See.{datum};

    ghost partial_cmp = { as_partial_cmp (λ a b. value_cmp (datum a.value) (datum b.value)) };

    ghost laws = { partial_order_from_agreeing_total (λ a b. value_cmp (datum a.value) (datum b.value)) (keys_total (λ k. datum k.value)) (λ a b. refl) (λ a b. same-ties (datum a.value) (datum b.value)) };

    fn partial_cmp(&self, other: &RowKey) -> Option<Ordering> {
        Some(self.cmp(other))
    }
}
