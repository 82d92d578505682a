//! What is asked of a field.
ghost use Rattle.std.specs.Prelude.{◌≡◌};
ghost use Rattle.tb_value.specs.Promise.Datum.{is_null};
ghost use Rattle.tb_value.specs.See.{datum, lent_value};
ghost use Rattle.tb_value.specs.SeeKind.{kind_of};
ghost use Rattle.tb_filter.specs.Promise.Filtered.{is_key_value, may_test, passes};
ghost use Rattle.tb_filter.specs.Seen.{check_of};

use tb_cell::compare_values;
use tb_value::{AnyValue, DataType, ValueRef, same_value};

/// What is asked of the field of a row. An absent field passes IsNull alone.
#[derive(Drop)]
pub enum Test {
    IsNull,
    IsNotNull,
    /// The field is this value.
    Eq(AnyValue),
    /// The field is less than this value: numbers as numbers, false before true, texts and bytes by their bytes.
    Less(AnyValue),
}

impl Test {
    /// Whether a field passes.
    pub fn passes(&self, value: ValueRef<'_>) -> bool
        ensures { result ≡ passes (check_of self.now) (lent_value value.entry) }
    {
        match self {
            Test::IsNull => is_null(value),
            Test::IsNotNull => !is_null(value),
            Test::Eq(other) => !is_null(value) && same_value(value, other.as_ref()),
            Test::Less(other) => !is_null(value) && compare_values(value, other.as_ref()).is_lt(),
        }
    }

    /// Whether this may be asked of values of the type: it doesn't compare, or it does with a value that is there, is of
    /// the type and is a key.
    pub fn may_test(&self, dtype: &DataType) -> bool
        ensures { result ≡ may_test (check_of self.now) (kind_of dtype.now) }
    {
        match self {
            Test::IsNull | Test::IsNotNull => true,
            Test::Eq(value) => is_key_value(dtype, value),
            Test::Less(value) => is_key_value(dtype, value),
        }
    }
}

fn is_null(value: ValueRef<'_>) -> bool
    ensures { result ≡ is_null (lent_value value.entry) }
{
    match value {
        ValueRef::Null => true,
        _ => false,
    }
}

fn is_key_value(dtype: &DataType, value: &AnyValue) -> bool
    ensures { result ≡ is_key_value (kind_of dtype.now) (datum value.now) }
{
    if !dtype.is_key() {
        return false;
    }
    if is_null(value.as_ref()) {
        return false;
    }
    dtype.is_of(value)
}
