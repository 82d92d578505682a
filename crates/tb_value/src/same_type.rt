//! Equality of types.
ghost use Rattle.std.specs.Prelude.{◌≡◌};
ghost use Rattle.tb_value.specs.Promise.Kind as kind;
ghost use Rattle.tb_value.specs.Promise.Kind.{parts_of};
ghost use Rattle.tb_value.specs.Promise.SameKind.{same_unit, same_zone, same_kind, same_parts};
ghost use Rattle.tb_value.specs.SeeKind.{kind_of, parts};

use crate::dtype::{DataType, Field, Fields, TimeUnit, plain_type};
use crate::pl_str::PlSmallStr;

fn same_unit(first: TimeUnit, second: TimeUnit) -> bool
    ensures { result ≡ same_unit first second }
{
    match (first, second) {
        (TimeUnit::Nanoseconds, TimeUnit::Nanoseconds) => true,
        (TimeUnit::Microseconds, TimeUnit::Microseconds) => true,
        (TimeUnit::Milliseconds, TimeUnit::Milliseconds) => true,
        _ => false,
    }
}

fn same_zone(first: &Option<PlSmallStr>, second: &Option<PlSmallStr>) -> bool
    ensures { result ≡ same_zone first.now second.now }
{
    match (first, second) {
        (None, None) => true,
        (Some(a), Some(b)) => a.as_str() == b.as_str(),
        _ => false,
    }
}

// Whether the type is Datetime, with this unit and zone.
fn is_datetime(dtype: &DataType, unit: TimeUnit, zone: &Option<PlSmallStr>) -> bool
    ensures { result ≡ same_kind (kind.datetime unit zone.now) (kind_of dtype.now) }
{
    match dtype {
        DataType::Datetime(other_unit, other_zone) => {
            same_unit(unit, *other_unit) && same_zone(zone, other_zone)
        }
        plain_type!() | DataType::Duration(_) | DataType::List(_) | DataType::Struct(_) => false,
    }
}

// Whether the type is Duration, with this unit.
fn is_duration(dtype: &DataType, unit: TimeUnit) -> bool
    ensures { result ≡ same_kind (kind.duration unit) (kind_of dtype.now) }
{
    match dtype {
        DataType::Duration(other) => same_unit(unit, *other),
        plain_type!() | DataType::Datetime(_, _) | DataType::List(_) | DataType::Struct(_) => false,
    }
}

#[cycle(types)]
fn same_type(first: &DataType, second: &DataType) -> bool
    ensures { result ≡ same_kind (kind_of first.now) (kind_of second.now) }
{
    match first {
        DataType::Null => matches!(second, DataType::Null),
        DataType::Boolean => matches!(second, DataType::Boolean),
        DataType::Int8 => matches!(second, DataType::Int8),
        DataType::Int16 => matches!(second, DataType::Int16),
        DataType::Int32 => matches!(second, DataType::Int32),
        DataType::Int64 => matches!(second, DataType::Int64),
        DataType::Int128 => matches!(second, DataType::Int128),
        DataType::UInt8 => matches!(second, DataType::UInt8),
        DataType::UInt16 => matches!(second, DataType::UInt16),
        DataType::UInt32 => matches!(second, DataType::UInt32),
        DataType::UInt64 => matches!(second, DataType::UInt64),
        DataType::String => matches!(second, DataType::String),
        DataType::Binary => matches!(second, DataType::Binary),
        DataType::Date => matches!(second, DataType::Date),
        DataType::Datetime(unit, zone) => is_datetime(second, *unit, zone),
        DataType::Duration(unit) => is_duration(second, *unit),
        DataType::Time => matches!(second, DataType::Time),
        DataType::List(inner) => match second {
            DataType::List(other) => same_type(inner, other),
            _ => false,
        },
        DataType::Struct(fields) => is_struct(second, fields),
    }
}

// Whether the type is Struct, with these fields.
#[cycle(types)]
fn is_struct(dtype: &DataType, fields: &Fields) -> bool
    ensures { result ≡ same_kind (kind.struct (parts_of (parts fields.now))) (kind_of dtype.now) }
{
    match dtype {
        DataType::Struct(others) => same_fields(fields, others),
        plain_type!() | DataType::Datetime(_, _) | DataType::Duration(_) | DataType::List(_) =>
            false,
    }
}

// Whether the fields have the same names and types in the same order.
#[cycle(types)]
fn same_fields(first: &Fields, second: &Fields) -> bool
    ensures { result ≡ same_parts (parts_of (parts first.now)) (parts_of (parts second.now)) }
{
    let fields = first.as_slice();
    let others = second.as_slice();
    if fields.len() != others.len() {
        return false;
    }
    for i in 0..fields.len() {
        if fields[i].name.as_str() != others[i].name.as_str()
            || !same_type(&fields[i].dtype, &others[i].dtype)
        {
            return false;
        }
    }
    true
}

impl PartialEq for DataType {
    ghost use Rattle.std.specs.Cmp.{partial_equiv_from_equiv};
    ghost use Rattle.tb_value.specs.Proved.ValueTests.{pulled};
    ghost use Rattle.tb_value.specs.Promise.SameKind.{same_kind};
    ghost use Rattle.tb_value.specs.SeeKind.{kind_of};
    ghost use Rattle.tb_value.specs.Proved.TypeTests.{same_kind_equiv};

    ghost eq = { λ a b. same_kind (kind_of a) (kind_of b) };

    ghost laws = { partial_equiv_from_equiv (pulled kind_of same_kind_equiv) };

    fn eq(&self, other: &DataType) -> bool {
        same_type(self, other)
    }
}

impl Eq for DataType {
    ghost use Rattle.tb_value.specs.Proved.ValueTests.{pulled};
    ghost use Rattle.tb_value.specs.SeeKind.{kind_of};
    ghost use Rattle.tb_value.specs.Proved.TypeTests.{same_kind_equiv};

    ghost laws = { pulled kind_of same_kind_equiv };
}

impl PartialEq for Field {
    ghost use Rattle.std.specs.Cmp.{partial_equiv_from_equiv};
    ghost use Rattle.tb_value.specs.Proved.ValueTests.{pulled};
    ghost use Rattle.tb_value.specs.Promise.SameKind.{same_part};
    ghost use Rattle.tb_value.specs.SeeKind.{part};
    ghost use Rattle.tb_value.specs.Proved.TypeTests.{same_part_equiv};

    ghost eq = { λ a b. same_part (part a) (part b) };

    ghost laws = { partial_equiv_from_equiv (pulled part same_part_equiv) };

    fn eq(&self, other: &Field) -> bool {
        self.name == other.name && self.dtype == other.dtype
    }
}

impl Eq for Field {
    ghost use Rattle.tb_value.specs.Proved.ValueTests.{pulled};
    ghost use Rattle.tb_value.specs.SeeKind.{part};
    ghost use Rattle.tb_value.specs.Proved.TypeTests.{same_part_equiv};

    ghost laws = { pulled part same_part_equiv };
}

impl PartialEq for Fields {
    ghost use Rattle.std.specs.Cmp.{partial_equiv_from_equiv};
    ghost use Rattle.tb_value.specs.Promise.Kind.{parts_of};
    ghost use Rattle.tb_value.specs.Proved.ValueTests.{pulled};
    ghost use Rattle.tb_value.specs.Promise.SameKind.{same_parts};
    ghost use Rattle.tb_value.specs.SeeKind.{parts};
    ghost use Rattle.tb_value.specs.Proved.TypeTests.{same_parts_equiv};

    ghost eq = { λ a b. same_parts (parts_of (parts a)) (parts_of (parts b)) };

    ghost laws = { partial_equiv_from_equiv (pulled (λ f. parts_of (parts f)) same_parts_equiv) };

    fn eq(&self, other: &Fields) -> bool {
        same_fields(self, other)
    }
}

impl Eq for Fields {
    ghost use Rattle.tb_value.specs.Promise.Kind.{parts_of};
    ghost use Rattle.tb_value.specs.Proved.ValueTests.{pulled};
    ghost use Rattle.tb_value.specs.SeeKind.{parts};
    ghost use Rattle.tb_value.specs.Proved.TypeTests.{same_parts_equiv};

    ghost laws = { pulled (λ f. parts_of (parts f)) same_parts_equiv };
}
