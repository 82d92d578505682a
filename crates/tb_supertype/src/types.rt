//! The type that two types have in common.
ghost use Rattle.std.specs.Prelude.{◌≡◌, ◌≤◌, IfOk, Some, option_map};
ghost use Rattle.tb_value.specs.SeeKind.{kind_of};
ghost use Rattle.tb_supertype.specs.Promise.Supertype.{signed_kind, mixed_kind, wider_kind, common_by_class, class_of, supertype};

use crate::class::{Class, class_of};
use std::alloc::Global;
use tb_value::{DataType, OutOfMemory};

// The narrowest signed type of at least so many bits.
fn signed_type(bits: u32) -> DataType
    ensures { kind_of result ≡ signed_kind bits }
{
    if bits > 64 {
        DataType::Int128
    } else if bits > 32 {
        DataType::Int64
    } else if bits > 16 {
        DataType::Int32
    } else if bits > 8 {
        DataType::Int16
    } else {
        DataType::Int8
    }
}

// The common type of signed and unsigned numbers of so many bits.
fn mixed(signed: u32, unsigned: u32) -> Option<DataType>
    requires { unsigned ≤ 128 }
    ensures { option_map kind_of result ≡ mixed_kind signed unsigned }
{
    if signed == 128 {
        return Some(DataType::Int128);
    }
    if unsigned == 64 {
        return None;
    }
    Some(signed_type(signed.max(2 * unsigned)))
}

// Of two types of whole numbers with one kind of sign, the one of more bits.
fn wider<'a>(first: &'a DataType, second: &'a DataType, bits: u32, other_bits: u32) -> &'a DataType
    ensures { kind_of result.now
        ≡ wider_kind (kind_of first.now) (kind_of second.now) bits other_bits }
{
    if bits < other_bits { second } else { first }
}

fn copied(alloc: Global, dtype: &DataType) -> Result<Option<DataType>, OutOfMemory>
    ensures { IfOk result (λ o. option_map kind_of o ≡ Some (kind_of dtype.now)) }
{
    Ok(Some(dtype.copy(alloc)?))
}

// The common type of two types that differ.
fn common(
    alloc: Global,
    first: &DataType,
    second: &DataType,
) -> Result<Option<DataType>, OutOfMemory>
    ensures { IfOk result (λ o.
        option_map kind_of o
        ≡ common_by_class (kind_of first.now) (kind_of second.now)
        (class_of (kind_of first.now)) (class_of (kind_of second.now))) }
{
    match (class_of(first), class_of(second)) {
        (Class::Nothing, _) => copied(alloc, second),
        (_, Class::Nothing) => copied(alloc, first),
        (Class::Signed(m), Class::Signed(n)) => copied(alloc, wider(first, second, m, n)),
        (Class::Unsigned(m), Class::Unsigned(n)) => copied(alloc, wider(first, second, m, n)),
        (Class::Signed(m), Class::Unsigned(n)) => Ok(mixed(m, n)),
        (Class::Unsigned(m), Class::Signed(n)) => Ok(mixed(n, m)),
        (Class::Truth, Class::Signed(_) | Class::Unsigned(_) | Class::Text) => copied(
            alloc, second,
        ),
        (Class::Signed(_) | Class::Unsigned(_) | Class::Text, Class::Truth) => copied(alloc, first),
        (Class::Signed(_) | Class::Unsigned(_), Class::Text) => copied(alloc, second),
        (Class::Text, Class::Signed(_) | Class::Unsigned(_)) => copied(alloc, first),
        _ => Ok(None),
    }
}

/// The type that both have in common, or none.
///
/// # Errors
///
/// `OutOfMemory` where memory is wanting.
pub fn supertype(
    alloc: Global,
    first: &DataType,
    second: &DataType,
) -> Result<Option<DataType>, OutOfMemory>
    ensures { IfOk result (λ o.
        option_map kind_of o ≡ supertype (kind_of first.now) (kind_of second.now)) }
{
    if first == second {
        return copied(alloc, first);
    }
    common(alloc, first, second)
}
