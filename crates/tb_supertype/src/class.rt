//! What a common type depends on.
ghost use Rattle.std.specs.Prelude.{◌≡◌};
ghost use Rattle.tb_value.specs.SeeKind.{kind_of};
ghost use Rattle.tb_supertype.specs.Promise.Supertype.{class_of};

use tb_value::DataType;

/// What a common type depends on: of whole numbers, whether they have a sign, and their bits.
#[derive(Clone, Copy, PartialEq, Eq, Debug)]
pub enum Class {
    Nothing,
    Truth,
    Signed(u32),
    Unsigned(u32),
    Text,
    Other,
}

/// The class of a type.
pub fn class_of(dtype: &DataType) -> Class
    ensures { result ≡ class_of (kind_of dtype.now) }
{
    match dtype {
        DataType::Null => Class::Nothing,
        DataType::Boolean => Class::Truth,
        DataType::Int8 => Class::Signed(8),
        DataType::Int16 => Class::Signed(16),
        DataType::Int32 => Class::Signed(32),
        DataType::Int64 => Class::Signed(64),
        DataType::Int128 => Class::Signed(128),
        DataType::UInt8 => Class::Unsigned(8),
        DataType::UInt16 => Class::Unsigned(16),
        DataType::UInt32 => Class::Unsigned(32),
        DataType::UInt64 => Class::Unsigned(64),
        DataType::String => Class::Text,
        DataType::Binary
        | DataType::Date
        | DataType::Datetime(_, _)
        | DataType::Duration(_)
        | DataType::Time
        | DataType::List(_)
        | DataType::Struct(_) => Class::Other,
    }
}
