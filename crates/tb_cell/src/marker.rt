//! The types by which values are stored.
ghost use Rattle.std.specs.Prelude.{◌≡◌};
ghost use Rattle.tb_value.specs.SeeKind.{kind_of};
ghost use Rattle.tb_cell.specs.Physical.{physical};
ghost use Rattle.tb_cell.specs.Physical.{kind_for};

use tb_value::DataType;

/// A type by which values are stored.
#[derive(Clone, Copy, PartialEq, Eq, Debug)]
pub enum Physical {
    Null,
    Boolean,
    Int8,
    Int16,
    Int32,
    Int64,
    Int128,
    UInt8,
    UInt16,
    UInt32,
    UInt64,
    String,
    Binary,
    List,
    Struct,
}

/// The type by which values of a type are stored.
pub fn physical_of(dtype: &DataType) -> Physical
    ensures { kind_for result ≡ physical (kind_of dtype.now) }
{
    match dtype {
        DataType::Null => Physical::Null,
        DataType::Boolean => Physical::Boolean,
        DataType::Int8 => Physical::Int8,
        DataType::Int16 => Physical::Int16,
        DataType::Int32 | DataType::Date => Physical::Int32,
        DataType::Int64 | DataType::Datetime(_, _) | DataType::Duration(_) | DataType::Time => {
            Physical::Int64
        }
        DataType::Int128 => Physical::Int128,
        DataType::UInt8 => Physical::UInt8,
        DataType::UInt16 => Physical::UInt16,
        DataType::UInt32 => Physical::UInt32,
        DataType::UInt64 => Physical::UInt64,
        DataType::String => Physical::String,
        DataType::Binary => Physical::Binary,
        DataType::List(_) => Physical::List,
        DataType::Struct(_) => Physical::Struct,
    }
}
