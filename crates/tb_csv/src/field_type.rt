//! The types that fields are read as.
ghost use Rattle.std.specs.Prelude.{◌≡◌};
ghost use Rattle.tb_value.specs.SeeKind.{kind_of};
ghost use Rattle.tb_csv.specs.Promise.Texts.{field_type};
ghost use Rattle.tb_csv.specs.Promise.Types.{kind_at};

use tb_value::DataType;

/// A type that the fields of a column can be read as.
#[derive(Clone, Copy, PartialEq, Eq, Debug)]
pub enum FieldType {
    /// `true` or `false`.
    Boolean,
    /// Decimal digits with no 0 before them, with `-` in front where the number is negative, as for each type of whole
    /// numbers.
    Int8,
    Int16,
    Int32,
    Int64,
    Int128,
    UInt8,
    UInt16,
    UInt32,
    UInt64,
    /// Any text of fewer than 2^32 bytes.
    String,
    /// A day of the calendar, from `0000-01-01` to `9999-12-31`.
    Date,
}

impl FieldType {
    /// The type of a column whose fields are read so.
    pub fn data_type(self) -> DataType
        ensures { kind_of result ≡ kind_at self }
    {
        match self {
            FieldType::Boolean => DataType::Boolean,
            FieldType::Int8 => DataType::Int8,
            FieldType::Int16 => DataType::Int16,
            FieldType::Int32 => DataType::Int32,
            FieldType::Int64 => DataType::Int64,
            FieldType::Int128 => DataType::Int128,
            FieldType::UInt8 => DataType::UInt8,
            FieldType::UInt16 => DataType::UInt16,
            FieldType::UInt32 => DataType::UInt32,
            FieldType::UInt64 => DataType::UInt64,
            FieldType::String => DataType::String,
            FieldType::Date => DataType::Date,
        }
    }

    /// The type that fields of values of this type are read as, or None where such values have no text form.
    pub fn of(dtype: &DataType) -> Option<FieldType>
        ensures { result ≡ field_type (kind_of dtype.now) }
    {
        match dtype {
            DataType::Boolean => Some(FieldType::Boolean),
            DataType::Int8 => Some(FieldType::Int8),
            DataType::Int16 => Some(FieldType::Int16),
            DataType::Int32 => Some(FieldType::Int32),
            DataType::Int64 => Some(FieldType::Int64),
            DataType::Int128 => Some(FieldType::Int128),
            DataType::UInt8 => Some(FieldType::UInt8),
            DataType::UInt16 => Some(FieldType::UInt16),
            DataType::UInt32 => Some(FieldType::UInt32),
            DataType::UInt64 => Some(FieldType::UInt64),
            DataType::String => Some(FieldType::String),
            DataType::Date => Some(FieldType::Date),
            DataType::Null
            | DataType::Binary
            | DataType::Datetime(_, _)
            | DataType::Duration(_)
            | DataType::Time
            | DataType::List(_)
            | DataType::Struct(_) => None,
        }
    }
}
