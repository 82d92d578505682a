//! Which aggregates there are, and of which types.
ghost use Rattle.std.specs.Prelude.{◌≡◌, is_some, option_map};
ghost use Rattle.tb_value.specs.Promise.Kind as kind;
ghost use Rattle.tb_value.specs.SeeKind.{kind_of};
ghost use Rattle.tb_agg.specs.Promise.Aggregates.{result_kind, sum_kind};

use tb_value::DataType;

/// What one value of a group of values is. Sum, Min and Max skip nulls.
#[derive(Clone, Copy, PartialEq, Eq, Debug)]
pub enum Aggregate {
    /// The value of the group's first row, which may be Null.
    First,
    /// The value of the group's last row, which may be Null.
    Last,
    /// The sum, and 0 of nulls alone. Small whole numbers have sums of 64 bits, and of truth values the true ones are
    /// counted.
    Sum,
    /// The least value, and Null of nulls alone. Texts and bytes go by their bytes, and false before true.
    Min,
    /// The greatest value, as Min.
    Max,
    /// The number of rows, those with nulls too.
    Count,
}

// The type of a number of rows.
pub(crate) fn count_type() -> DataType
    ensures { kind_of result ≡ kind.uint32 }
{
    DataType::UInt32
}

// The type of a sum of values of the type.
pub(crate) fn sum_type(dtype: &DataType) -> Option<DataType>
    ensures { option_map kind_of result ≡ sum_kind (kind_of dtype.now) }
{
    match dtype {
        DataType::Int8 | DataType::Int16 | DataType::UInt8 | DataType::UInt16 => {
            Some(DataType::Int64)
        }
        DataType::Boolean => Some(DataType::UInt32),
        DataType::Int32 => Some(DataType::Int32),
        DataType::Int64 => Some(DataType::Int64),
        DataType::Int128 => Some(DataType::Int128),
        DataType::UInt32 => Some(DataType::UInt32),
        DataType::UInt64 => Some(DataType::UInt64),
        DataType::Duration(unit) => Some(DataType::Duration(*unit)),
        DataType::Null
        | DataType::String
        | DataType::Binary
        | DataType::Date
        | DataType::Datetime(_, _)
        | DataType::Time
        | DataType::List(_)
        | DataType::Struct(_) => None,
    }
}

impl Aggregate {
    /// Whether columns of the type have this aggregate: First, Last and Count of all types, Min and Max of those by which
    /// rows can be joined, Sum of whole numbers, Boolean and Duration.
    pub fn takes(self, dtype: &DataType) -> bool
        ensures { result ≡ is_some (result_kind self (kind_of dtype.now)) }
    {
        match self {
            Aggregate::First | Aggregate::Last | Aggregate::Count => true,
            Aggregate::Min | Aggregate::Max => dtype.is_key(),
            Aggregate::Sum => sum_type(dtype).is_some(),
        }
    }
}
