//! Types of columns.
ghost use Rattle.std.specs.Prelude.{◌≡◌, IfOk, map};
ghost use Rattle.tb_value.specs.SeeKind.{kind_of, part, parts};

use crate::error::OutOfMemory;
use crate::pl_str::PlSmallStr;
use std::alloc::Global;

/// What the whole number of a date and time or of a duration counts.
#[derive(Clone, Copy, PartialEq, Eq, Debug)]
pub enum TimeUnit {
    Nanoseconds,
    Microseconds,
    Milliseconds,
}

/// A type of columns. The time zone of a Datetime is a label that is only compared.
#[cycle(dtype)]
#[derive(Drop)]
pub enum DataType {
    Null,
    Boolean,
    Int8,
    Int16,
    Int32,
    Int64,
    Int128,
    UInt8,
    UInt16,
    UInt32,
    UInt64,
    String,
    Binary,
    Date,
    Datetime(TimeUnit, Option<PlSmallStr>),
    Duration(TimeUnit),
    Time,
    List(Box<DataType>),
    Struct(Fields),
}

// The types that hold nothing further, as a pattern.
macro_rules! plain_type {
    () => {
        DataType::Null
            | DataType::Boolean
            | DataType::Int8
            | DataType::Int16
            | DataType::Int32
            | DataType::Int64
            | DataType::Int128
            | DataType::UInt8
            | DataType::UInt16
            | DataType::UInt32
            | DataType::UInt64
            | DataType::String
            | DataType::Binary
            | DataType::Date
            | DataType::Time
    };
}

pub(crate) use plain_type;

/// A field of a struct.
#[cycle(dtype)]
#[derive(Drop)]
pub struct Field {
    pub name: PlSmallStr,
    pub dtype: DataType,
}

/// The fields of a struct, in order.
#[cycle(dtype)]
#[derive(Drop)]
pub struct Fields {
    pub(crate) items: Vec<Field>,
}

impl Fields {
    /// The fields as they are. It takes no memory.
    pub fn from_vec(fields: Vec<Field>) -> Fields
        ensures { parts result ≡ map part fields.items }
    {
        Fields { items: fields }
    }

    /// The fields, lent.
    pub fn as_slice(&self) -> &[Field]
        ensures { map part result.now ≡ parts self.now }
    {
        self.items.as_slice()
    }

    /// Equal fields.
    pub fn copy(&self, alloc: Global) -> Result<Fields, OutOfMemory>
        ensures { IfOk result (λ f. parts f ≡ parts self.now) }
    {
        copy_fields(self, alloc)
    }
}

impl Field {
    /// An equal field.
    pub fn copy(&self, alloc: Global) -> Result<Field, OutOfMemory>
        ensures { IfOk result (λ f. part f ≡ part self.now) }
    {
        copy_field(self, alloc)
    }
}

impl DataType {
    /// An equal type.
    pub fn copy(&self, alloc: Global) -> Result<DataType, OutOfMemory>
        ensures { IfOk result (λ d. kind_of d ≡ kind_of self.now) }
    {
        copy_type(self, alloc)
    }
}

fn copy_zone(zone: &Option<PlSmallStr>, alloc: Global) -> Result<Option<PlSmallStr>, OutOfMemory>
    ensures { IfOk result (λ z. z ≡ zone.now) }
{
    match zone {
        None => Ok(None),
        Some(name) => Ok(Some(name.copy(alloc)?)),
    }
}

#[cycle(copy)]
fn copy_type(dtype: &DataType, alloc: Global) -> Result<DataType, OutOfMemory>
    ensures { IfOk result (λ d. kind_of d ≡ kind_of dtype.now) }
{
    match dtype {
        DataType::Null => Ok(DataType::Null),
        DataType::Boolean => Ok(DataType::Boolean),
        DataType::Int8 => Ok(DataType::Int8),
        DataType::Int16 => Ok(DataType::Int16),
        DataType::Int32 => Ok(DataType::Int32),
        DataType::Int64 => Ok(DataType::Int64),
        DataType::Int128 => Ok(DataType::Int128),
        DataType::UInt8 => Ok(DataType::UInt8),
        DataType::UInt16 => Ok(DataType::UInt16),
        DataType::UInt32 => Ok(DataType::UInt32),
        DataType::UInt64 => Ok(DataType::UInt64),
        DataType::String => Ok(DataType::String),
        DataType::Binary => Ok(DataType::Binary),
        DataType::Date => Ok(DataType::Date),
        DataType::Datetime(unit, zone) => Ok(DataType::Datetime(*unit, copy_zone(zone, alloc)?)),
        DataType::Duration(unit) => Ok(DataType::Duration(*unit)),
        DataType::Time => Ok(DataType::Time),
        DataType::List(inner) => Ok(DataType::List(Box::new(alloc, copy_type(inner, alloc)?)?)),
        DataType::Struct(fields) => Ok(DataType::Struct(copy_fields(fields, alloc)?)),
    }
}

#[cycle(copy)]
fn copy_field(field: &Field, alloc: Global) -> Result<Field, OutOfMemory>
    ensures { IfOk result (λ f. part f ≡ part field.now) }
{
    let name = field.name.copy(alloc)?;
    let dtype = copy_type(&field.dtype, alloc)?;
    Ok(Field { name, dtype })
}

#[cycle(copy)]
fn copy_fields(fields: &Fields, alloc: Global) -> Result<Fields, OutOfMemory>
    ensures { IfOk result (λ f. parts f ≡ parts fields.now) }
{
    let mut items = Vec::with_capacity(alloc, fields.items.len())?;
    for field in &fields.items {
        items.push(copy_field(field, alloc)?)?;
    }
    Ok(Fields { items })
}
