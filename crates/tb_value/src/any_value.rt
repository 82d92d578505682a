//! Values of columns.
ghost use Rattle.std.specs.Prelude.{◌≡◌, IfOk};
ghost use Rattle.std.specs.Str.{IsUtf8};
ghost use Rattle.tb_value.specs.See.{datum, data_of, lent_value, IsText};

use crate::bytes::Bytes;
use crate::error::OutOfMemory;
use crate::pl_str::PlSmallStr;
use std::alloc::Global;
use std::marker::Model;

/// An own list of values.
#[cycle(value)]
#[derive(Drop)]
pub struct Values {
    pub(crate) items: Vec<AnyValue>,
}

/// A value of a column. Dates and times are whole numbers, as they are stored.
#[cycle(value)]
#[derive(Drop)]
pub enum AnyValue {
    Null,
    Boolean(bool),
    Int(i128),
    String(PlSmallStr),
    Binary(Bytes),
    List(Values),
    Struct(Values),
}

impl Model for Values {
    ghost use Rattle.std.specs.Prelude.{List};
    ghost use Rattle.tb_value.specs.Promise.Datum.{Datum, weights, items_of};
    ghost use Rattle.tb_value.specs.Proved.DatumCode.{coded_data};

    ghost Value = { List Datum };

    ghost coded = { coded_data };

    ghost use Rattle.tb_value.specs.See.{data_of};

    ghost view = { λ v. data_of v.items.items };

    ghost size = { λ vs. weights (items_of vs) };

    ghost use Rattle.tb_value.specs.Proved.Falls.{most_le-weights};

    ghost size_decreases = { λ a h. most_le-weights a.items.items };
}

impl Values {
    /// The values as they are. It takes no memory.
    pub fn from_vec(values: Vec<AnyValue>) -> Values
        ensures { result ≡ data_of values.items }
    {
        Values { items: values }
    }

    /// The values, lent.
    pub fn as_slice(&self) -> &[AnyValue]
        ensures { data_of result.now ≡ self.now }
    {
        self.items.as_slice()
    }

    /// An equal list.
    pub fn copy(&self, alloc: Global) -> Result<Values, OutOfMemory>
        ensures { IfOk result (λ vs. vs ≡ self.now) }
    {
        copy_values(self, alloc)
    }
}

/// A value that borrows its parts. A text is given as its bytes.
#[derive(Clone, Copy)]
pub enum ValueRef<'a> {
    Null,
    Boolean(bool),
    Int(i128),
    String(&'a [u8]),
    Binary(&'a [u8]),
    List(&'a Values),
    Struct(&'a Values),
}

impl AnyValue {
    /// The same value, lent. It takes no memory.
    pub fn as_ref(&self) -> ValueRef<'_>
        ensures value { lent_value result ≡ datum self.now }
        ensures text { IsText result }
    {
        match self {
            AnyValue::Null => ValueRef::Null,
            AnyValue::Boolean(b) => ValueRef::Boolean(*b),
            AnyValue::Int(i) => ValueRef::Int(*i),
            AnyValue::String(s) => ValueRef::String(s.as_str().as_bytes()),
            AnyValue::Binary(s) => ValueRef::Binary(s.as_slice()),
            AnyValue::List(vs) => ValueRef::List(vs),
            AnyValue::Struct(vs) => ValueRef::Struct(vs),
        }
    }
}

impl ValueRef<'_> {
    /// The same value, owned. The bytes of a text are UTF-8.
    pub fn to_value(&self, alloc: Global) -> Result<AnyValue, OutOfMemory>
        requires { IsText self.now }
        ensures { IfOk result (λ v. datum v ≡ lent_value self.now) }
    {
        match *self {
            ValueRef::Null => Ok(AnyValue::Null),
            ValueRef::Boolean(b) => Ok(AnyValue::Boolean(b)),
            ValueRef::Int(i) => Ok(AnyValue::Int(i)),
            ValueRef::String(s) => Ok(AnyValue::String(copy_text(alloc, s)?)),
            ValueRef::Binary(s) => Ok(AnyValue::Binary(Bytes::from_vec(
                alloc,
                Vec::from_slice(alloc, s)?,
            )?)),
            ValueRef::List(vs) => Ok(AnyValue::List(copy_values(vs, alloc)?)),
            ValueRef::Struct(vs) => Ok(AnyValue::Struct(copy_values(vs, alloc)?)),
        }
    }
}

/// The text of these bytes, which are UTF-8.
pub fn copy_text(alloc: Global, bytes: &[u8]) -> Result<PlSmallStr, OutOfMemory>
    requires { IsUtf8 bytes.now }
    ensures { IfOk result (λ s. s ≡ bytes.now) }
{
    match str::from_utf8(bytes) {
        Ok(text) => PlSmallStr::from_str(alloc, text),
        Err(_) => unreachable!(),
    }
}

#[cycle(copy)]
fn copy_value(value: &AnyValue, alloc: Global) -> Result<AnyValue, OutOfMemory>
    ensures { IfOk result (λ v. datum v ≡ datum value.now) }
{
    match value {
        AnyValue::Null => Ok(AnyValue::Null),
        AnyValue::Boolean(b) => Ok(AnyValue::Boolean(*b)),
        AnyValue::Int(i) => Ok(AnyValue::Int(*i)),
        AnyValue::String(s) => Ok(AnyValue::String(s.copy(alloc)?)),
        AnyValue::Binary(s) => Ok(AnyValue::Binary(s.copy(alloc)?)),
        AnyValue::List(vs) => Ok(AnyValue::List(copy_values(vs, alloc)?)),
        AnyValue::Struct(vs) => Ok(AnyValue::Struct(copy_values(vs, alloc)?)),
    }
}

#[cycle(copy)]
fn copy_values(values: &Values, alloc: Global) -> Result<Values, OutOfMemory>
    ensures { IfOk result (λ vs. vs ≡ values.now) }
{
    let mut items = Vec::with_capacity(alloc, values.items.len())?;
    for item in &values.items {
        items.push(copy_value(item, alloc)?)?;
    }
    Ok(Values { items })
}
