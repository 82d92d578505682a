//! JSON values, and what stands in them.
ghost use Rattle.std.specs.Prelude.{◌≡◌, ◌++◌, ◌∷◌, [], is_some, map, option_map, option_and_then, IfOk, IfSome, MatchResult};
ghost use Rattle.serde_json.specs.Find.{as_null, as_bool, as_number, as_str, as_array, as_object, as_i64, as_u64, as_integer, get, get_member};
ghost use Rattle.serde_json.specs.View.{items_of};
ghost use Rattle.tb_tree.specs.View.{view, item_view, items_view, listed, members_view, pair_of, two_of, whole};

use crate::items::{Item, Items};
use arrayvec::ArrayString;
use std::alloc::{AllocError, Global};
use std::collections::BTreeMap;
use std::slice;

/// The members of an object, in the order of their names.
pub type Map<K, V> = BTreeMap<K, V>;

/// The most bytes of a text that lies in one piece of memory.
pub(crate) const SHORT: usize = 32;

/// A JSON value. What takes more than 8 bytes stands in a box, so that a value takes 16. An array has several forms, of which
/// a reader takes the smallest: `as_array` lends the values of each.
#[derive(Drop)]
pub enum Value {
    Null,
    Bool(bool),
    /// A whole number that isn't negative.
    Unsigned(u64),
    Negative(i64),
    /// Any other number.
    Float(f64),
    /// A text, where it is short.
    Short(Box<ArrayString<SHORT>>),
    /// A longer text.
    Long(Box<String>),
    /// An array without values.
    Empty,
    /// An array of one whole number.
    OneWhole(i64),
    /// An array of two whole numbers of 32 bits.
    TwoShort(i32, i32),
    /// An array of whole numbers.
    Wholes(Box<Vec<i64>>),
    /// An array of one value.
    One(Box<Value>),
    /// An array of two values.
    Two(Box<(Value, Value)>),
    /// An array of any values.
    Array(Box<Vec<Value>>),
    Object(Box<Map<String, Value>>),
}

impl Value {
    /// A whole number.
    pub fn whole(number: i64) -> Value
        ensures { view result ≡ whole number }
    {
        if number < 0 {
            Value::Negative(number)
        } else {
            Value::Unsigned(number as u64)
        }
    }

    // The whole number that the value is, where it is one as `whole` makes them.
    #[inline(always)]
    pub(crate) fn as_whole(&self) -> Option<i64>
        ensures { IfSome result (λ n. view self.now ≡ whole n) }
    {
        match self {
            Value::Unsigned(n) if *n < 1 << 63 => Some(*n as i64),
            Value::Negative(n) if *n < 0 => Some(*n),
            _ => None,
        }
    }

    // The same, or else the value again.
    pub(crate) fn into_whole(self) -> Result<i64, Value>
        ensures { MatchResult result (λ n. view self ≡ whole n) (λ v. v ≡ self) }
    {
        match self.as_whole() {
            Some(number) => Ok(number),
            None => Err(self),
        }
    }

    // The same, where it has 32 bits.
    #[inline(always)]
    pub(crate) fn as_short(&self) -> Option<i32>
        ensures { IfSome result (λ n. view self.now ≡ whole n) }
    {
        i32::try_from(self.as_whole()?).ok()
    }

    pub fn is_null(&self) -> bool
        ensures { result ≡ is_some (as_null (view self.now)) }
    {
        match self {
            Value::Null => true,
            _ => false,
        }
    }

    pub fn as_bool(&self) -> Option<bool>
        ensures { result ≡ as_bool (view self.now) }
    {
        match self {
            Value::Bool(b) => Some(*b),
            _ => None,
        }
    }

    pub fn as_i64(&self) -> Option<i64>
        ensures { result ≡ option_and_then as_i64 (as_number (view self.now)) }
    {
        match self {
            Value::Unsigned(n) if *n < 1 << 63 => Some(*n as i64),
            Value::Negative(n) => Some(*n),
            _ => None,
        }
    }

    pub fn as_u64(&self) -> Option<u64>
        ensures { result ≡ option_and_then as_u64 (as_number (view self.now)) }
    {
        match self {
            Value::Unsigned(n) => Some(*n),
            _ => None,
        }
    }

    /// A whole number.
    pub fn as_i128(&self) -> Option<i128>
        ensures { result ≡ option_and_then as_integer (as_number (view self.now)) }
    {
        match self {
            Value::Unsigned(n) => Some(*n as i128),
            Value::Negative(n) => Some(*n as i128),
            _ => None,
        }
    }

    pub fn as_str(&self) -> Option<&str>
        ensures { option_map (λ s. s.now) result ≡ as_str (view self.now) }
    {
        match self {
            Value::Short(text) => Some(text.as_str()),
            Value::Long(text) => Some(text.as_str()),
            _ => None,
        }
    }

    /// The values of an array.
    pub fn as_array(&self) -> Option<Items<'_>>
        ensures { option_map (λ s. items_of (listed s)) result ≡ as_array (view self.now) }
    {
        match self {
            Value::Empty => Some(Items::Values(&[])),
            Value::OneWhole(n) => Some(Items::Wholes(slice::from_ref(n))),
            Value::Wholes(numbers) => Some(Items::Wholes(numbers.as_slice())),
            Value::One(value) => Some(Items::Values(slice::from_ref(&**value))),
            Value::TwoShort(first, second) => Some(Items::Short(*first, *second)),
            Value::Two(pair) => Some(Items::Two(&pair.0, &pair.1)),
            Value::Array(values) => Some(Items::Values(values.as_slice())),
            _ => None,
        }
    }

    /// The values of an array of two, lent.
    pub fn as_pair(&self) -> Option<(Item<'_>, Item<'_>)>
        ensures { option_map (λ p. (item_view p.0, item_view p.1)) result
            ≡ pair_of (view self.now) }
    {
        match self {
            Value::TwoShort(first, second) => {
                Some((Item::Whole(*first as i64), Item::Whole(*second as i64)))
            }
            Value::Two(pair) => Some((Item::Lent(&pair.0), Item::Lent(&pair.1))),
            Value::Wholes(numbers) => pair_of_wholes(numbers.as_slice()),
            Value::Array(values) => pair_of_values(values.as_slice()),
            _ => None,
        }
    }

    pub fn as_object(&self) -> Option<&Map<String, Value>>
        ensures { option_map (λ m. members_view m.now.entries) result ≡ as_object (view self.now) }
    {
        match self {
            Value::Object(members) => Some(&**members),
            _ => None,
        }
    }

    /// The member of this name.
    pub fn get(&self, name: &str) -> Option<&Value>
        ensures { option_map (λ v. view v.now) result ≡ get name.now (view self.now) }
    {
        match self {
            Value::Object(members) => member(members, name),
            _ => None,
        }
    }

    /// The values of an array. Takes memory for them where they don't stand in a list of values yet.
    pub fn into_array(self, alloc: Global) -> Result<Option<Vec<Value>>, AllocError>
        ensures { IfOk result (λ o. option_map (λ v. items_view v.items) o ≡ as_array (view self)) }
    {
        match self {
            Value::Empty => Ok(Some(Vec::new(alloc))),
            Value::OneWhole(number) => Ok(Some(spread(alloc, &[number])?)),
            Value::TwoShort(first, second) => {
                Ok(Some(spread(alloc, &[first as i64, second as i64])?))
            }
            Value::Wholes(numbers) => Ok(Some(spread(alloc, numbers.as_slice())?)),
            Value::One(value) => Ok(Some(vec![in alloc; Box::into_inner(value)]?)),
            Value::Two(pair) => Ok(Some(list_of_two(alloc, Box::into_inner(pair))?)),
            Value::Array(values) => Ok(Some(Box::into_inner(values))),
            _ => Ok(None),
        }
    }

    /// The members of an object.
    pub fn into_object(self) -> Option<Map<String, Value>>
        ensures { option_map (λ m. members_view m.entries) result ≡ as_object (view self) }
    {
        match self {
            Value::Object(members) => Some(Box::into_inner(members)),
            _ => None,
        }
    }
}

fn member<'v>(members: &'v Map<String, Value>, name: &str) -> Option<&'v Value>
    ensures { option_map (λ v. view v.now) result
        ≡ get_member name.now (members_view members.now.entries) }
{
    members.get(name)
}

// Whole numbers as values.
pub(crate) fn spread(alloc: Global, numbers: &[i64]) -> Result<Vec<Value>, AllocError>
    ensures { IfOk result (λ v. map view v.items ≡ map whole numbers.now) }
{
    let mut values = Vec::with_capacity(alloc, numbers.len())?;
    for number in numbers {
        values.push(Value::whole(*number))?;
    }
    Ok(values)
}

// Whole numbers as values, and a value behind them.
pub(crate) fn spread_before(
    alloc: Global,
    numbers: Vec<i64>,
    last: Value,
) -> Result<Vec<Value>, AllocError>
    ensures { IfOk result (λ v. map view v.items ≡ map whole numbers.items ++ view last ∷ []) }
{
    let mut values = spread(alloc, numbers.as_slice())?;
    values.push(last)?;
    Ok(values)
}

pub(crate) fn list_of_two(alloc: Global, pair: (Value, Value)) -> Result<Vec<Value>, AllocError>
    ensures { IfOk result (λ v. v.items ≡ pair.0 ∷ pair.1 ∷ []) }
{
    let (first, second) = pair;
    Ok(vec![in alloc; first, second]?)
}

fn pair_of_wholes<'v>(numbers: &'v [i64]) -> Option<(Item<'v>, Item<'v>)>
    ensures { option_map (λ p. (item_view p.0, item_view p.1)) result
        ≡ two_of (items_of (map whole numbers.now)) }
{
    match numbers {
        [first, second] => Some((Item::Whole(*first), Item::Whole(*second))),
        _ => None,
    }
}

fn pair_of_values<'v>(values: &'v [Value]) -> Option<(Item<'v>, Item<'v>)>
    ensures { option_map (λ p. (item_view p.0, item_view p.1)) result
        ≡ two_of (items_view values.now) }
{
    match values {
        [first, second] => Some((Item::Lent(first), Item::Lent(second))),
        _ => None,
    }
}
