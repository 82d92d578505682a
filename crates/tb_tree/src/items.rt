//! The values of arrays, lent.
ghost use Rattle.std.specs.Prelude.{◌≡◌, ◌<◌, ◌∷◌, [], get_or, is_some, length, option_and_then, option_map};
ghost use Rattle.serde_json.specs.Find.{as_array, as_bool, as_i64, as_integer, as_null, as_number, as_object, as_str, as_u64, get};
ghost use Rattle.serde_json.specs.View.{items_of};
ghost use Rattle.tb_tree.specs.View.{item_view, listed, members_view, whole};

use crate::value::{Map, Value};

/// The values of an array, by the form in which they stand there.
#[derive(Clone, Copy)]
pub enum Items<'v> {
    /// Two whole numbers.
    Short(i32, i32),
    /// Whole numbers.
    Wholes(&'v [i64]),
    /// Two values.
    Two(&'v Value, &'v Value),
    Values(&'v [Value]),
}

/// A value of an array.
#[derive(Clone, Copy)]
pub enum Item<'v> {
    /// A whole number.
    Whole(i64),
    Lent(&'v Value),
}

impl<'v> Items<'v> {
    pub fn len(self) -> usize
        ensures { result ≡ length (listed self.entry) }
    {
        match self {
            Items::Short(_, _) | Items::Two(_, _) => 2,
            Items::Wholes(numbers) => numbers.len(),
            Items::Values(values) => values.len(),
        }
    }

    /// The value at this place.
    pub fn at(self, place: usize) -> Item<'v>
        requires { place < length (listed self) }
        ensures { item_view result ≡ get_or (listed self.entry) place (item_view result) }
    {
        match self {
            Items::Short(first, second) => Item::Whole(either(place, first, second) as i64),
            Items::Wholes(numbers) => Item::Whole(numbers[place]),
            Items::Two(first, second) => Item::Lent(either(place, first, second)),
            Items::Values(values) => Item::Lent(&values[place]),
        }
    }
}

// The first of two, or the second.
fn either<T: Copy>(place: usize, first: T, second: T) -> T
    ensures { result ≡ get_or (first ∷ second ∷ []) place second }
{
    if place == 0 { first } else { second }
}

impl<'v> Item<'v> {
    pub fn is_null(self) -> bool
        ensures { result ≡ is_some (as_null (item_view self.entry)) }
    {
        match self {
            Item::Whole(_) => false,
            Item::Lent(value) => value.is_null(),
        }
    }

    pub fn as_bool(self) -> Option<bool>
        ensures { result ≡ as_bool (item_view self.entry) }
    {
        match self {
            Item::Whole(_) => None,
            Item::Lent(value) => value.as_bool(),
        }
    }

    pub fn as_i64(self) -> Option<i64>
        ensures { result ≡ option_and_then as_i64 (as_number (item_view self.entry)) }
    {
        match self {
            Item::Whole(number) => Some(number),
            Item::Lent(value) => value.as_i64(),
        }
    }

    pub fn as_u64(self) -> Option<u64>
        ensures { result ≡ option_and_then as_u64 (as_number (item_view self.entry)) }
    {
        match self {
            Item::Whole(number) => unsigned(number),
            Item::Lent(value) => value.as_u64(),
        }
    }

    /// A whole number.
    pub fn as_i128(self) -> Option<i128>
        ensures { result ≡ option_and_then as_integer (as_number (item_view self.entry)) }
    {
        match self {
            Item::Whole(number) => Some(number as i128),
            Item::Lent(value) => value.as_i128(),
        }
    }

    pub fn as_str(self) -> Option<&'v str>
        ensures { option_map (λ s. s.now) result ≡ as_str (item_view self.entry) }
    {
        match self {
            Item::Whole(_) => None,
            Item::Lent(value) => value.as_str(),
        }
    }

    /// The values of an array.
    pub fn as_array(self) -> Option<Items<'v>>
        ensures { option_map (λ s. items_of (listed s)) result ≡ as_array (item_view self.entry) }
    {
        match self {
            Item::Whole(_) => None,
            Item::Lent(value) => value.as_array(),
        }
    }

    pub fn as_object(self) -> Option<&'v Map<String, Value>>
        ensures { option_map (λ m. members_view m.now.entries) result
            ≡ as_object (item_view self.entry) }
    {
        match self {
            Item::Whole(_) => None,
            Item::Lent(value) => value.as_object(),
        }
    }

    /// The member of this name.
    pub fn get(self, name: &str) -> Option<Item<'v>>
        ensures { option_map item_view result ≡ get name.now (item_view self.entry) }
    {
        match self {
            Item::Whole(_) => None,
            Item::Lent(value) => match value.get(name) {
                Some(member) => Some(Item::Lent(member)),
                None => None,
            },
        }
    }
}

fn unsigned(number: i64) -> Option<u64>
    ensures { result ≡ option_and_then as_u64 (as_number (whole number)) }
{
    if number < 0 {
        None
    } else {
        Some(number as u64)
    }
}
