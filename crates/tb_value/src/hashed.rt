//! Hashes of values: equal values are fed alike.
ghost use Rattle.std.specs.Prelude.{◌≡◌, fold};
ghost use Rattle.tb_value.specs.Promise.Datum.{items_of};
ghost use Rattle.tb_value.specs.Fed.{fed_datum, fed_items};
ghost use Rattle.tb_value.specs.See.{lent_value};

use crate::any_value::{AnyValue, ValueRef, Values};
use std::hash::{Hash, Hasher};

/// Feeds what an equal value that is owned feeds, so that one can be looked for by the other.
#[cycle(hashed)]
pub fn hash_ref<H: Hasher>(value: ValueRef<'_>, state: &mut H)
    ensures { state.new ≡ fold H.write state.old (fed_datum (lent_value value.entry)) }
{
    match value {
        ValueRef::Null => state.write_u8(0),
        ValueRef::Boolean(b) => {
            state.write_u8(1);
            b.hash(state);
        }
        ValueRef::Int(i) => {
            state.write_u8(2);
            i.hash(state);
        }
        ValueRef::String(s) => {
            state.write_u8(3);
            state.write(s);
            state.write_u8(255);
        }
        ValueRef::Binary(s) => {
            state.write_u8(4);
            s.hash(state);
        }
        ValueRef::List(vs) => {
            state.write_u8(5);
            hash_values(vs, state);
        }
        ValueRef::Struct(vs) => {
            state.write_u8(6);
            hash_values(vs, state);
        }
    }
}

#[cycle(hashed)]
fn hash_values<H: Hasher>(values: &Values, state: &mut H)
    ensures { state.new ≡ fold H.write state.old (fed_items (items_of values.now)) }
{
    state.write_usize(values.items.len());
    for value in &values.items {
        hash_ref(value.as_ref(), state);
    }
}

impl Hash for AnyValue {
    ghost use Rattle.std.specs.Hash.{same_Alike, on_Alike};
    ghost use Rattle.tb_value.specs.Fed.{fed_datum};
    ghost use Rattle.tb_value.specs.Proved.ValueTests.{same-Decides};
    ghost use Rattle.tb_value.specs.See.{datum};

    ghost hash_input = { λ v. fed_datum (datum v) };

    ghost respects_eq = { (on_Alike datum (same_Alike fed_datum same-Decides)).fed };

    fn hash<H: Hasher>(&self, state: &mut H) {
        hash_ref(self.as_ref(), state);
    }
}

impl Hash for Values {
    ghost use Rattle.std.specs.Hash.{same_Alike, on_Alike};
    ghost use Rattle.tb_value.specs.Promise.Datum.{items_of};
    ghost use Rattle.tb_value.specs.Fed.{fed_items};
    ghost use Rattle.tb_value.specs.Proved.ValueTests.{items-Decides};

    ghost hash_input = { λ vs. fed_items (items_of vs) };

    ghost respects_eq = { (on_Alike items_of (same_Alike fed_items items-Decides)).fed };

    fn hash<H: Hasher>(&self, state: &mut H) {
        hash_values(self, state);
    }
}
