//! A value as a typed column stores it.
ghost use Rattle.std.specs.Prelude.{◌≡◌, ◌≢◌, ◌+◌, ◌++◌, ◌≤◌, IfOk, OnOk, None, false, length, map, pos, refl};
ghost use Rattle.tb_value.specs.Promise.Datum.{Datum, null, boolean, int, list, struct, items_of, is_null};
ghost use Rattle.tb_value.specs.Promise.Kind.{Kind};
ghost use Rattle.tb_value.specs.Promise.Kind as kinds;
ghost use Rattle.tb_value.specs.See.{datum, lent_value, IsText};
ghost use Rattle.tb_cell.specs.Fits.{Fits};
ghost use Rattle.tb_value.specs.Promise.Texts.{text_of};

use std::alloc::Global;
use tb_value::{AnyValue, OutOfMemory, ValueRef, Values};

/// A value other than Null, a text and bytes, as a typed column stores it. `shows` is what contracts see of it, and `kind` is the
/// type by which it is stored.
pub trait Cell: Drop {
    ghost shows: { Self → Datum };

    ghost kind: { Kind };

    ghost some: { (cell : Self) → is_null (shows cell) ≡ false };

    ghost no_text: { (cell : Self) → text_of (shows cell) ≡ None };

    /// The value, lent.
    fn lend(&self) -> ValueRef<'_>
        ensures value { lent_value result ≡ shows self.now }
        ensures text { IsText result };

    /// The value, stored. It is not Null, and one that the column can hold.
    fn from_value(alloc: Global, value: &AnyValue) -> Result<Self, OutOfMemory>
        requires fits { Fits kind (datum value.now) }
        requires some { datum value.now ≢ null }
        ensures { IfOk result (λ c. shows c ≡ datum value.now) };

    /// A cell of the same value.
    fn copy(&self, alloc: Global) -> Result<Self, OutOfMemory>
        ensures { IfOk result (λ c. shows c ≡ shows self.now) };

    /// Appends cells of the same values. After a refusal some of them may stand there.
    fn append_copies(alloc: Global, to: &mut Vec<Self>, from: &[Self]) -> Result<(), OutOfMemory>
        ensures ok { OnOk result
            (map shows to.new.items ≡ map shows to.old.items ++ map shows from.now) }
        ensures few { length to.new.items ≤ length to.old.items + length from.now };
}

/// The values of a struct's fields.
#[derive(Drop)]
pub struct FieldValues {
    values: Values,
}

impl Cell for bool {
    ghost shows = { boolean };

    ghost kind = { kinds.boolean };

    ghost some = { λ _. refl };

    ghost no_text = { λ _. refl };

    fn lend(&self) -> ValueRef<'_> {
        ValueRef::Boolean(*self)
    }

    fn from_value(alloc: Global, value: &AnyValue) -> Result<bool, OutOfMemory> {
        match value {
            AnyValue::Boolean(b) => Ok(*b),
            _ => unreachable!(),
        }
    }

    fn copy(&self, alloc: Global) -> Result<bool, OutOfMemory> {
        Ok(*self)
    }

    fn append_copies(alloc: Global, to: &mut Vec<bool>, from: &[bool]) -> Result<(), OutOfMemory> {
        to.extend_from_slice(from)?;
        Ok(())
    }
}

impl Cell for i8 {
    ghost shows = { int };

    ghost kind = { kinds.int8 };

    ghost some = { λ _. refl };

    ghost no_text = { λ _. refl };

    fn lend(&self) -> ValueRef<'_> {
        ValueRef::Int(*self as i128)
    }

    fn from_value(alloc: Global, value: &AnyValue) -> Result<i8, OutOfMemory> {
        match value {
            AnyValue::Int(i) => Ok(*i as i8),
            _ => unreachable!(),
        }
    }

    fn copy(&self, alloc: Global) -> Result<i8, OutOfMemory> {
        Ok(*self)
    }

    fn append_copies(alloc: Global, to: &mut Vec<i8>, from: &[i8]) -> Result<(), OutOfMemory> {
        to.extend_from_slice(from)?;
        Ok(())
    }
}

impl Cell for i16 {
    ghost shows = { int };

    ghost kind = { kinds.int16 };

    ghost some = { λ _. refl };

    ghost no_text = { λ _. refl };

    fn lend(&self) -> ValueRef<'_> {
        ValueRef::Int(*self as i128)
    }

    fn from_value(alloc: Global, value: &AnyValue) -> Result<i16, OutOfMemory> {
        match value {
            AnyValue::Int(i) => Ok(*i as i16),
            _ => unreachable!(),
        }
    }

    fn copy(&self, alloc: Global) -> Result<i16, OutOfMemory> {
        Ok(*self)
    }

    fn append_copies(alloc: Global, to: &mut Vec<i16>, from: &[i16]) -> Result<(), OutOfMemory> {
        to.extend_from_slice(from)?;
        Ok(())
    }
}

impl Cell for i32 {
    ghost shows = { int };

    ghost kind = { kinds.int32 };

    ghost some = { λ _. refl };

    ghost no_text = { λ _. refl };

    fn lend(&self) -> ValueRef<'_> {
        ValueRef::Int(*self as i128)
    }

    fn from_value(alloc: Global, value: &AnyValue) -> Result<i32, OutOfMemory> {
        match value {
            AnyValue::Int(i) => Ok(*i as i32),
            _ => unreachable!(),
        }
    }

    fn copy(&self, alloc: Global) -> Result<i32, OutOfMemory> {
        Ok(*self)
    }

    fn append_copies(alloc: Global, to: &mut Vec<i32>, from: &[i32]) -> Result<(), OutOfMemory> {
        to.extend_from_slice(from)?;
        Ok(())
    }
}

impl Cell for i64 {
    ghost shows = { int };

    ghost kind = { kinds.int64 };

    ghost some = { λ _. refl };

    ghost no_text = { λ _. refl };

    fn lend(&self) -> ValueRef<'_> {
        ValueRef::Int(*self as i128)
    }

    fn from_value(alloc: Global, value: &AnyValue) -> Result<i64, OutOfMemory> {
        match value {
            AnyValue::Int(i) => Ok(*i as i64),
            _ => unreachable!(),
        }
    }

    fn copy(&self, alloc: Global) -> Result<i64, OutOfMemory> {
        Ok(*self)
    }

    fn append_copies(alloc: Global, to: &mut Vec<i64>, from: &[i64]) -> Result<(), OutOfMemory> {
        to.extend_from_slice(from)?;
        Ok(())
    }
}

impl Cell for i128 {
    ghost shows = { int };

    ghost kind = { kinds.int128 };

    ghost some = { λ _. refl };

    ghost no_text = { λ _. refl };

    fn lend(&self) -> ValueRef<'_> {
        ValueRef::Int(*self)
    }

    fn from_value(alloc: Global, value: &AnyValue) -> Result<i128, OutOfMemory> {
        match value {
            AnyValue::Int(i) => Ok(*i),
            _ => unreachable!(),
        }
    }

    fn copy(&self, alloc: Global) -> Result<i128, OutOfMemory> {
        Ok(*self)
    }

    fn append_copies(alloc: Global, to: &mut Vec<i128>, from: &[i128]) -> Result<(), OutOfMemory> {
        to.extend_from_slice(from)?;
        Ok(())
    }
}

impl Cell for u8 {
    ghost shows = { λ n. int (pos n) };

    ghost kind = { kinds.uint8 };

    ghost some = { λ _. refl };

    ghost no_text = { λ _. refl };

    fn lend(&self) -> ValueRef<'_> {
        ValueRef::Int(*self as i128)
    }

    fn from_value(alloc: Global, value: &AnyValue) -> Result<u8, OutOfMemory> {
        match value {
            AnyValue::Int(i) => Ok(*i as u8),
            _ => unreachable!(),
        }
    }

    fn copy(&self, alloc: Global) -> Result<u8, OutOfMemory> {
        Ok(*self)
    }

    fn append_copies(alloc: Global, to: &mut Vec<u8>, from: &[u8]) -> Result<(), OutOfMemory> {
        to.extend_from_slice(from)?;
        Ok(())
    }
}

impl Cell for u16 {
    ghost shows = { λ n. int (pos n) };

    ghost kind = { kinds.uint16 };

    ghost some = { λ _. refl };

    ghost no_text = { λ _. refl };

    fn lend(&self) -> ValueRef<'_> {
        ValueRef::Int(*self as i128)
    }

    fn from_value(alloc: Global, value: &AnyValue) -> Result<u16, OutOfMemory> {
        match value {
            AnyValue::Int(i) => Ok(*i as u16),
            _ => unreachable!(),
        }
    }

    fn copy(&self, alloc: Global) -> Result<u16, OutOfMemory> {
        Ok(*self)
    }

    fn append_copies(alloc: Global, to: &mut Vec<u16>, from: &[u16]) -> Result<(), OutOfMemory> {
        to.extend_from_slice(from)?;
        Ok(())
    }
}

impl Cell for u32 {
    ghost shows = { λ n. int (pos n) };

    ghost kind = { kinds.uint32 };

    ghost some = { λ _. refl };

    ghost no_text = { λ _. refl };

    fn lend(&self) -> ValueRef<'_> {
        ValueRef::Int(*self as i128)
    }

    fn from_value(alloc: Global, value: &AnyValue) -> Result<u32, OutOfMemory> {
        match value {
            AnyValue::Int(i) => Ok(*i as u32),
            _ => unreachable!(),
        }
    }

    fn copy(&self, alloc: Global) -> Result<u32, OutOfMemory> {
        Ok(*self)
    }

    fn append_copies(alloc: Global, to: &mut Vec<u32>, from: &[u32]) -> Result<(), OutOfMemory> {
        to.extend_from_slice(from)?;
        Ok(())
    }
}

impl Cell for u64 {
    ghost shows = { λ n. int (pos n) };

    ghost kind = { kinds.uint64 };

    ghost some = { λ _. refl };

    ghost no_text = { λ _. refl };

    fn lend(&self) -> ValueRef<'_> {
        ValueRef::Int(*self as i128)
    }

    fn from_value(alloc: Global, value: &AnyValue) -> Result<u64, OutOfMemory> {
        match value {
            AnyValue::Int(i) => Ok(*i as u64),
            _ => unreachable!(),
        }
    }

    fn copy(&self, alloc: Global) -> Result<u64, OutOfMemory> {
        Ok(*self)
    }

    fn append_copies(alloc: Global, to: &mut Vec<u64>, from: &[u64]) -> Result<(), OutOfMemory> {
        to.extend_from_slice(from)?;
        Ok(())
    }
}

impl Cell for Values {
    ghost shows = { λ vs. list (items_of vs) };

    ghost kind = { kinds.list kinds.null };

    ghost some = { λ _. refl };

    ghost no_text = { λ _. refl };

    fn lend(&self) -> ValueRef<'_> {
        ValueRef::List(self)
    }

    fn from_value(alloc: Global, value: &AnyValue) -> Result<Values, OutOfMemory> {
        match value {
            AnyValue::List(vs) => vs.copy(alloc),
            _ => unreachable!(),
        }
    }

    fn copy(&self, alloc: Global) -> Result<Values, OutOfMemory> {
        self.copy(alloc)
    }

    fn append_copies(
        alloc: Global,
        to: &mut Vec<Values>,
        from: &[Values],
    ) -> Result<(), OutOfMemory> {
        for values in from {
            to.push(values.copy(alloc)?)?;
        }
        Ok(())
    }
}

impl Cell for FieldValues {
    ghost shows = { λ s. struct (items_of s.values) };

    ghost kind = { kinds.struct kinds.end };

    ghost some = { λ _. refl };

    ghost no_text = { λ _. refl };

    fn lend(&self) -> ValueRef<'_> {
        ValueRef::Struct(&self.values)
    }

    fn from_value(alloc: Global, value: &AnyValue) -> Result<FieldValues, OutOfMemory> {
        match value {
            AnyValue::Struct(vs) => Ok(FieldValues {
                values: vs.copy(alloc)?,
            }),
            _ => unreachable!(),
        }
    }

    fn copy(&self, alloc: Global) -> Result<FieldValues, OutOfMemory> {
        Ok(FieldValues {
            values: self.values.copy(alloc)?,
        })
    }

    fn append_copies(
        alloc: Global,
        to: &mut Vec<FieldValues>,
        from: &[FieldValues],
    ) -> Result<(), OutOfMemory> {
        for fields in from {
            to.push(FieldValues {
                values: fields.values.copy(alloc)?,
            })?;
        }
        Ok(())
    }
}
