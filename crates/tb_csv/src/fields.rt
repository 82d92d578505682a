//! Fields, read as values of a type.
ghost use Rattle.std.specs.Prelude.{◌≡◌, false, option_map, refl, IfSome};
ghost use Rattle.std.specs.Fmt.{signed_decimal};
ghost use Rattle.tb_value.specs.Promise.Datum.{Datum, boolean};
ghost use Rattle.tb_value.specs.Promise.Kind.{Kind};
ghost use Rattle.tb_value.specs.Promise.Kind as kind;
ghost use Rattle.tb_value.specs.Promise.Typed.{HasType};
ghost use Rattle.tb_chunk.specs.Col.{physical};
ghost use Rattle.tb_csv.specs.Promise.Types.{field_value, kind_at, truth_in};
ghost use Rattle.tb_csv.specs.Types.{is_string};

use crate::field_type::FieldType;
use itoa::Buffer;
use tb_date::date_in;
use tb_label::whole_in;
use tb_store::Cell;

/// A value as a typed column stores it, read from a field. `stored` is the type that it is stored as, which is not String: texts
/// are no cells.
pub(crate) trait ReadField: Cell {
    ghost stored: { Kind };

    /// The value of a text, or None where it is none of the type.
    fn read(field_type: FieldType, field: &str) -> Option<Self>
        requires { physical (kind_at field_type) ≡ stored }
        ensures value { option_map Self.shows result ≡ field_value field_type field.now }
        ensures typed { IfSome result (λ c. HasType (kind_at field_type) (Self.shows c)) };

    /// The same of the text that a number is written as.
    fn of_number(field_type: FieldType, number: i64) -> Option<Self>
        requires { physical (kind_at field_type) ≡ stored }
        ensures value { option_map Self.shows result
            ≡ field_value field_type (signed_decimal number) }
        ensures typed { IfSome result (λ c. HasType (kind_at field_type) (Self.shows c)) };

    ghost no_text: { is_string stored ≡ false };
}

fn truth_in(field: &str) -> Option<bool>
    ensures { option_map boolean result ≡ truth_in field.now }
{
    if field == "true" {
        Some(true)
    } else if field == "false" {
        Some(false)
    } else {
        None
    }
}

impl ReadField for bool {
    ghost stored = { kind.boolean };

    ghost no_text = { refl };

    fn read(field_type: FieldType, field: &str) -> Option<bool> {
        truth_in(field)
    }

    fn of_number(field_type: FieldType, number: i64) -> Option<bool> {
        truth_in(Buffer::new().format(number))
    }
}

impl ReadField for i8 {
    ghost stored = { kind.int8 };

    ghost no_text = { refl };

    fn read(field_type: FieldType, field: &str) -> Option<i8> {
        whole_in(field).and_then(|number| i8::try_from(number).ok())
    }

    #[tactic(auto, using(crate::proofs::NumberWalks::number_back))]
    fn of_number(field_type: FieldType, number: i64) -> Option<i8> {
        i8::try_from(number).ok()
    }
}

impl ReadField for i16 {
    ghost stored = { kind.int16 };

    ghost no_text = { refl };

    fn read(field_type: FieldType, field: &str) -> Option<i16> {
        whole_in(field).and_then(|number| i16::try_from(number).ok())
    }

    #[tactic(auto, using(crate::proofs::NumberWalks::number_back))]
    fn of_number(field_type: FieldType, number: i64) -> Option<i16> {
        i16::try_from(number).ok()
    }
}

impl ReadField for i32 {
    ghost stored = { kind.int32 };

    ghost no_text = { refl };

    fn read(field_type: FieldType, field: &str) -> Option<i32> {
        match field_type {
            FieldType::Date => date_in(field),
            _ => whole_in(field).and_then(|number| i32::try_from(number).ok()),
        }
    }

    #[tactic(auto, using(crate::proofs::NumberWalks::number_back))]
    fn of_number(field_type: FieldType, number: i64) -> Option<i32> {
        match field_type {
            FieldType::Date => date_in(Buffer::new().format(number)),
            _ => i32::try_from(number).ok(),
        }
    }
}

impl ReadField for i64 {
    ghost stored = { kind.int64 };

    ghost no_text = { refl };

    fn read(field_type: FieldType, field: &str) -> Option<i64> {
        whole_in(field).and_then(|number| i64::try_from(number).ok())
    }

    #[tactic(auto, using(crate::proofs::NumberWalks::number_back))]
    fn of_number(field_type: FieldType, number: i64) -> Option<i64> {
        Some(number)
    }
}

impl ReadField for i128 {
    ghost stored = { kind.int128 };

    ghost no_text = { refl };

    fn read(field_type: FieldType, field: &str) -> Option<i128> {
        whole_in(field)
    }

    #[tactic(auto, using(crate::proofs::NumberWalks::number_back))]
    fn of_number(field_type: FieldType, number: i64) -> Option<i128> {
        Some(i128::from(number))
    }
}

impl ReadField for u8 {
    ghost stored = { kind.uint8 };

    ghost no_text = { refl };

    fn read(field_type: FieldType, field: &str) -> Option<u8> {
        whole_in(field).and_then(|number| u8::try_from(number).ok())
    }

    #[tactic(auto, using(crate::proofs::NumberWalks::number_back))]
    fn of_number(field_type: FieldType, number: i64) -> Option<u8> {
        u8::try_from(number).ok()
    }
}

impl ReadField for u16 {
    ghost stored = { kind.uint16 };

    ghost no_text = { refl };

    fn read(field_type: FieldType, field: &str) -> Option<u16> {
        whole_in(field).and_then(|number| u16::try_from(number).ok())
    }

    #[tactic(auto, using(crate::proofs::NumberWalks::number_back))]
    fn of_number(field_type: FieldType, number: i64) -> Option<u16> {
        u16::try_from(number).ok()
    }
}

impl ReadField for u32 {
    ghost stored = { kind.uint32 };

    ghost no_text = { refl };

    fn read(field_type: FieldType, field: &str) -> Option<u32> {
        whole_in(field).and_then(|number| u32::try_from(number).ok())
    }

    #[tactic(auto, using(crate::proofs::NumberWalks::number_back))]
    fn of_number(field_type: FieldType, number: i64) -> Option<u32> {
        u32::try_from(number).ok()
    }
}

impl ReadField for u64 {
    ghost stored = { kind.uint64 };

    ghost no_text = { refl };

    fn read(field_type: FieldType, field: &str) -> Option<u64> {
        whole_in(field).and_then(|number| u64::try_from(number).ok())
    }

    #[tactic(auto, using(crate::proofs::NumberWalks::number_back))]
    fn of_number(field_type: FieldType, number: i64) -> Option<u64> {
        u64::try_from(number).ok()
    }
}
