//! Numbers, read from their texts.
ghost use Rattle.std.specs.Prelude.{◌≡◌, ◌<◌, ◌^◌, ◌==◌, option_map, length, slice_index, IfSome, IsTrue, true, false};
ghost use Rattle.std.specs.Char.{digit_value};
ghost use Rattle.std.specs.Str.Parse.{digits_value, AllDigits};
ghost use Rattle.serde_json.specs.Data.{number};
ghost use Rattle.serde_json.specs.Read.{number_of, number_from, float_of};
ghost use Rattle.tb_tree.specs.View.{view};

use crate::value::Value;
use fast_float::Numeral;

fn has_minus(text: &[u8]) -> bool
    ensures value { result ≡ (slice_index text.now 0 == 45) }
    ensures some { IsTrue result → 0 < length text.now }
{
    !text.is_empty() && text[0] == b'-'
}

/// A number up to this one has room for a further digit.
const HAS_ROOM: u64 = 1_000_000_000_000_000_000;

#[inline(always)]
fn digit_of(byte: u8) -> Option<u64>
    ensures { IfSome result (λ n. (digit_value byte ≡ n) × (n < 10)) }
{
    match byte {
        b'0'..=b'9' => Some((byte - b'0') as u64),
        _ => None,
    }
}

// The number of a text of digits and nothing else, which most numbers are. None where the number may be too large too.
#[inline(always)]
fn plain_number(text: &[u8]) -> Option<u64>
    ensures { IfSome result (λ n.
        (0 < length text.now)
        × AllDigits 10 text.now
        × (digits_value 10 text.now ≡ n)
        × (n < 2 ^ 64)) }
{
    if text.is_empty() {
        return None;
    }
    let mut number = 0;
    for byte in text {
        let digit = digit_of(*byte)?;
        if number > HAS_ROOM {
            return None;
        }
        number = number * 10 + digit;
    }
    Some(number)
}

/// The value that a JSON number is, or None where it is too large for a float.
#[inline(always)]
pub(crate) fn number_of(text: &str) -> Option<Value>
    ensures { option_map view result ≡ option_map number (number_of text.now) }
{
    match plain_number(text.as_bytes()) {
        Some(number) => Some(Value::Unsigned(number)),
        None => any_number(text),
    }
}

#[inline(never)]
fn any_number(text: &str) -> Option<Value>
    ensures { option_map view result ≡ option_map number (number_of text.now) }
{
    let bytes = text.as_bytes();
    if has_minus(bytes) {
        negative(&Numeral::scan(&bytes[1..]))
    } else {
        unsigned(&Numeral::scan(bytes))
    }
}

fn unsigned(numeral: &Numeral<'_>) -> Option<Value>
    ensures { option_map view result ≡ option_map number (number_from false numeral.now) }
{
    match numeral.to_u64() {
        Some(n) => Some(Value::Unsigned(n)),
        None => nearest(false, numeral),
    }
}

fn negative(numeral: &Numeral<'_>) -> Option<Value>
    ensures { option_map view result ≡ option_map number (number_from true numeral.now) }
{
    if let Some(n) = numeral.to_i64(true) {
        if n < 0 {
            return Some(Value::Negative(n));
        }
    }
    nearest(true, numeral)
}

fn nearest(negative: bool, numeral: &Numeral<'_>) -> Option<Value>
    ensures { option_map view result ≡ option_map number (float_of negative numeral.now) }
{
    let x = numeral.to_float::<f64>(negative);
    if x.is_finite() {
        Some(Value::Float(x))
    } else {
        None
    }
}
