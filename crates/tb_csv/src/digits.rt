//! Whole numbers of few digits, read from bytes.
ghost use Rattle.std.specs.Prelude.{◌≡◌, ◌<◌, ◌^◌, IfSome};
ghost use Rattle.std.specs.Fmt.{decimal, signed_decimal};

// Any number of so many digits fits in 64 bits.
const MOST_DIGITS: usize = 18;

// The number that the bytes write as digits, the first of which isn't 0.
fn counting_number(bytes: &[u8]) -> Option<u64>
    ensures written { IfSome result (λ n. decimal n ≡ bytes.now) }
    ensures some { IfSome result (λ n. 0 < n) }
    ensures small { IfSome result (λ n. n < 10 ^ MOST_DIGITS) }
{
    let [first @ b'1'..=b'9', others @ ..] = bytes else {
        return None;
    };
    if others.len() >= MOST_DIGITS {
        return None;
    }
    let mut number = u64::from(*first - b'0');
    for byte in others {
        let digit = byte.wrapping_sub(b'0');
        if digit > 9 {
            return None;
        }
        number = number * 10 + u64::from(digit);
    }
    Some(number)
}

/// The whole number that the bytes write. None where they write another text, or more than 18 digits.
pub(crate) fn short_number(bytes: &[u8]) -> Option<i64>
    ensures { IfSome result (λ n. signed_decimal n ≡ bytes.now) }
{
    match bytes {
        [b'0'] => Some(0),
        [b'-', digits @ ..] => Some(-(counting_number(digits)? as i64)),
        _ => Some(counting_number(bytes)? as i64),
    }
}
