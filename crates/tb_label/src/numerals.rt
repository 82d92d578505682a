//! Whole numbers, read from texts.
ghost use Rattle.std.specs.Prelude.{◌≡◌};
ghost use Rattle.tb_label.specs.Promise.Numerals.{are_digits, is_counting, is_whole, whole_in};

fn are_digits(bytes: &[u8]) -> bool
    ensures { result ≡ are_digits bytes.now }
{
    for b in bytes {
        if *b < b'0' || b'9' < *b {
            return false;
        }
    }
    true
}

fn is_counting(bytes: &[u8]) -> bool
    ensures { result ≡ is_counting bytes.now }
{
    match bytes.split_first() {
        Some((first, rest)) => b'1' <= *first && *first <= b'9' && are_digits(rest),
        None => false,
    }
}

fn is_whole(text: &str) -> bool
    ensures { result ≡ is_whole text.now }
{
    if text == "0" {
        return true;
    }
    let bytes = text.as_bytes();
    if 0 < bytes.len() && bytes[0] == b'-' {
        is_counting(&bytes[1..])
    } else {
        is_counting(bytes)
    }
}

/// The number that a text is, or None where it is none of 128 bits or is written in another way.
pub fn whole_in(text: &str) -> Option<i128>
    ensures { result ≡ whole_in text.now }
{
    if !is_whole(text) {
        return None;
    }
    text.parse::<i128>().ok()
}
