//! Days of the calendar, counted from 1970-01-01, and their texts, YYYY-MM-DD.
ghost use Rattle.std.specs.Prelude.{◌≡◌, ◌^◌, ◌<◌, ◌≤◌, length, true, false, Some, IfSome, MatchOption};
ghost use Rattle.jiff_core.specs.Calendar.{IsEpochDay};
ghost use Rattle.jiff_core.specs.Date.{epoch_day};
ghost use Rattle.tb_date.specs.Promise.Dates.{civil_text, date_in, date_text, day_in, has_text, is_shaped, number_in, two_digits};

use jiff_core::civil::Date;

// The number that decimal digits are, of which there are few.
fn number_in(digits: &[u8]) -> Option<u16>
    requires { length digits.now ≤ 4 }
    ensures value { result ≡ number_in digits.now }
    ensures low { IfSome result (λ n. n < 10 ^ length digits.now) }
{
    let mut number = 0u16;
    for digit in digits {
        if *digit < b'0' || b'9' < *digit {
            return None;
        }
        number = 10 * number + u16::from(*digit - b'0');
    }
    Some(number)
}

fn is_shaped(text: &[u8]) -> bool
    ensures { result ≡ is_shaped text.now }
{
    text.len() == 10 && text[4] == b'-' && text[7] == b'-'
}

// The day of the calendar, if it has it.
fn civil_day(year: u16, month: u16, day: u16) -> Option<i32>
    requires year { year < 10000 }
    requires month { month < 100 }
    requires day { day < 100 }
    ensures value { result ≡ day_in (Some year) (Some month) (Some day) }
    ensures within { IfSome result IsEpochDay }
{
    match Date::new(year as i16, month as i8, day as i8) {
        Ok(date) => Some(date.to_unix_epoch_day()),
        Err(_) => None,
    }
}

/// The day that a text is.
pub fn date_in(text: &str) -> Option<i32>
    ensures value { result ≡ date_in text.now }
    ensures within { IfSome result IsEpochDay }
{
    let bytes = text.as_bytes();
    if !is_shaped(bytes) {
        return None;
    }
    let year = number_in(&bytes[..4])?;
    let month = number_in(&bytes[5..7])?;
    let day = number_in(&bytes[8..])?;
    civil_day(year, month, day)
}

/// The date of a day that is written as its date, if it is one.
pub fn dated(number: i128) -> Option<Date>
    ensures { MatchOption result (has_text number ≡ false) (λ d.
        (has_text number ≡ true) × (epoch_day d ≡ number)) }
{
    let Ok(day) = i64::try_from(number) else {
        return None;
    };
    match Date::from_unix_epoch_day(day) {
        Ok(date) => { if date.year < 0 { None } else { Some(date) } }
        Err(_) => None,
    }
}

fn two_digits(number: u16) -> [u8; 2]
    requires { number < 100 }
    ensures { result ≡ two_digits number }
{
    [b'0' + (number / 10) as u8, b'0' + (number % 10) as u8]
}

/// The text of a date of a year from 0 on.
pub fn date_text(date: Date) -> [u8; 10]
    requires { has_text (epoch_day date) ≡ true }
    ensures { result ≡ date_text (epoch_day date) }
{
    let year = date.year.unsigned_abs();
    let [y1, y2] = two_digits(year / 100);
    let [y3, y4] = two_digits(year % 100);
    let [m1, m2] = two_digits(u16::from(date.month));
    let [d1, d2] = two_digits(u16::from(date.day));
    [y1, y2, y3, y4, b'-', m1, m2, b'-', d1, d2]
}
