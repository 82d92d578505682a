//! The lines of a text on which faults stand.
ghost use Rattle.std.specs.Prelude.{◌≡◌, ◌≤◌, ◌<◌, length, slice_get, IfSome};
ghost use Rattle.csv.specs.Reading.{strip_bom};
ghost use Rattle.csv.specs.declared.parser.State.TheVariants as st;
ghost use Rattle.tb_csv.specs.Places.{state_at};
ghost use Rattle.tb_csv.specs.Promise.LineNumbers.{begins_record, ends_line, fault_line, last, line_at, line_of_fault, opens_field, places_from, quote_line, quote_places, record_line, record_places};
ghost use Rattle.tb_csv.specs.Promise.Records.{form};

use crate::fault::CsvFault;
use crate::marks::{Place, behind_mark};

fn begins_record(before: Place, behind: Place) -> bool
    ensures { result ≡ begins_record (state_at before) (state_at behind) }
{
    !before.ends_at_end() && behind.ends_at_end()
}

fn opens_field(before: Place, behind: Place) -> bool
    ensures { result ≡ opens_field (state_at before) (state_at behind) }
{
    !before.is_quoted() && behind.is_quoted()
}

// The place of the first byte of the record behind so many others.
fn record_place(text: &[u8], separator: u8, others: u64) -> Option<usize>
    ensures place { result ≡ slice_get (record_places separator text.now) others }
    ensures within { IfSome result (λ i. i < length text.now) }
{
    let mut place = Place::StartRecord;
    let mut before = others;
    for i in 0..text.len() {
        let (next, _) = place.after(separator, text[i]);
        if begins_record(place, next) {
            if before == 0 {
                return Some(i);
            }
            before -= 1;
        }
        place = next;
    }
    None
}

// The place of the last quote that opens a field.
fn quote_place(text: &[u8], separator: u8) -> Option<usize>
    ensures place { result ≡ last (quote_places separator text.now) }
    ensures within { IfSome result (λ i. i < length text.now) }
{
    let mut place = Place::StartRecord;
    let mut found = None;
    for i in 0..text.len() {
        let (next, _) = place.after(separator, text[i]);
        if opens_field(place, next) {
            found = Some(i);
        }
        place = next;
    }
    found
}

fn ends_line(text: &[u8], place: usize) -> bool
    requires { place < length text.now }
    ensures { result ≡ ends_line text.now place }
{
    match text[place] {
        b'\n' => true,
        b'\r' => place + 1 == text.len() || text[place + 1] != b'\n',
        _ => false,
    }
}

fn line_at(text: &[u8], place: usize) -> u64
    requires { place ≤ length text.now }
    ensures { result ≡ line_at text.now place }
{
    let mut line = 1u64;
    for i in 0..place {
        if ends_line(text, i) {
            line += 1;
        }
    }
    line
}

fn record_line(text: &[u8], separator: u8, others: u64) -> Option<u64>
    ensures { result ≡ record_line separator text.now others }
{
    match record_place(text, separator, others) {
        Some(place) => Some(line_at(text, place)),
        None => None,
    }
}

fn quote_line(text: &[u8], separator: u8) -> Option<u64>
    ensures { result ≡ quote_line separator text.now }
{
    match quote_place(text, separator) {
        Some(place) => Some(line_at(text, place)),
        None => None,
    }
}

// The line of a fault of a text without a byte-order mark.
fn line_of_fault(text: &[u8], separator: u8, fault: &CsvFault) -> Option<u64>
    ensures { result ≡ line_of_fault separator text.now fault.now }
{
    match fault {
        CsvFault::OpenQuote => quote_line(text, separator),
        CsvFault::RepeatedName(_) => record_line(text, separator, 0),
        CsvFault::NotUtf8 { record }
        | CsvFault::FieldCount { record, .. }
        | CsvFault::NotOfType { record, .. } => record_line(text, separator, *record),
        _ => None,
    }
}

/// The line on which a fault of the text stands, counted from 1: that of the open quote, or the one on which the record begins
/// that the fault tells; of a name that stands twice, that of the names. No other fault has a line. A line ends at a line feed, a carriage return or both.
pub fn fault_line(text: &[u8], separator: u8, fault: &CsvFault) -> Option<u64>
    ensures { result ≡ fault_line separator text.now fault.now }
{
    line_of_fault(behind_mark(text), separator, fault)
}
