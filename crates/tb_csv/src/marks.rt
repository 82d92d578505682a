//! Which fields of a text stand in quotes, and whether the last ones are closed.
ghost use Rattle.std.specs.Prelude.{◌≡◌, IfOk};
ghost use Rattle.csv.specs.Machine as machine;
ghost use Rattle.csv.specs.Reading.{strip_bom};
ghost use Rattle.csv.specs.declared.parser.State.TheVariants as st;
ghost use Rattle.tb_csv.specs.Places.{IsStep, MarkAlike, has_mark, has_quote, state_at};
ghost use Rattle.tb_csv.specs.Promise.LineNumbers.{has_open_quote, is_open, state_behind};
ghost use Rattle.tb_csv.specs.Promise.Records.{form, is_quoted, marks_from, marks_of};

use memchr::memchr;
use std::alloc::Global;
use tb_value::OutOfMemory;

/// Where a reader stands in a text.
#[derive(Clone, Copy, Debug)]
pub(crate) enum Place {
    StartRecord,
    StartField,
    InField,
    InQuoted,
    AfterQuote,
    AfterReturn,
}

// The place behind a byte that is in a field, or ends it, and whether it ends it.
fn in_field(separator: u8, byte: u8) -> (Place, bool)
    ensures { IsStep result (machine.in_field (form separator) byte) }
{
    if byte == separator {
        (Place::StartField, true)
    } else if byte == b'\r' {
        (Place::AfterReturn, true)
    } else if byte == b'\n' {
        (Place::StartRecord, true)
    } else {
        (Place::InField, false)
    }
}

fn start_field(separator: u8, byte: u8) -> (Place, bool)
    ensures { IsStep result (machine.start_field (form separator) byte) }
{
    if byte == b'"' {
        (Place::InQuoted, false)
    } else {
        in_field(separator, byte)
    }
}

fn start_record(separator: u8, byte: u8) -> (Place, bool)
    ensures { IsStep result (machine.start_record (form separator) byte) }
{
    if byte == b'\r' || byte == b'\n' {
        (Place::StartRecord, false)
    } else {
        start_field(separator, byte)
    }
}

impl Place {
    /// The place behind a byte, and whether a field ends there.
    pub(crate) fn after(self, separator: u8, byte: u8) -> (Place, bool)
        ensures { IsStep result (machine.step (form separator) (state_at self) byte) }
    {
        match self {
            Place::StartRecord => start_record(separator, byte),
            Place::StartField => start_field(separator, byte),
            Place::InField => in_field(separator, byte),
            Place::InQuoted if byte == b'"' => (Place::AfterQuote, false),
            Place::InQuoted => (Place::InQuoted, false),
            Place::AfterQuote if byte == b'"' => (Place::InQuoted, false),
            Place::AfterQuote => in_field(separator, byte),
            Place::AfterReturn if byte == b'\n' => (Place::StartRecord, false),
            Place::AfterReturn => start_record(separator, byte),
        }
    }

    /// Whether a field that ends here stands in quotes, be they closed or not.
    pub(crate) fn is_quoted(self) -> bool
        ensures { result ≡ is_quoted (state_at self) }
    {
        matches!(self, Place::InQuoted | Place::AfterQuote)
    }

    // Whether this place is inside quotes.
    fn is_open(self) -> bool
        ensures { result ≡ is_open (state_at self) }
    {
        matches!(self, Place::InQuoted)
    }

    /// Whether a field ends where the text does, since a record has begun.
    pub(crate) fn ends_at_end(self) -> bool
        ensures { result ≡ machine.ends_at_end (state_at self) }
    {
        !matches!(self, Place::StartRecord | Place::AfterReturn)
    }
}

fn has_byte_order_mark(text: &[u8]) -> bool
    ensures { result ≡ has_mark text.now }
{
    text.len() >= 3 && text[0] == 0xEF && text[1] == 0xBB && text[2] == 0xBF
}

/// The text behind a byte-order mark, if it begins with one.
pub(crate) fn behind_mark(text: &[u8]) -> &[u8]
    ensures { result.now ≡ strip_bom text.now }
{
    if has_byte_order_mark(text) {
        &text[3..]
    } else {
        text
    }
}

/// Which fields of a text stand in quotes.
#[derive(Drop)]
pub(crate) struct Marks {
    /// Whether each field stands in quotes. A field without a mark doesn't.
    pub(crate) marks: Vec<bool>,
    /// Whether the quotes of the last field are closed nowhere.
    pub(crate) is_open: bool,
}

// Whether each field of the text stands in quotes.
fn marks_from_start(alloc: Global, text: &[u8], separator: u8) -> Result<Marks, OutOfMemory>
    ensures marks { IfOk result (λ m.
        m.marks.items ≡ marks_from (form separator) st.StartRecord text.now) }
    ensures open { IfOk result (λ m.
        m.is_open ≡ is_open (state_behind (form separator) st.StartRecord text.now)) }
{
    let mut marks = Vec::new(alloc);
    let mut place = Place::StartRecord;
    for byte in text {
        let (next, ends_field) = place.after(separator, *byte);
        if ends_field {
            marks.push(place.is_quoted())?;
        }
        place = next;
    }
    if place.ends_at_end() {
        marks.push(place.is_quoted())?;
    }
    let is_open = place.is_open();
    Ok(Marks { marks, is_open })
}

pub(crate) fn has_quote(text: &[u8]) -> bool
    ensures { result ≡ has_quote text.now }
{
    memchr(b'"', text).is_some()
}

/// Which fields of a text stand in quotes. A text without a quote needs no marks, and gets none.
pub(crate) fn marks_of(alloc: Global, text: &[u8], separator: u8) -> Result<Marks, OutOfMemory>
    ensures marks { IfOk result (λ m. MarkAlike m.marks.items (marks_of separator text.now)) }
    ensures open { IfOk result (λ m. m.is_open ≡ has_open_quote separator text.now) }
{
    if !has_quote(text) {
        return Ok(Marks {
            marks: Vec::new(alloc),
            is_open: false,
        });
    }
    marks_from_start(alloc, behind_mark(text), separator)
}
