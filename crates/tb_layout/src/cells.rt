//! The cells of a table and the widths of its columns.
ghost use Rattle.std.specs.Prelude.{◌≡◌, ◌<◌, ◌≤◌, ◌^◌, ◌++◌, IfOk, IfSome, decimal, length, min, true};
ghost use Rattle.std.specs.List.{list_all};
ghost use Rattle.tb_value.specs.See.{lent_value, IsText};
ghost use Rattle.tb_date.specs.Promise.Dates.{number_text};
ghost use Rattle.tb_frame.specs.Promise.Table.{plain_column};
ghost use Rattle.tb_layout.specs.Cells.{kind_by_day, padded_value};
ghost use Rattle.tb_layout.specs.Promise.Characters.{shown_text, width_of};
ghost use Rattle.tb_layout.specs.Promise.Lines.{blanks, cell_of, cell_text, column_width, is_cut, is_number, padded_cell};
ghost use Rattle.tb_layout.specs.Room.{is_plain, with_cut};
ghost use Rattle.tb_layout.specs.declared.cells.TheConstants.{END};

use crate::characters::{are_plain, is_wide, push_blanks, push_plain, push_shown, width_within};
use itoa::{Buffer, write_digits};
use std::str;
use tb_date::{date_text, dated, is_date};
use tb_label::truth_text;
use tb_store::Column;
use tb_value::{OutOfMemory, ValueRef};

/// Room for the text of a number.
#[derive(Drop)]
pub(crate) struct Digits {
    number: Buffer,
    date: [u8; 10],
}

impl Digits {
    pub(crate) fn new() -> Digits {
        Digits {
            number: Buffer::new(),
            date: [0; 10],
        }
    }
}

fn number_text(digits: &mut Digits, is_day: bool, number: i128) -> &str
    ensures { result.now ≡ number_text is_day number }
{
    if is_day && let Some(date) = dated(number) {
        digits.date = date_text(date);
        return match str::from_utf8(&digits.date) {
            Ok(text) => text,
            Err(_) => unreachable!(),
        };
    }
    digits.number.format(number)
}

/// The text of a value of a column, of days or not, which may stand in the room that is given.
#[tactic(auto, using(crate::proofs::Days::day_of))]
pub(crate) fn cell_text<'a>(digits: &'a mut Digits, is_day: bool, value: ValueRef<'a>) -> &'a str
    requires { IsText value }
    ensures { result.now ≡ cell_text (kind_by_day is_day) (lent_value value.entry) }
{
    match value {
        ValueRef::Null => "null",
        ValueRef::Boolean(truth) => truth_text(truth),
        ValueRef::Int(number) => number_text(digits, is_day, number),
        ValueRef::String(bytes) => match str::from_utf8(bytes) {
            Ok(text) => text,
            Err(_) => unreachable!(),
        },
        ValueRef::Binary(_) | ValueRef::List(_) | ValueRef::Struct(_) => "..",
    }
}

/// Whether the value stands at the right of its column.
pub(crate) fn is_number(value: ValueRef<'_>) -> bool
    ensures { result ≡ is_number (lent_value value.entry) }
{
    matches!(value, ValueRef::Int(_))
}

// The number that the value is shown by, where it is one of digits alone.
fn counting_number(is_day: bool, value: ValueRef<'_>) -> Option<u64>
    ensures text { IfSome result (λ n.
        cell_text (kind_by_day is_day) (lent_value value.entry) ≡ decimal n) }
    ensures number { IfSome result (λ _. is_number (lent_value value.entry) ≡ true) }
    ensures few { IfSome result (λ n. n < 2 ^ 64) }
{
    match value {
        ValueRef::Int(number) if !is_day => u64::try_from(number).ok(),
        _ => None,
    }
}

// How many digits the number has.
fn digit_count(number: u64) -> usize
    ensures { result ≡ length (decimal number) }
{
    match number.checked_ilog10() {
        Some(power) => power as usize + 1,
        None => 1,
    }
}

/// The columns that a value of a column, of days or not, takes, or `line` where it takes more.
pub(crate) fn cell_width(
    digits: &mut Digits,
    is_day: bool,
    value: ValueRef<'_>,
    line: usize,
) -> usize
    requires { IsText value }
    ensures { result ≡ min line (width_of (cell_of (kind_by_day is_day) (lent_value value.entry))) }
{
    match counting_number(is_day, value) {
        Some(number) => line.min(digit_count(number)),
        None => width_within(line, cell_text(digits, is_day, value)),
    }
}

// Appends the cell and two blanks as `push_cell` does, where its characters take one column each.
fn push_plain_cell(
    text: &mut Vec<u8>,
    room: Option<usize>,
    cell: &[u8],
    at_right: bool,
    width: usize,
) -> Result<Option<usize>, OutOfMemory>
    requires { list_all is_plain cell.now ≡ true }
    ensures { IfOk result (λ after.
        (text.new.items, after)
        ≡ with_cut (text.old.items, room)
        (padded_cell at_right width (shown_text cell.now) ++ blanks 2)) }
{
    let missing = width.saturating_sub(cell.len());
    let room = if at_right {
        let room = push_blanks(text, room, missing)?;
        push_plain(text, room, cell)?
    } else {
        let room = push_plain(text, room, cell)?;
        push_blanks(text, room, missing)?
    };
    push_blanks(text, room, 2)
}

/// Appends the cell, at the right of so many columns or at the left, and two blanks, as far as the room of the line goes. Answers
/// the room behind them.
pub(crate) fn push_cell(
    text: &mut Vec<u8>,
    room: Option<usize>,
    cell: &str,
    at_right: bool,
    width: usize,
) -> Result<Option<usize>, OutOfMemory>
    ensures { IfOk result (λ after.
        (text.new.items, after)
        ≡ with_cut (text.old.items, room)
        (padded_cell at_right width (shown_text cell.now) ++ blanks 2)) }
{
    let bytes = cell.as_bytes();
    if are_plain(bytes) {
        return push_plain_cell(text, room, bytes, at_right, width);
    }
    let missing = width - width_within(width, cell);
    let room = if at_right {
        let room = push_blanks(text, room, missing)?;
        push_shown(text, room, cell)?
    } else {
        let room = push_shown(text, room, cell)?;
        push_blanks(text, room, missing)?
    };
    push_blanks(text, room, 2)
}

// The room for the digits of a number, with blanks before them and two behind.
const ROOM: usize = 64;

// Where the digits end in their room.
const END: usize = ROOM - 2;

// Appends the cell of a number that is shown by its digits, and two blanks, as `push_cell` does, but at once.
fn push_number(
    text: &mut Vec<u8>,
    room: Option<usize>,
    number: u64,
    width: usize,
) -> Result<Option<usize>, OutOfMemory>
    requires { width ≤ END }
    ensures { IfOk result (λ after.
        (text.new.items, after)
        ≡ with_cut (text.old.items, room) (padded_cell true width (decimal number) ++ blanks 2)) }
{
    let mut cell = [b' '; ROOM];
    let start = write_digits(number, &mut cell, END);
    push_plain(text, room, &cell[start.min(END - width)..])
}

/// Appends the cell of a value of a column, of days or not, which is so wide, and two blanks, as far as the room of the line goes.
/// Answers the room behind them.
pub(crate) fn push_value(
    text: &mut Vec<u8>,
    room: Option<usize>,
    is_day: bool,
    value: ValueRef<'_>,
    width: usize,
) -> Result<Option<usize>, OutOfMemory>
    requires { IsText value }
    ensures { IfOk result (λ after.
        (text.new.items, after)
        ≡ with_cut (text.old.items, room)
        (padded_value (kind_by_day is_day) width (lent_value value.entry) ++ blanks 2)) }
{
    match counting_number(is_day, value) {
        Some(number) if width <= END => push_number(text, room, number, width),
        _ => {
            let mut digits = Digits::new();
            let cell = cell_text(&mut digits, is_day, value);
            push_cell(text, room, cell, is_number(value), width)
        }
    }
}

/// Whether the name of the column, which is so wide, or a cell of it is wider than the line.
#[tactic(auto, using(crate::proofs::Days::text_by_day))]
pub(crate) fn is_cut(column: &Column, line: usize, width: usize) -> bool
    requires { width ≡ column_width line (plain_column column.now) }
    ensures { result ≡ is_cut line (plain_column column.now) }
{
    if width < line {
        return false;
    }
    if is_wide(line, column.name().as_str()) {
        return true;
    }
    let is_day = is_date(column.dtype());
    let mut digits = Digits::new();
    for row in 0..column.len() {
        let cell = cell_text(&mut digits, is_day, column.get(row));
        if is_wide(line, cell) {
            return true;
        }
    }
    false
}
