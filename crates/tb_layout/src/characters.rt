//! Characters as a line of a terminal shows them.
ghost use Rattle.std.specs.Prelude.{◌≡◌, ◌∷◌, [], ◌++◌, ◌<◌, ◌≤◌, ◌-◌, true, IfOk, OnOk, Some, encode_utf8_all, length, min, option_to_list, replicate, slice_index, string_bytes};
ghost use Rattle.std.specs.List.{list_all, suffix_len};
ghost use Rattle.tb_layout.specs.Promise.Characters.{columns_of, is_blank, shown_text, visible_text, width_of};
ghost use Rattle.tb_layout.specs.Promise.Lines.{blanks, is_wide};
ghost use Rattle.tb_layout.specs.Room.{is_plain, room_left, with_cut, within};

use tb_value::OutOfMemory;
use unicode_width::UnicodeWidthChar;

fn columns_of(c: char) -> usize
    ensures value { result ≡ columns_of c }
    ensures few { result ≤ 3 }
{
    c.width().unwrap_or(0)
}

// The character by which another is shown, and the backslash in front of it, if there is one.
fn visible(c: char) -> (Option<char>, char)
    ensures { visible_text c ≡ option_to_list result.0 ++ result.1 ∷ [] }
{
    match c {
        '\n' => (Some('\\'), 'n'),
        '\t' => (Some('\\'), 't'),
        '\r' => (Some('\\'), 'r'),
        _ if c.width().is_none() => (None, '\u{fffd}'),
        _ => (None, c),
    }
}

// The columns of the character as it is shown.
fn shown_columns(c: char) -> usize
    ensures { result ≡ width_of (visible_text c) }
{
    match visible(c) {
        (Some(escape), letter) => columns_of(escape) + columns_of(letter),
        (None, letter) => columns_of(letter),
    }
}

fn is_plain(byte: u8) -> bool
    ensures { result ≡ is_plain byte }
{
    b' ' <= byte && byte < 0x7f
}

/// Whether each byte is a character of one column, and is shown as it is.
pub(crate) fn are_plain(bytes: &[u8]) -> bool
    ensures { result ≡ list_all is_plain bytes.now }
{
    bytes.iter().all(|byte| is_plain(*byte))
}

fn room_left(room: Option<usize>, columns: usize) -> Option<usize>
    ensures { result ≡ room_left room columns }
{
    match room {
        Some(room) if columns <= room => Some(room - columns),
        _ => None,
    }
}

/// The columns that are left behind the text, if it fits.
pub(crate) fn room_behind(room: usize, text: &str) -> Option<usize>
    ensures { result ≡ room_left (Some room) (width_of (shown_text text.now)) }
{
    let room = Some(room);
    if are_plain(text.as_bytes()) {
        return room_left(room, text.len());
    }
    let mut left = room;
    for c in text.chars() {
        left = room_left(left, shown_columns(c));
    }
    left
}

/// The columns that the text takes, or `limit` where it takes more.
pub(crate) fn width_within(limit: usize, text: &str) -> usize
    ensures { result ≡ min limit (width_of (shown_text text.now)) }
{
    match room_behind(limit, text) {
        Some(left) => limit - left,
        None => limit,
    }
}

/// Whether the text takes more columns than these.
pub(crate) fn is_wide(columns: usize, text: &str) -> bool
    ensures { result ≡ is_wide columns (shown_text text.now) }
{
    room_behind(columns, text).is_none()
}

// Appends the character if it fits into the room of its line, and answers the room behind it.
fn push_within(
    text: &mut Vec<u8>,
    room: Option<usize>,
    c: char,
) -> Result<Option<usize>, OutOfMemory>
    ensures { IfOk result (λ after.
        (text.new.items, after) ≡ within text.old.items room c) }
{
    let left = room_left(room, columns_of(c));
    if left.is_some() {
        text.extend_from_slice(c.encode_utf8(&mut [0; 4]).as_bytes())?;
    }
    Ok(left)
}

fn push_visible(
    text: &mut Vec<u8>,
    room: Option<usize>,
    c: char,
) -> Result<Option<usize>, OutOfMemory>
    ensures { IfOk result (λ after.
        (text.new.items, after)
        ≡ with_cut (text.old.items, room) (visible_text c)) }
{
    match visible(c) {
        (Some(escape), letter) => {
            let room = push_within(text, room, escape)?;
            push_within(text, room, letter)
        }
        (None, letter) => push_within(text, room, letter),
    }
}

/// Appends characters of one column each, as far as they fit into the room of their line. Answers the room behind them.
pub(crate) fn push_plain(
    text: &mut Vec<u8>,
    room: Option<usize>,
    plain: &[u8],
) -> Result<Option<usize>, OutOfMemory>
    requires { list_all is_plain plain.now ≡ true }
    ensures { IfOk result (λ after.
        (text.new.items, after) ≡ with_cut (text.old.items, room) plain.now) }
{
    match room {
        Some(room) if plain.len() <= room => {
            text.extend_from_slice(plain)?;
            Ok(Some(room - plain.len()))
        }
        Some(room) => {
            text.extend_from_slice(&plain[..room])?;
            Ok(None)
        }
        None => Ok(None),
    }
}

/// Appends the characters by which a text is shown, as far as they fit into the room of their line. Answers the room behind them.
pub(crate) fn push_shown(
    text: &mut Vec<u8>,
    room: Option<usize>,
    shown: &str,
) -> Result<Option<usize>, OutOfMemory>
    ensures { IfOk result (λ after.
        (text.new.items, after)
        ≡ with_cut (text.old.items, room) (shown_text shown.now)) }
{
    if are_plain(shown.as_bytes()) {
        return push_plain(text, room, shown.as_bytes());
    }
    let mut room = room;
    for c in shown.chars() {
        room = push_visible(text, room, c)?;
    }
    Ok(room)
}

fn push_whole_visible(text: &mut String, c: char) -> Result<(), OutOfMemory>
    ensures { OnOk result
        (string_bytes text.new ≡ string_bytes text.old ++ encode_utf8_all (visible_text c)) }
{
    let (escape, letter) = visible(c);
    if let Some(escape) = escape {
        text.push(escape)?;
    }
    text.push(letter)?;
    Ok(())
}

/// Appends the characters by which a text is shown.
pub(crate) fn push_whole(text: &mut String, shown: &str) -> Result<(), OutOfMemory>
    ensures { OnOk result
        (string_bytes text.new ≡ string_bytes text.old ++ encode_utf8_all (shown_text shown.now)) }
{
    for c in shown.chars() {
        push_whole_visible(text, c)?;
    }
    Ok(())
}

/// Appends the character so many times, as far as there is room. Answers the room behind them.
pub(crate) fn push_repeated(
    text: &mut Vec<u8>,
    room: Option<usize>,
    c: char,
    count: usize,
) -> Result<Option<usize>, OutOfMemory>
    ensures { IfOk result (λ after.
        (text.new.items, after)
        ≡ with_cut (text.old.items, room) (replicate count c)) }
{
    let mut room = room;
    for _ in 0..count {
        room = push_within(text, room, c)?;
    }
    Ok(room)
}

// Of these the front is appended that is as long as is asked.
const BLANKS: [u8; 32] = [b' '; 32];

/// Appends so many blanks, as far as there is room. Answers the room behind them.
pub(crate) fn push_blanks(
    text: &mut Vec<u8>,
    room: Option<usize>,
    count: usize,
) -> Result<Option<usize>, OutOfMemory>
    ensures { IfOk result (λ after.
        (text.new.items, after) ≡ with_cut (text.old.items, room) (blanks count)) }
{
    if count <= BLANKS.len() {
        push_plain(text, room, &BLANKS[..count])
    } else {
        push_repeated(text, room, ' ', count)
    }
}

/// How many blanks stand at the end.
pub(crate) fn blanks_at_end(line: &[u8]) -> usize
    ensures count { result ≡ suffix_len is_blank line.now }
    ensures within { result ≤ length line.now }
    ensures blank { 0 < result → slice_index line.now (length line.now - result) ≡ 32 }
{
    let mut end = line.len();
    while end > 0 && line[end - 1] == b' ' {
        end -= 1;
    }
    line.len() - end
}
