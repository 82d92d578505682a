//! Where the fields of a text without quotes lie.
ghost use Rattle.std.specs.Prelude.{◌≡◌, ◌+◌, ◌<◌, ◌≤◌, false, length, drop, take, IfOk, IfSome};
ghost use Rattle.std.specs.List.{All, position_or_len, prefix_len};
ghost use Rattle.tb_csv.specs.Places.{has_quote};
ghost use Rattle.tb_csv.specs.Plain.{ArePlainRows, IsRow, is_field_end, is_line_end};
ghost use Rattle.tb_csv.specs.Spans.{LiesIn};

use crate::spans::{PlainRows, Span};
use std::alloc::Global;
use std::simd::prelude::*;
use tb_value::OutOfMemory;

fn is_line_end(byte: u8) -> bool
    ensures { result ≡ is_line_end byte }
{
    byte == b'\r' || byte == b'\n'
}

// A field ends before a separator too.
fn is_field_end(separator: u8, byte: u8) -> bool
    ensures { result ≡ is_field_end separator byte }
{
    byte == separator || is_line_end(byte)
}

// How many bytes a vector holds.
const LANES: usize = 16;

// How many of the next bytes stand before one that ends a field: all of them, if none does.
#[inline(always)]
fn bytes_before_end(text: &[u8], separator: u8, place: usize) -> usize
    requires { place + LANES ≤ length text.now }
    ensures { result
        ≡ position_or_len (is_field_end separator) (take LANES (drop place text.now)) }
{
    let bytes = u8x16::from_slice(&text[place..]);
    let line_ends = bytes.simd_eq(u8x16::splat(b'\r')) | bytes.simd_eq(u8x16::splat(b'\n'));
    let ends = (bytes.simd_eq(u8x16::splat(separator)) | line_ends).to_bitmask();
    if ends == 0 {
        LANES
    } else {
        ends.trailing_zeros() as usize
    }
}

// Where the field ends that has begun before this place, or begins there, byte by byte.
fn near_field_end(text: &[u8], separator: u8, place: usize) -> usize
    requires { place ≤ length text.now }
    ensures end { result
        ≡ place + position_or_len (is_field_end separator) (drop place text.now) }
    ensures within { result ≤ length text.now }
{
    let mut end = place;
    while end < text.len() && !is_field_end(separator, text[end]) {
        end += 1;
    }
    end
}

// The same, but many bytes at once: where fields end is hard to foresee, and a branch at each byte is slow.
fn field_end(text: &[u8], separator: u8, place: usize) -> usize
    requires { place ≤ length text.now }
    ensures end { result
        ≡ place + position_or_len (is_field_end separator) (drop place text.now) }
    ensures within { result ≤ length text.now }
{
    let mut end = place;
    while text.len() - end >= LANES {
        let before = bytes_before_end(text, separator, end);
        end += before;
        if before < LANES {
            return end;
        }
    }
    near_field_end(text, separator, end)
}

// Where the next row begins that isn't blank.
fn next_row(text: &[u8], place: usize) -> usize
    requires { place ≤ length text.now }
    ensures start { result ≡ place + prefix_len is_line_end (drop place text.now) }
    ensures within { result ≤ length text.now }
{
    let mut start = place;
    while start < text.len() && is_line_end(text[start]) {
        start += 1;
    }
    start
}

// Adds the fields of the row that begins here, and gives the place behind its end. None where it has more or fewer
// fields than so many.
fn push_row(
    text: &[u8],
    separator: u8,
    width: usize,
    start: usize,
    spans: &mut Vec<Span>,
) -> Result<Option<usize>, OutOfMemory>
    requires start { start < length text.now }
    requires bare { has_quote text.now ≡ false }
    requires within { All (LiesIn text.now) spans.old.items }
    ensures row { IfOk result (λ o. IfSome o (λ behind.
        IsRow separator width text.now start behind spans.old.items spans.new.items)) }
{
    let mut place = start;
    for column in 0..width {
        let end = field_end(text, separator, place);
        spans.push(Span { start: place, end })?;
        if end == text.len() {
            return Ok((column + 1 == width).then_some(end));
        }
        if text[end] != separator {
            return Ok((column + 1 == width).then_some(end + 1));
        }
        place = end + 1;
    }
    Ok(None)
}

/// The fields of the rows of a text without quotes, each of so many. None where a row has more or fewer.
pub(crate) fn plain_rows<'a>(
    alloc: Global,
    text: &'a [u8],
    separator: u8,
    width: usize,
) -> Result<Option<PlainRows<'a>>, OutOfMemory>
    requires { has_quote text.now ≡ false }
    ensures { IfOk result (λ o. IfSome o (λ r. ArePlainRows separator width text.now r)) }
{
    let mut spans = Vec::new(alloc);
    let mut height = 0;
    let mut place = next_row(text, 0);
    while place < text.len() {
        let Some(behind) = push_row(text, separator, width, place, &mut spans)? else {
            return Ok(None);
        };
        height += 1;
        place = next_row(text, behind);
    }
    Ok(Some(PlainRows {
        text,
        spans,
        height,
    }))
}
