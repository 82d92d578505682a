//! A text in pieces, cut where lines end.
ghost use Rattle.std.specs.Prelude.{◌≡◌, ◌<◌, ◌++◌, List, length, IfOk};
ghost use Rattle.std.specs.List.{All, flat_map};
ghost use Rattle.tb_csv.specs.Places.{IsFromLineEnd};

use memchr::memchr;
use std::alloc::Global;
use tb_value::OutOfMemory;

/// The text before the first line feed that stands behind so many bytes, and the text from there on.
pub(crate) fn cut(text: &[u8], least: usize) -> (&[u8], &[u8])
    ensures whole { result.0.now ++ result.1.now ≡ text.now }
    ensures rest { IsFromLineEnd result.1.now }
    ensures shorter { 0 < least → 0 < length text.now → length result.1.now < length text.now }
{
    let from = least.min(text.len());
    match memchr(b'\n', &text[from..]) {
        Some(place) => text.split_at(from + place),
        None => (text, &[]),
    }
}

/// A text from the end of a line on in pieces, each of which is so long at least but for the last, and stands so too.
pub(crate) fn pieces_of<'a>(
    alloc: Global,
    text: &'a [u8],
    least: usize,
) -> Result<Vec<&'a [u8]>, OutOfMemory>
    requires some { 0 < least }
    requires start { IsFromLineEnd text.now }
    ensures whole { IfOk result (λ v. flat_map (λ p. p.now) v.items ≡ text.now) }
    ensures cut { IfOk result (λ v. All (λ p. IsFromLineEnd p.now) v.items) }
{
    let mut pieces = Vec::new(alloc);
    let mut rest = text;
    while !rest.is_empty() {
        let (piece, behind) = cut(rest, least);
        pieces.push(piece)?;
        rest = behind;
    }
    Ok(pieces)
}
