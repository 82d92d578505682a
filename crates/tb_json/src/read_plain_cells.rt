//! Whole numbers, texts and bytes, read from JSON.
ghost use Rattle.std.specs.Prelude.{◌≡◌, ◌/◌, if◌then◌else◌, length, option_map, option_and_then, IfOk, IfSome, None, Some};
ghost use Rattle.std.specs.Result.{result_ok};
ghost use Rattle.hex.specs.Hex.{decode_of};
ghost use Rattle.std.specs.List.{list_all};
ghost use Rattle.serde_json.specs.Find.{as_number};
ghost use Rattle.tb_tree.specs.View.{view, item_view, whole};
ghost use Rattle.tb_value.specs.Promise.Datum.{int, string, binary};
ghost use Rattle.tb_value.specs.Promise.Kind as kind;
ghost use Rattle.tb_value.specs.See.{datum};
ghost use Rattle.tb_value.specs.SeeKind.{kind_of};
ghost use Rattle.tb_value.specs.Promise.Typed.{HasType};
ghost use Rattle.tb_chunk.specs.Chunk.{or_null};
ghost use Rattle.tb_json.specs.Promise.Cells.{ranged_number, boolean_in, cell_in, number_in, short, is_lower_digit, bytes_in, text_in};
ghost use Rattle.tb_label.specs.Promise.Numerals.{whole_in};

use crate::write_cells::is_wide;
use std::alloc::Global;
use tb_label::whole_in;
use tb_tree::{Item, Value};
use tb_value::{AnyValue, Bytes, DataType, OutOfMemory, PlSmallStr, TOO_LONG};

/// The text that a value is, lent: no text inside where it is Null, and None where it is no text or one too long to be a
/// value.
pub(crate) fn lent_text(value: Item<'_>) -> Option<Option<&str>>
    ensures { option_map (λ o. or_null string (option_map (λ t. t.now) o)) result
        ≡ cell_in kind.string (item_view value.entry) }
{
    if value.is_null() {
        return Some(None);
    }
    match value.as_str() {
        Some(text) if text.len() < TOO_LONG => Some(Some(text)),
        _ => None,
    }
}

// An own copy of a text, or None where the text is too long to be a value.
fn short_text(alloc: Global, text: &str) -> Result<Option<PlSmallStr>, OutOfMemory>
    ensures value { IfOk result (λ o. o ≡ short text.now) }
    ensures typed { IfOk result (λ o. IfSome o (λ s. HasType kind.string (string s))) }
{
    if text.len() < TOO_LONG {
        Ok(Some(PlSmallStr::from_str(alloc, text)?))
    } else {
        Ok(None)
    }
}

fn is_lower_digit(c: u8) -> bool
    ensures { result ≡ is_lower_digit c }
{
    c.is_ascii_digit() || (b'a' <= c && c <= b'f')
}

fn are_lower_digits(digits: &[u8]) -> bool
    ensures { result ≡ list_all is_lower_digit digits.now }
{
    digits.iter().all(|c| is_lower_digit(*c))
}

// Writes the bytes that digits stand for, and says whether there are such bytes.
fn decode_to(out: &mut [u8], digits: &str) -> bool
    requires { length out.old ≡ length digits.now / 2 }
    ensures { (if result then Some out.new else None) ≡ result_ok (decode_of digits.now) }
{
    hex::decode_to_slice(digits, out).is_ok()
}

// The same of lower-case digits, into a buffer.
fn decode_into(buffer: &mut Vec<u8>, digits: &str) -> Result<bool, OutOfMemory>
    ensures { IfOk result (λ b. (if b then Some buffer.new.items else None) ≡ bytes_in digits.now) }
{
    if !are_lower_digits(digits.as_bytes()) {
        return Ok(false);
    }
    buffer.resize(digits.len() / 2, 0)?;
    Ok(decode_to(buffer.as_mut_slice(), digits))
}

/// Puts the bytes that lower-case hexadecimal digits stand for into the buffer. Says whether the text is of such digits and
/// there are not too many bytes for a value.
pub(crate) fn decode_short(buffer: &mut Vec<u8>, digits: &str) -> Result<bool, OutOfMemory>
    ensures { IfOk result (λ b.
        (if b then Some buffer.new.items else None) ≡ option_and_then short (bytes_in digits.now)) }
{
    Ok(decode_into(buffer, digits)? && buffer.len() < TOO_LONG)
}

// The bytes, or None where there are too many for a value.
fn short(alloc: Global, bytes: Vec<u8>) -> Result<Option<Bytes>, OutOfMemory>
    ensures value { IfOk result (λ o. o ≡ short bytes.items) }
    ensures typed { IfOk result (λ o. IfSome o (λ s. HasType kind.binary (binary s))) }
{
    if bytes.len() < TOO_LONG {
        Ok(Some(Bytes::from_vec(alloc, bytes)?))
    } else {
        Ok(None)
    }
}

fn short_bytes(alloc: Global, digits: &str) -> Result<Option<Bytes>, OutOfMemory>
    ensures value { IfOk result (λ o. o ≡ option_and_then short (bytes_in digits.now)) }
    ensures typed { IfOk result (λ o. IfSome o (λ s. HasType kind.binary (binary s))) }
{
    let mut bytes = Vec::new(alloc);
    if decode_into(&mut bytes, digits)? {
        short(alloc, bytes)
    } else {
        Ok(None)
    }
}

/// The value that `true` or `false` is, or None where the type isn't Boolean.
pub(crate) fn boolean_of(b: bool, dtype: &DataType) -> Option<AnyValue>
    ensures value { option_map datum result ≡ boolean_in (kind_of dtype.now) b }
    ensures typed { IfSome result (λ v. HasType (kind_of dtype.now) (datum v)) }
{
    match dtype {
        DataType::Boolean => Some(AnyValue::Boolean(b)),
        _ => None,
    }
}

// A whole number, where it is of the type.
fn ranged(integer: i128, dtype: &DataType) -> Option<AnyValue>
    ensures value { option_map datum result ≡ ranged_number (kind_of dtype.now) integer }
    ensures typed { IfSome result (λ v. HasType (kind_of dtype.now) (datum v)) }
{
    let value = AnyValue::Int(integer);
    if dtype.is_of(&value) {
        Some(value)
    } else {
        None
    }
}

/// The value that a whole number is, or None where it is none of the type.
pub(crate) fn whole_of(number: i64, dtype: &DataType) -> Option<AnyValue>
    ensures value { option_map datum result ≡ cell_in (kind_of dtype.now) (whole number) }
    ensures typed { IfSome result (λ v. HasType (kind_of dtype.now) (datum v)) }
{
    if is_wide(dtype) {
        return None;
    }
    ranged(number as i128, dtype)
}

/// The value that a number is, or None where it is none of the type.
pub(crate) fn number_of(number: &Value, dtype: &DataType) -> Option<AnyValue>
    ensures value { option_map datum result
        ≡ option_and_then (number_in (kind_of dtype.now)) (as_number (view number.now)) }
    ensures typed { IfSome result (λ v. HasType (kind_of dtype.now) (datum v)) }
{
    if is_wide(dtype) {
        return None;
    }
    match number.as_i128() {
        Some(integer) => ranged(integer, dtype),
        None => None,
    }
}

fn wide_of(text: &str) -> Option<AnyValue>
    ensures value { option_map datum result ≡ option_map int (whole_in text.now) }
    ensures typed { IfSome result (λ v. HasType kind.int128 (datum v)) }
{
    match whole_in(text) {
        Some(integer) => Some(AnyValue::Int(integer)),
        None => None,
    }
}

fn string_of(alloc: Global, text: &str) -> Result<Option<AnyValue>, OutOfMemory>
    ensures value { IfOk result (λ o. option_map datum o ≡ option_map string (short text.now)) }
    ensures typed { IfOk result (λ o. IfSome o (λ v. HasType kind.string (datum v))) }
{
    match short_text(alloc, text)? {
        Some(text) => Ok(Some(AnyValue::String(text))),
        None => Ok(None),
    }
}

fn binary_of(alloc: Global, text: &str) -> Result<Option<AnyValue>, OutOfMemory>
    ensures value { IfOk result (λ o. option_map datum o
        ≡ option_map binary (option_and_then short (bytes_in text.now))) }
    ensures typed { IfOk result (λ o. IfSome o (λ v. HasType kind.binary (datum v))) }
{
    match short_bytes(alloc, text)? {
        Some(bytes) => Ok(Some(AnyValue::Binary(bytes))),
        None => Ok(None),
    }
}

/// The value that a text is, or None where it is none of the type.
pub(crate) fn text_of(
    alloc: Global,
    text: &str,
    dtype: &DataType,
) -> Result<Option<AnyValue>, OutOfMemory>
    ensures value { IfOk result (λ o. option_map datum o ≡ text_in (kind_of dtype.now) text.now) }
    ensures typed { IfOk result (λ o. IfSome o (λ v. HasType (kind_of dtype.now) (datum v))) }
{
    match dtype {
        DataType::Int128 => Ok(wide_of(text)),
        DataType::String => string_of(alloc, text),
        DataType::Binary => binary_of(alloc, text),
        _ => Ok(None),
    }
}
