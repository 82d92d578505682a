//! Values, read from a text in one pass over its tokens.
ghost use Rattle.std.specs.Prelude.{◌≡◌, ◌<◌, ◌≤◌, ℕ, [], ◌∷◌, length, map, option_map, Some, None, Err, IfOk, OnOk, OnErr, IsUtf8, MatchOption};
ghost use Rattle.json.specs.Json.{after_end_array, value, members};
ghost use Rattle.json.specs.Reads.{token_of};
ghost use Rattle.serde_json.specs.Data.{array, number, string, no_members};
ghost use Rattle.serde_json.specs.Read.{number_of, of_json, of_members, converted, read as read_text};
ghost use Rattle.serde_json.specs.View.{items_of};
ghost use Rattle.tb_tree.specs.Arrays.{array_after};
ghost use Rattle.tb_tree.specs.Begun.{begun_view};
ghost use Rattle.tb_tree.specs.View.{view, members_view, whole};
ghost use Rattle.tb_tree.specs.declared.read.Fault.TheVariants.{NoJson, OutOfMemory};

use crate::number::number_of;
use crate::value::{Map, Value, list_of_two, spread_before};
use arrayvec::ArrayString;
use json::{Invalid, Reader, Scratch, Token};
use std::alloc::{AllocError, AllocFailed, Global};

/// How deep arrays and objects may nest.
const MAX_DEPTH: usize = 127;

/// Why bytes are read as no value.
#[derive(Clone, Copy, Debug, PartialEq, Eq, Drop)]
pub enum Fault {
    /// They are no JSON text, or one that nests deeper than 127 levels or has a number that is too large for a float.
    NoJson,
    OutOfMemory,
}

impl From<Invalid> for Fault {
    ghost from_gives = { λ _ f. f ≡ NoJson };

    fn from(_invalid: Invalid) -> Fault {
        Fault::NoJson
    }
}

impl From<AllocError> for Fault {
    ghost from_gives = { λ _ f. f ≡ OutOfMemory };

    fn from(_refused: AllocError) -> Fault {
        Fault::OutOfMemory
    }
}

impl<T: Drop> From<AllocFailed<T>> for Fault {
    ghost from_gives = { λ _ f. f ≡ OutOfMemory };

    fn from(_refused: AllocFailed<T>) -> Fault {
        Fault::OutOfMemory
    }
}

impl Value {
    /// The value that the bytes are.
    ///
    /// # Errors
    ///
    /// `OutOfMemory` may come at any time. Else `NoJson` where the bytes are not UTF-8 or the text is no value.
    pub fn from_slice(alloc: Global, bytes: &[u8]) -> Result<Value, Fault>
        ensures ok { IfOk result (λ v. IsUtf8 bytes.now × (read_text bytes.now ≡ Some (view v))) }
        ensures err { result ≡ Err Fault.NoJson → IsUtf8 bytes.now → read_text bytes.now ≡ None }
    {
        match simdutf8::compat::from_utf8(bytes) {
            Ok(text) => read_all(alloc, text, &mut Scratch::new(alloc)),
            Err(_) => Err(Fault::NoJson),
        }
    }
}

fn read_all(alloc: Global, text: &str, scratch: &mut Scratch) -> Result<Value, Fault>
    ensures ok { IfOk result (λ v. read_text text.now ≡ Some (view v)) }
    ensures err { result ≡ Err Fault.NoJson → read_text text.now ≡ None }
{
    let mut reader = Reader::new(text, scratch)?;
    let value = read(alloc, &mut reader, MAX_DEPTH)?;
    if reader.next().is_some() {
        return Err(Fault::NoJson);
    }
    Ok(value)
}

// An own copy of a text.
fn text_of(alloc: Global, text: &str) -> Result<Value, AllocError>
    ensures { IfOk result (λ v. view v ≡ string text.now) }
{
    match ArrayString::from(text) {
        Ok(short) => Ok(Value::Short(Box::new(alloc, short)?)),
        Err(_) => Ok(Value::Long(Box::new(alloc, String::from_str(alloc, text)?)?)),
    }
}

// The value that a number is.
#[inline(always)]
fn number_in(text: &str) -> Result<Value, Fault>
    ensures ok { IfOk result (λ v. option_map number (number_of text.now) ≡ Some (view v)) }
    ensures err { OnErr result (option_map number (number_of text.now) ≡ None) }
{
    match number_of(text) {
        Some(number) => Ok(number),
        None => Err(Fault::NoJson),
    }
}

// An array of one value.
#[inline(always)]
fn one(alloc: Global, value: Value) -> Result<Value, AllocError>
    ensures { IfOk result (λ v. view v ≡ array (items_of (view value ∷ []))) }
{
    match value.as_whole() {
        Some(number) => Ok(Value::OneWhole(number)),
        None => Ok(Value::One(Box::new(alloc, value)?)),
    }
}

// An array of two values.
#[inline(always)]
fn two(alloc: Global, first: Value, second: Value) -> Result<Value, AllocError>
    ensures { IfOk result (λ v. view v ≡ array (items_of (view first ∷ view second ∷ []))) }
{
    match (first.as_short(), second.as_short()) {
        (Some(a), Some(b)) => Ok(Value::TwoShort(a, b)),
        _ => Ok(Value::Two(Box::new(alloc, (first, second))?)),
    }
}

// The first values of an array that has more than two.
#[derive(Drop)]
enum Begun {
    Wholes(Vec<i64>),
    Values(Vec<Value>),
}

fn first_two(alloc: Global, first: Value, second: Value) -> Result<Begun, AllocError>
    ensures { IfOk result (λ b. begun_view b ≡ view first ∷ view second ∷ []) }
{
    match (first.as_whole(), second.as_whole()) {
        (Some(a), Some(b)) => Ok(Begun::Wholes(vec![in alloc; a, b]?)),
        _ => Ok(Begun::Values(list_of_two(alloc, (first, second))?)),
    }
}

// The next value of the reader. Arrays and objects may nest `depth` deep.
#[cycle(read)]
fn read(alloc: Global, reader: &mut Reader<'_>, depth: usize) -> Result<Value, Fault>
    ensures ok { IfOk result
        (λ v. converted of_json (value depth reader.old) ≡ Some (view v, reader.new)) }
    ensures shorter { OnOk result (length reader.new < length reader.old) }
    ensures err { result ≡ Err Fault.NoJson → converted of_json (value depth reader.old) ≡ None }
{
    let token = reader.next().ok_or(Fault::NoJson)?;
    read_from(alloc, reader, depth, token)
}

// The same behind its first token.
#[cycle(read)]
fn read_from(
    alloc: Global,
    reader: &mut Reader<'_>,
    depth: usize,
    token: Token<'_>,
) -> Result<Value, Fault>
    ensures ok { IfOk result
        (λ v. converted of_json (value depth (token_of token.entry ∷ reader.old)) ≡ Some (view v, reader.new)) }
    ensures shorter { OnOk result (length reader.new ≤ length reader.old) }
    ensures err { result ≡ Err Fault.NoJson
        → converted of_json (value depth (token_of token.entry ∷ reader.old)) ≡ None }
{
    match token {
        Token::String(text) => Ok(text_of(alloc, text)?),
        Token::Number(text) => Ok(number_in(text)?),
        Token::Bool(b) => Ok(Value::Bool(b)),
        Token::Null => Ok(Value::Null),
        Token::EndObject | Token::EndArray | Token::Key(_) | Token::Bad => Err(Fault::NoJson),
        Token::BeginArray => {
            if depth == 0 {
                return Err(Fault::NoJson);
            }
            read_array(alloc, reader, depth - 1)
        }
        Token::BeginObject => {
            if depth == 0 {
                return Err(Fault::NoJson);
            }
            let members = read_members(alloc, reader, depth - 1)?;
            Ok(Value::Object(Box::new(alloc, members)?))
        }
    }
}

// The next value of an array, or None at its end. Most values are numbers, which are read here without a call.
#[inline(always)]
#[cycle(read)]
fn next_item(alloc: Global, reader: &mut Reader<'_>, depth: usize) -> Result<Option<Value>, Fault>
    ensures ok { IfOk result (λ o. MatchOption o (after_end_array reader.old ≡ Some reader.new)
        (λ v. (after_end_array reader.old ≡ None)
        × (converted of_json (value depth reader.old) ≡ Some (view v, reader.new)))) }
    ensures shorter { OnOk result (length reader.new < length reader.old) }
    ensures err { result ≡ Err Fault.NoJson → (after_end_array reader.old ≡ None)
        × (converted of_json (value depth reader.old) ≡ None) }
{
    let token = reader.next().ok_or(Fault::NoJson)?;
    match token {
        Token::EndArray => Ok(None),
        Token::Number(text) => Ok(Some(number_in(text)?)),
        Token::BeginArray
        | Token::BeginObject
        | Token::String(_)
        | Token::Bool(_)
        | Token::Null
        | Token::EndObject
        | Token::Key(_)
        | Token::Bad => Ok(Some(read_from(alloc, reader, depth, token)?)),
    }
}

// What is left of an array behind its bracket.
#[cycle(read)]
fn read_array(alloc: Global, reader: &mut Reader<'_>, depth: usize) -> Result<Value, Fault>
    ensures ok { IfOk result
        (λ v. array_after [] depth (length reader.old) reader.old ≡ Some (view v, reader.new)) }
    ensures shorter { OnOk result (length reader.new < length reader.old) }
    ensures err { result ≡ Err Fault.NoJson
        → array_after [] depth (length reader.old) reader.old ≡ None }
{
    let Some(first) = next_item(alloc, reader, depth)? else {
        return Ok(Value::Empty);
    };
    let Some(second) = next_item(alloc, reader, depth)? else {
        return Ok(one(alloc, first)?);
    };
    if reader.take_end_array() {
        return Ok(two(alloc, first, second)?);
    }
    let begun = first_two(alloc, first, second)?;
    read_more(alloc, reader, depth, begun)
}

// The same behind the first two values.
#[cycle(read)]
fn read_more(
    alloc: Global,
    reader: &mut Reader<'_>,
    depth: usize,
    begun: Begun,
) -> Result<Value, Fault>
    ensures ok { (most : ℕ) → length reader.old ≤ most → IfOk result
        (λ v. array_after (begun_view begun) depth most reader.old ≡ Some (view v, reader.new)) }
    ensures shorter { OnOk result (length reader.new < length reader.old) }
    ensures err { (most : ℕ) → length reader.old ≤ most → result ≡ Err Fault.NoJson
        → array_after (begun_view begun) depth most reader.old ≡ None }
{
    match begun {
        Begun::Wholes(found) => read_wholes(alloc, reader, depth, found),
        Begun::Values(found) => read_values(alloc, reader, depth, found),
    }
}

// The same behind whole numbers.
#[cycle(read)]
fn read_wholes(
    alloc: Global,
    reader: &mut Reader<'_>,
    depth: usize,
    mut found: Vec<i64>,
) -> Result<Value, Fault>
    ensures ok { (most : ℕ) → length reader.old ≤ most → IfOk result
        (λ v. array_after (map whole found.items) depth most reader.old ≡ Some (view v, reader.new)) }
    ensures shorter { OnOk result (length reader.new < length reader.old) }
    ensures err { (most : ℕ) → length reader.old ≤ most → result ≡ Err Fault.NoJson
        → array_after (map whole found.items) depth most reader.old ≡ None }
{
    'wholes: while let Some(item) = next_item(alloc, reader, depth)? {
        match item.into_whole() {
            Ok(number) => found.push(number)?,
            Err(item) => {
                let values = spread_before(alloc, found, item)?;
                return read_values(alloc, reader, depth, values);
            }
        }
    }
    Ok(Value::Wholes(Box::new(alloc, found)?))
}

// The same behind any values.
#[cycle(read)]
fn read_values(
    alloc: Global,
    reader: &mut Reader<'_>,
    depth: usize,
    mut found: Vec<Value>,
) -> Result<Value, Fault>
    ensures ok { (most : ℕ) → length reader.old ≤ most → IfOk result
        (λ v. array_after (map view found.items) depth most reader.old ≡ Some (view v, reader.new)) }
    ensures shorter { OnOk result (length reader.new < length reader.old) }
    ensures err { (most : ℕ) → length reader.old ≤ most → result ≡ Err Fault.NoJson
        → array_after (map view found.items) depth most reader.old ≡ None }
{
    'values: while let Some(item) = next_item(alloc, reader, depth)? {
        found.push(item)?;
    }
    Ok(Value::Array(Box::new(alloc, found)?))
}

// The members go in one after another, so the last value of a name stays.
#[cycle(read)]
fn read_members(
    alloc: Global,
    reader: &mut Reader<'_>,
    depth: usize,
) -> Result<Map<String, Value>, Fault>
    ensures ok { IfOk result
        (λ m. converted (λ ms. of_members ms no_members)
        (members (value depth) (length reader.old) reader.old)
        ≡ Some (members_view m.entries, reader.new)) }
    ensures shorter { OnOk result (length reader.new < length reader.old) }
    ensures err { result ≡ Err Fault.NoJson
        → converted (λ ms. of_members ms no_members)
        (members (value depth) (length reader.old) reader.old) ≡ None }
{
    let mut found = Map::new(alloc);
    'members: while let Some(name) = reader.next_key()? {
        let key = String::from_str(alloc, name)?;
        let member = read(alloc, reader, depth)?;
        drop(found.insert(key, member)?);
    }
    Ok(found)
}
