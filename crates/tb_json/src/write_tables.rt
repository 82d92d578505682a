//! The texts of tables, written item by item behind one another.
ghost use Rattle.std.specs.Prelude.{◌≡◌, ◌<◌, ◌≤ℤ◌, ◌++◌, false, IfOk, OnOk, codes, decimal, map, negsuc, pos, string_bytes};
ghost use Rattle.std.specs.List.{All, list_all};
ghost use Rattle.std.specs.Str.{IsUtf8};
ghost use Rattle.json.specs.Print.{quoted};
ghost use Rattle.json.specs.Run.{is_plain};
ghost use Rattle.serde_json.specs.View.{view, items_of};
ghost use Rattle.serde_json.specs.Data.{array, number};
ghost use Rattle.serde_json.specs.Find.{of_integer};
ghost use Rattle.serde_json.specs.Written.{comma_if, compact_text, has_float};
ghost use Rattle.tb_value.specs.See.{lent_value};
ghost use Rattle.tb_value.specs.SeeKind.{kind_of};
ghost use Rattle.tb_value.specs.Promise.Typed.{HasType};
ghost use Rattle.tb_chunk.specs.Promise.Col.{concatenation, values};
ghost use Rattle.tb_chunk.specs.Seen.{chunk_lists};
ghost use Rattle.tb_frame.specs.Promise.Table.{plain_column, table_of};
ghost use Rattle.tb_json.specs.Promise.Text.{value_data, column_data, text_of, traced_text_of};
ghost use Rattle.tb_json.specs.Written.{heading, open_table, with_items};

use crate::open_text::OpenText;
use crate::write_cells::{cell_value, is_wide};
use crate::write_kinds::type_value;
use itoa::Buffer;
use serde_json::Value;
use std::alloc::Global;
use tb_frame::DataFrame;
use tb_store::{Chunk, Chunks, Column};
use tb_text::Text;
use tb_value::{DataType, OutOfMemory, ValueRef};

/// Appends a comma, where an item stands before.
pub fn push_comma(text: &mut String, later: bool) -> Result<(), OutOfMemory>
    ensures { OnOk result (string_bytes text.new ≡ string_bytes text.old ++ comma_if later) }
{
    if later {
        text.push_str(",")?;
    }
    Ok(())
}

// The text of a value without floats.
fn push_value(alloc: Global, text: &mut String, value: &Value) -> Result<(), OutOfMemory>
    requires { has_float (view value.now) ≡ false }
    ensures { OnOk result
        (string_bytes text.new ≡ string_bytes text.old ++ compact_text (view value.now)) }
{
    let written = value.to_string(alloc)?;
    text.push_str(written.as_str())?;
    Ok(())
}

// A number of one digit, which needs no buffer.
fn push_digit(text: &mut String, digit: u8) -> Result<(), OutOfMemory>
    requires { digit < 10 }
    ensures { OnOk result
        (string_bytes text.new ≡ string_bytes text.old ++ decimal digit) }
{
    text.push(char::from(b'0' + digit))?;
    Ok(())
}

// A whole number of at most 64 bits.
fn push_number(text: &mut String, integer: i128) -> Result<(), OutOfMemory>
    requires low { negsuc 9223372036854775807 ≤ℤ integer }
    requires high { integer ≤ℤ pos 18446744073709551615 }
    ensures { OnOk result
        (string_bytes text.new
        ≡ string_bytes text.old ++ compact_text (number (of_integer integer))) }
{
    if (0..10).contains(&integer) {
        return push_digit(text, integer as u8);
    }
    let mut buffer = Buffer::new();
    if integer < 0 {
        text.push_str(buffer.format(integer as i64))?;
    } else {
        text.push_str(buffer.format(integer as u64))?;
    }
    Ok(())
}

// Whether a byte of a text stands for itself between quotes.
fn is_plain(byte: u8) -> bool
    ensures { result ≡ is_plain byte }
{
    byte >= b' ' && byte != b'"' && byte != b'\\'
}

fn are_plain(bytes: &[u8]) -> bool
    ensures { result ≡ list_all is_plain bytes.now }
{
    bytes.iter().all(|byte| is_plain(*byte))
}

// A text between quotes. One that has no escape takes no memory of its own.
fn push_quoted(alloc: Global, text: &mut String, shown: &str) -> Result<(), OutOfMemory>
    ensures { OnOk result (string_bytes text.new ≡ string_bytes text.old ++ quoted shown.now) }
{
    if are_plain(shown.as_bytes()) {
        text.push_str("\"")?;
        text.push_str(shown)?;
        text.push_str("\"")?;
        return Ok(());
    }
    push_value(alloc, text, &Value::try_from_str(alloc, shown)?)
}

fn push_text(alloc: Global, text: &mut String, bytes: &[u8]) -> Result<(), OutOfMemory>
    requires { IsUtf8 bytes.now }
    ensures { OnOk result (string_bytes text.new ≡ string_bytes text.old ++ quoted bytes.now) }
{
    match str::from_utf8(bytes) {
        Ok(shown) => push_quoted(alloc, text, shown),
        Err(_) => unreachable!(),
    }
}

// Numbers, texts, truth values and Nulls, which are most of the cells, are written without a JSON value. For each type of
// chunk the compiler then knows which of these a cell can be.
#[inline(always)]
#[tactic(auto, using(crate::proofs::Narrow::narrow))]
fn push_cell(
    alloc: Global,
    text: &mut String,
    value: ValueRef<'_>,
    dtype: &DataType,
) -> Result<(), OutOfMemory>
    requires { HasType (kind_of dtype.now) (lent_value value) }
    ensures { OnOk result (string_bytes text.new
        ≡ string_bytes text.old ++ compact_text (value_data (kind_of dtype.now) (lent_value value.entry))) }
{
    match value {
        ValueRef::Null => Ok(text.push_str("null")?),
        ValueRef::Boolean(true) => Ok(text.push_str("true")?),
        ValueRef::Boolean(false) => Ok(text.push_str("false")?),
        ValueRef::Int(integer) if !is_wide(dtype) => push_number(text, integer),
        ValueRef::String(bytes) => push_text(alloc, text, bytes),
        _ => push_value(alloc, text, &cell_value(alloc, value, dtype)?),
    }
}

// The values of a chunk, as items of an array in which one stands already if `later` says so. Answers whether one
// does after them.
fn push_chunk<C: Chunk>(
    alloc: Global,
    text: &mut OpenText,
    later: bool,
    chunk: &C,
    dtype: &DataType,
) -> Result<bool, OutOfMemory>
    requires { All (HasType (kind_of dtype.now)) (C.shown chunk.now) }
    ensures { IfOk result (λ after. (text.new, after)
        ≡ with_items (text.old, later) (map (value_data (kind_of dtype.now)) (C.shown chunk.now))) }
{
    let mut later = later;
    for row in 0..chunk.len() {
        push_comma(&mut text.last, later)?;
        push_cell(alloc, &mut text.last, chunk.value(row), dtype)?;
        text.close_full(alloc)?;
        later = true;
    }
    Ok(later)
}

fn push_chunks<C: Chunk>(
    alloc: Global,
    text: &mut OpenText,
    chunks: &[C],
    dtype: &DataType,
) -> Result<(), OutOfMemory>
    requires { All (HasType (kind_of dtype.now)) (concatenation (map C.shown chunks.now)) }
    ensures { OnOk result (text.new
        ≡ (with_items (text.old, false) (map (value_data (kind_of dtype.now)) (concatenation (map C.shown chunks.now)))).0) }
{
    let mut later = false;
    for chunk in chunks {
        later = push_chunk(alloc, text, later, chunk, dtype)?;
    }
    Ok(())
}

// The values of a column, as items of an array.
fn push_values(
    alloc: Global,
    text: &mut OpenText,
    chunks: &Chunks,
    dtype: &DataType,
) -> Result<(), OutOfMemory>
    requires { All (HasType (kind_of dtype.now)) (concatenation (chunk_lists chunks.now)) }
    ensures { OnOk result (text.new
        ≡ (with_items (text.old, false) (map (value_data (kind_of dtype.now)) (concatenation (chunk_lists chunks.now)))).0) }
{
    match chunks {
        Chunks::BooleanType(chunks) => push_chunks(alloc, text, chunks, dtype),
        Chunks::Int8Type(chunks) => push_chunks(alloc, text, chunks, dtype),
        Chunks::Int16Type(chunks) => push_chunks(alloc, text, chunks, dtype),
        Chunks::Int32Type(chunks) => push_chunks(alloc, text, chunks, dtype),
        Chunks::Int64Type(chunks) => push_chunks(alloc, text, chunks, dtype),
        Chunks::Int128Type(chunks) => push_chunks(alloc, text, chunks, dtype),
        Chunks::UInt8Type(chunks) => push_chunks(alloc, text, chunks, dtype),
        Chunks::UInt16Type(chunks) => push_chunks(alloc, text, chunks, dtype),
        Chunks::UInt32Type(chunks) => push_chunks(alloc, text, chunks, dtype),
        Chunks::UInt64Type(chunks) => push_chunks(alloc, text, chunks, dtype),
        Chunks::StringType(chunks) => push_chunks(alloc, text, chunks, dtype),
        Chunks::BinaryType(chunks) => push_chunks(alloc, text, chunks, dtype),
        Chunks::ListType(chunks) => push_chunks(alloc, text, chunks, dtype),
        Chunks::StructType(chunks) => push_chunks(alloc, text, chunks, dtype),
        Chunks::Null(chunks) => push_chunks(alloc, text, chunks, dtype),
    }
}

// The values of a column, as an array.
fn push_array(alloc: Global, text: &mut OpenText, column: &Column) -> Result<(), OutOfMemory>
    ensures { OnOk result (text.new
        ≡ text.old ++ compact_text (array (items_of (map (value_data column.now.kind) (values column.now))))) }
{
    // Its clauses say that the values are of the column's type.
    let _len = column.len();
    let series = column.as_materialized_series();
    text.last.push_str("[")?;
    push_values(alloc, text, series.chunks(), series.dtype())?;
    text.last.push_str("]")?;
    Ok(())
}

// The name and the type of a column, as the first members of an object.
fn push_heading(alloc: Global, text: &mut String, column: &Column) -> Result<(), OutOfMemory>
    ensures { OnOk result
        (string_bytes text.new ≡ string_bytes text.old ++ heading (plain_column column.now)) }
{
    text.push_str("{\"name\":")?;
    push_quoted(alloc, text, column.name().as_str())?;
    text.push_str(",\"type\":")?;
    let dtype = type_value(alloc, column.dtype())?;
    push_value(alloc, text, &dtype)
}

fn push_column(alloc: Global, text: &mut OpenText, column: &Column) -> Result<(), OutOfMemory>
    ensures { OnOk result
        (text.new ≡ text.old ++ compact_text (column_data (plain_column column.now))) }
{
    push_heading(alloc, &mut text.last, column)?;
    text.last.push_str(",\"values\":")?;
    push_array(alloc, text, column)?;
    text.last.push_str("}")?;
    text.close_full(alloc)
}

// The columns of a table, as items of an array. Each is let go once it is written.
fn push_columns(alloc: Global, text: &mut OpenText, columns: Vec<Column>) -> Result<(), OutOfMemory>
    ensures { OnOk result (text.new
        ≡ (with_items (text.old, false) (map column_data (table_of columns.items))).0) }
{
    let mut later = false;
    for column in columns {
        push_comma(&mut text.last, later)?;
        push_column(alloc, text, &column)?;
        later = true;
    }
    Ok(())
}

// The members of a table, in an object that is left open.
fn open_members(alloc: Global, table: DataFrame) -> Result<OpenText, OutOfMemory>
    ensures { IfOk result (λ t. t ≡ open_table (table_of table)) }
{
    let height = table.height();
    let mut text = OpenText::new(alloc)?;
    text.last.push_str("{\"columns\":[")?;
    push_columns(alloc, &mut text, table.into_columns())?;
    text.last.push_str("],\"height\":")?;
    push_value(alloc, &mut text.last, &Value::from(height))?;
    Ok(text)
}

/// The members of a table, in an object that is left open for further ones. Each column is let go once it is written.
pub fn open_table(alloc: Global, table: DataFrame) -> Result<Text, OutOfMemory>
    ensures { IfOk result (λ t. t ≡ open_table (table_of table)) }
{
    open_members(alloc, table)?.close()
}

/// The text of a table, with the newline that ends it. Each column is let go once it is written.
pub fn into_text(alloc: Global, table: DataFrame) -> Result<Text, OutOfMemory>
    ensures { IfOk result (λ t. t ≡ text_of (table_of table)) }
{
    let mut text = open_members(alloc, table)?;
    text.last.push_str("}\n")?;
    text.close()
}

/// The same with the member `trace` behind the others: how the table was made.
pub fn traced_text_of(alloc: Global, table: DataFrame, trace: &Value) -> Result<Text, OutOfMemory>
    requires { has_float (view trace.now) ≡ false }
    ensures { IfOk result (λ t. t ≡ traced_text_of (table_of table) (view trace.now)) }
{
    let mut text = open_members(alloc, table)?;
    text.last.push_str(",\"trace\":")?;
    push_value(alloc, &mut text.last, trace)?;
    text.last.push_str("}\n")?;
    text.close()
}
