//! The texts of headers.
ghost use Rattle.std.specs.Prelude.{◌≡◌, ◌<◌, ◌∷◌, ◌++◌, IfOk, OnOk, length, map};
ghost use Rattle.std.specs.String.{string_bytes};
ghost use Rattle.std.specs.List.{All, join_with_byte};
ghost use Rattle.tb_value.specs.See.{lent_value, IsText};
ghost use Rattle.tb_chunk.specs.Promise.Col.{values};
ghost use Rattle.tb_rows.specs.Promise.Rows.{row_value};
ghost use Rattle.tb_pivot.specs.Promise.Headers.{block_name, brace_name, field_text, header_text, in_braces, quoted_text};

use std::alloc::Global;
use tb_label::value_text;
use tb_store::Series;
use tb_value::{OutOfMemory, PlSmallStr, ValueRef};

// The text in double quotes, in which nothing is escaped.
fn quoted(alloc: Global, text: &str) -> Result<PlSmallStr, OutOfMemory>
    ensures { IfOk result (λ s. s ≡ quoted_text text.now) }
{
    PlSmallStr::from_str(alloc, "\"")?
        .followed_by(alloc, text)?
        .followed_by(alloc, "\"")
}

// The text of a value among several.
fn field_text(alloc: Global, value: ValueRef<'_>) -> Result<PlSmallStr, OutOfMemory>
    requires { IsText value }
    ensures { IfOk result (λ s. s ≡ field_text (lent_value value.entry)) }
{
    let text = value_text(alloc, value)?;
    match value {
        ValueRef::String(_) => quoted(alloc, text.as_str()),
        _ => Ok(text),
    }
}

// Puts a comma and a text behind others.
fn push_next(joined: &mut String, text: &PlSmallStr) -> Result<(), OutOfMemory>
    ensures { OnOk result (string_bytes joined.new ≡ string_bytes joined.old ++ (44 ∷ text.now)) }
{
    joined.push_str(",")?;
    joined.push_str(text.as_str())?;
    Ok(())
}

// Texts with a comma between each two.
fn joined(alloc: Global, first: &PlSmallStr, rest: &[PlSmallStr]) -> Result<String, OutOfMemory>
    ensures { IfOk result (λ s. string_bytes s ≡ join_with_byte 44 (first.now ∷ rest.now)) }
{
    let mut joined = String::new(alloc);
    joined.push_str(first.as_str())?;
    for text in rest {
        push_next(&mut joined, text)?;
    }
    Ok(joined)
}

// The texts in braces, with a comma between each two.
fn in_braces(alloc: Global, texts: &[PlSmallStr]) -> Result<PlSmallStr, OutOfMemory>
    ensures { IfOk result (λ s. s ≡ in_braces texts.now) }
{
    let open = PlSmallStr::from_str(alloc, "{")?;
    match texts {
        [] => open.followed_by(alloc, "}"),
        [first, rest @ ..] => open
            .followed_by(alloc, joined(alloc, first, rest)?.as_str())?
            .followed_by(alloc, "}"),
    }
}

// The texts of the values of a row.
fn field_texts(
    alloc: Global,
    columns: &[&Series],
    row: usize,
) -> Result<Vec<PlSmallStr>, OutOfMemory>
    requires { All (λ c. row < length (values c.now)) columns.now }
    ensures { IfOk result (λ v.
        v.items ≡ map (λ c. field_text (row_value (values c.now) row)) columns.now) }
{
    let mut texts = Vec::with_capacity(alloc, columns.len())?;
    for column in columns {
        texts.push(field_text(alloc, column.get(row))?)?;
    }
    Ok(texts)
}

/// The header of a row: of one column the text of its value, and of several the texts of the values in braces, where a
/// String stands in quotes. The columns have the row.
///
/// # Errors
///
/// `OutOfMemory` where memory is wanting.
pub(crate) fn header_text(
    alloc: Global,
    columns: &[&Series],
    row: usize,
) -> Result<PlSmallStr, OutOfMemory>
    requires { All (λ c. row < length (values c.now)) columns.now }
    ensures { IfOk result (λ s.
        s ≡ header_text (map (λ c. row_value (values c.now) row) columns.now)) }
{
    if columns.len() == 1 {
        return value_text(alloc, columns[0].get(row));
    }
    in_braces(alloc, &field_texts(alloc, columns, row)?)
}

/// The name that is kept for the headers of columns of these names: the names in quotes and braces.
///
/// # Errors
///
/// `OutOfMemory` where memory is wanting.
pub(crate) fn brace_name(alloc: Global, names: &[PlSmallStr]) -> Result<PlSmallStr, OutOfMemory>
    ensures { IfOk result (λ s. s ≡ brace_name names.now) }
{
    let mut texts = Vec::with_capacity(alloc, names.len())?;
    for name in names {
        texts.push(quoted(alloc, name.as_str())?)?;
    }
    in_braces(alloc, &texts)
}

/// The name of the column of a header, behind the name of the value column and the separator where there are several value
/// columns.
///
/// # Errors
///
/// `OutOfMemory` where memory is wanting.
pub(crate) fn block_name(
    alloc: Global,
    value_columns: usize,
    separator: &str,
    value: &PlSmallStr,
    header: &PlSmallStr,
) -> Result<PlSmallStr, OutOfMemory>
    ensures { IfOk result (λ s. s ≡ block_name value_columns separator.now value.now header.now) }
{
    if value_columns > 1 {
        return value
            .followed_by(alloc, separator)?
            .followed_by(alloc, header.as_str());
    }
    header.copy(alloc)
}
