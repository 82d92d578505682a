//! The keys of rows in one buffer.
ghost use Rattle.std.specs.Prelude.{◌≡◌, ◌↔◌, ◌<◌, ◌≤◌, ◌^◌, ◌++◌, ◌&&◌, ◌||◌, ◌-◌, None, IfOk, IfSome, IsSome, OnOk, drop, length, map, slice_index_or, take};
ghost use Rattle.std.specs.List.{All};
ghost use Rattle.std.specs.Option.{option_copied};
ghost use Rattle.tb_value.specs.Promise.Datum.{binary};
ghost use Rattle.tb_chunk.specs.Chunk.{or_null};
ghost use Rattle.tb_chunk.specs.Promise.Col.{values};
ghost use Rattle.tb_rowkey.specs.Promise.Columns.{fields_at, row_bytes, row_count, key_at, keys_at};
ghost use Rattle.tb_rowkey.specs.Columns.{lent_columns, AreShortRows, flag_of};
ghost use Rattle.tb_rowkey.specs.Promise.RowKey.{has_key};
ghost use Rattle.tb_rowkey.specs.RowKeys.{bytes_of, key_of};

use crate::field_column::FieldColumn;
use crate::joining::{field_columns, joined_columns};
use crate::places::Places;
use crate::room::room_for;
use std::alloc::Global;
use std::marker::Model;
use tb_store::{MAX_ROWS, OutOfMemory, Series};
use tb_value::TOO_LONG;

/// The keys of rows, one behind another in one buffer. A row without a key has no bytes there. `of_columns` alone makes
/// one.
#[derive(Drop)]
pub struct RowKeys {
    bytes: Vec<u8>,
    // Where the bytes of each row begin, and where those of the last one end.
    places: Places,
}

impl Model for RowKeys {
    ghost use Rattle.std.specs.Prelude.{ℕ, List, Option};
    ghost use Rattle.tb_rowkey.specs.Places.{places_in};
    ghost use Rattle.tb_rowkey.specs.RowKeys.{ArePlaces, keys_in};

    ghost Value = { List (Option (List ℕ)) };

    ghost view = { λ k. keys_in k.bytes.items (places_in k.places) };

    ghost invariant = { λ k. ArePlaces k.bytes.items (places_in k.places) };
}

impl RowKeys {
    /// The keys of the rows of these columns, or none where the bytes of a row are 2^32 or more, of a row without a key
    /// too. The key of a row has the bytes of its fields in the order of the columns; a row with a Null field whose
    /// column's flag is false has none. There is a column at least, the columns are of one length, and each has a flag.
    ///
    /// A column that is cut into chunks is put into one chunk before it is read by rows; any other is lent.
    ///
    /// # Errors
    ///
    /// `OutOfMemory` where memory is wanting.
    pub fn of_columns(
        alloc: Global,
        columns: &[&Series],
        join_nulls: &[bool],
    ) -> Result<Option<RowKeys>, OutOfMemory>
        requires some { 0 < length columns.now }
        requires rows { All (λ c. length (values c) ≡ row_count (lent_columns columns.now))
            (lent_columns columns.now) }
        requires flags { length join_nulls.now ≡ length columns.now }
        ensures short { IfOk result (λ keys.
            IsSome keys ↔ AreShortRows (lent_columns columns.now)) }
        ensures keys { IfOk result (λ keys.
            IfSome keys (λ k.
            map (or_null binary) k
            ≡ keys_at (lent_columns columns.now) (flag_of join_nulls.now))) }
    {
        let joined = joined_columns(alloc, columns)?;
        let fields = field_columns(alloc, columns, &joined)?;
        keys_of(alloc, &fields, join_nulls)
    }

    /// The number of rows.
    pub fn len(&self) -> usize
        ensures exact { result ≡ length self.now }
        ensures few { result ≤ MAX_ROWS }
    {
        self.places.len() - 1
    }

    /// Does nothing: its contract is what holds of the rows of any keys.
    pub fn know_rows(&self)
        ensures few { length self.now ≤ MAX_ROWS }
    {
        let _rows = self.len();
    }

    /// The key of a row, lent.
    pub fn get(&self, row: usize) -> Option<&[u8]>
        requires { row < length self.now }
        ensures value { option_copied result ≡ slice_index_or self.now row None }
        ensures short { IfSome result (λ key. length key.now < 2 ^ 32) }
    {
        key_between(&self.bytes, self.places.at(row), self.places.at(row + 1))
    }
}

// The bytes from one place to another, or none where there are no bytes.
fn key_between(bytes: &[u8], start: usize, end: usize) -> Option<&[u8]>
    requires order { start ≤ end }
    requires within { end ≤ length bytes.now }
    ensures value { option_copied result ≡ key_of (take (end - start) (drop start bytes.now)) }
    ensures len { IfSome result (λ key. length key.now ≡ end - start) }
{
    let key = &bytes[start..end];
    if key.is_empty() { None } else { Some(key) }
}

// Whether a row has a key that had one so far, and has this field.
fn keeps_key(has_key: bool, is_present: bool, null_matches: bool) -> bool
    ensures { result ≡ (has_key && (is_present || null_matches)) }
{
    has_key && (is_present || null_matches)
}

// Writes the fields of a row behind the bytes, and says whether the row has a key.
fn push_fields(
    bytes: &mut Vec<u8>,
    columns: &[FieldColumn<'_>],
    join_nulls: &[bool],
    row: usize,
) -> Result<bool, OutOfMemory>
    requires rows { All (λ c. row < length (values c)) columns.now }
    requires flags { length join_nulls.now ≡ length columns.now }
    ensures bytes { OnOk result (bytes.new.items ≡ bytes.old.items ++ row_bytes columns.now row) }
    ensures key { IfOk result (λ b.
        b ≡ has_key (flag_of join_nulls.now) (fields_at columns.now row)) }
{
    let mut has_key = true;
    for place in 0..columns.len() {
        let is_present = columns[place].push_field(bytes, row)?;
        has_key = keeps_key(has_key, is_present, join_nulls[place]);
    }
    Ok(has_key)
}

// Puts the key of a row behind the bytes, and says how many the fields have, of a row without a key too.
fn push_key(
    bytes: &mut Vec<u8>,
    columns: &[FieldColumn<'_>],
    join_nulls: &[bool],
    row: usize,
) -> Result<usize, OutOfMemory>
    requires rows { All (λ c. row < length (values c)) columns.now }
    requires flags { length join_nulls.now ≡ length columns.now }
    ensures len { IfOk result (λ n. n ≡ length (row_bytes columns.now row)) }
    ensures bytes { OnOk result
        (bytes.new.items
        ≡ bytes.old.items ++ bytes_of (key_at columns.now (flag_of join_nulls.now) row)) }
{
    let start = bytes.len();
    let has_key = push_fields(bytes, columns, join_nulls, row)?;
    let end = bytes.len();
    if !has_key {
        bytes.truncate(start);
    }
    Ok(end - start)
}

// The keys of the rows of these columns.
fn keys_of(
    alloc: Global,
    columns: &[FieldColumn<'_>],
    join_nulls: &[bool],
) -> Result<Option<RowKeys>, OutOfMemory>
    requires some { 0 < length columns.now }
    requires rows { All (λ c. length (values c) ≡ row_count columns.now) columns.now }
    requires flags { length join_nulls.now ≡ length columns.now }
    ensures short { IfOk result (λ keys. IsSome keys ↔ AreShortRows columns.now) }
    ensures keys { IfOk result (λ keys.
        IfSome keys (λ k. map (or_null binary) k ≡ keys_at columns.now (flag_of join_nulls.now))) }
{
    let rows = columns[0].len();
    let mut bytes = Vec::with_capacity(alloc, room_for(columns))?;
    let mut places = Places::from_zero(rows + 1);
    for row in 0..rows {
        if push_key(&mut bytes, columns, join_nulls, row)? >= TOO_LONG {
            return Ok(None);
        }
        places.push(alloc, bytes.len())?;
    }
    Ok(Some(RowKeys { bytes, places }))
}
