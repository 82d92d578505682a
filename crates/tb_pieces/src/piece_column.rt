//! Columns as the rows of a piece are read from them.
ghost use Rattle.std.specs.Prelude.{◌≡◌, ◌<◌, ◌≤◌, ◌^◌, ◌-◌, IfOk, drop, length, map, slice_index_or, take};
ghost use Rattle.std.specs.List.{FoldsTo};
ghost use Rattle.tb_value.specs.Promise.Datum.{Datum, null};
ghost use Rattle.tb_value.specs.See.{IsText, lent_value};
ghost use Rattle.tb_chunk.specs.Promise.Col.{concatenation, values};
ghost use Rattle.tb_chunk.specs.Seen.{chunk_lists};
ghost use Rattle.tb_date.specs.Promise.Dates.{is_date};

use crate::each::for_chunks;
use std::alloc::Global;
use std::marker::Model;
use tb_chunk::value_in;
use tb_date::is_date;
use tb_store::{Chunk, Chunks, Column};
use tb_value::{OutOfMemory, ValueRef};

/// What is done with a value: it is read, and something of it written into what is lent beside it. It is compiled for each type
/// by which values are stored.
pub trait ReadValue {
    /// What is written into.
    type State;

    /// What is answered.
    type Answer;

    /// What a value, and the state before it, may give: an answer, and the state behind it.
    ghost gives: { Self → Datum → Self.State → Self.Answer → Self.State → Type 0 };

    fn read(&self, state: &mut Self::State, value: ValueRef<'_>) -> Self::Answer
        requires { IsText value }
        ensures { gives self.now (lent_value value.entry) state.old result state.new };
}

/// A column, whose rows are found fast from the first row of a piece on.
#[derive(Drop)]
pub struct PieceColumn<'a> {
    column: &'a Column,
    chunks: &'a Chunks,
    is_day: bool,
    // The first chunk that ends behind the first row of the piece, and the number of rows before it.
    first: usize,
    before: usize,
}

impl<'a> Model for PieceColumn<'a> {
    ghost use Rattle.tb_chunk.specs.Promise.Col.{Col};
    ghost use Rattle.tb_chunk.specs.ColCode.{coded_col};
    ghost use Rattle.tb_pieces.specs.PieceColumns.{IsSeenFrom};

    ghost Value = { Col };

    ghost coded = { coded_col };

    ghost view = { λ p. p.column.now };

    ghost invariant = { λ p. IsSeenFrom p.first p.before p.is_day p.chunks.now p.column.now };
}

// The first chunk that ends behind the row, or one behind the last, and the number of rows before it.
fn first_chunk(chunks: &Chunks, row: usize) -> (usize, usize)
    requires { length (concatenation (chunk_lists chunks.now)) < 2 ^ 64 }
    ensures chunk { result.0 ≤ length (chunk_lists chunks.now) }
    ensures rows { drop result.1 (concatenation (chunk_lists chunks.now))
        ≡ concatenation (drop result.0 (chunk_lists chunks.now)) }
{
    let mut before = 0;
    for chunk in 0..chunks.count() {
        let behind = before + chunks.rows_of(chunk);
        if row < behind {
            return (chunk, before);
        }
        before = behind;
    }
    (chunks.count(), before)
}

// Reads the value of a row of the chunks from this number on.
fn read_from<C: Chunk, R: ReadValue>(
    chunks: &[C],
    first: usize,
    row: usize,
    reader: &R,
    state: &mut R::State,
) -> R::Answer
    requires chunk { first ≤ length chunks.now }
    requires row { row < length (concatenation (drop first (map C.shown chunks.now))) }
    ensures { R.gives reader.now
        (slice_index_or (concatenation (drop first (map C.shown chunks.now))) row null)
        state.old result state.new }
{
    reader.read(state, value_in(&chunks[first..], row))
}

// The same of the chunks of a column.
fn read_of<R: ReadValue>(
    chunks: &Chunks,
    first: usize,
    row: usize,
    reader: &R,
    state: &mut R::State,
) -> R::Answer
    requires chunk { first ≤ length (chunk_lists chunks.now) }
    requires row { row < length (concatenation (drop first (chunk_lists chunks.now))) }
    ensures { R.gives reader.now
        (slice_index_or (concatenation (drop first (chunk_lists chunks.now))) row null)
        state.old result state.new }
{
    for_chunks!(chunks, chunks => read_from(chunks, first, row, reader, state))
}

// Reads the values of the rows from one number up to another, one after the other.
fn read_each<C: Chunk, R: ReadValue<Answer = ()>>(
    chunks: &[C],
    start: usize,
    end: usize,
    reader: &R,
    state: &mut R::State,
)
    requires order { start ≤ end }
    requires within { end ≤ length (concatenation (map C.shown chunks.now)) }
    ensures { FoldsTo (λ before value after. R.gives reader.now value before tt after)
        state.old
        (take (end - start) (drop start (concatenation (map C.shown chunks.now))))
        state.new }
{
    for row in start..end {
        reader.read(state, value_in(chunks, row));
    }
}

// The same among the chunks from this number on.
fn read_each_from<C: Chunk, R: ReadValue<Answer = ()>>(
    chunks: &[C],
    first: usize,
    start: usize,
    end: usize,
    reader: &R,
    state: &mut R::State,
)
    requires chunk { first ≤ length chunks.now }
    requires order { start ≤ end }
    requires within { end ≤ length (concatenation (drop first (map C.shown chunks.now))) }
    ensures { FoldsTo (λ before value after. R.gives reader.now value before tt after)
        state.old
        (take (end - start) (drop start (concatenation (drop first (map C.shown chunks.now)))))
        state.new }
{
    read_each(&chunks[first..], start, end, reader, state)
}

// The same of the chunks of a column.
fn read_each_of<R: ReadValue<Answer = ()>>(
    chunks: &Chunks,
    first: usize,
    start: usize,
    end: usize,
    reader: &R,
    state: &mut R::State,
)
    requires chunk { first ≤ length (chunk_lists chunks.now) }
    requires order { start ≤ end }
    requires within { end ≤ length (concatenation (drop first (chunk_lists chunks.now))) }
    ensures { FoldsTo (λ before value after. R.gives reader.now value before tt after)
        state.old
        (take (end - start) (drop start (concatenation (drop first (chunk_lists chunks.now)))))
        state.new }
{
    for_chunks!(chunks, chunks => read_each_from(chunks, first, start, end, reader, state))
}

impl<'a> PieceColumn<'a> {
    /// The column, for the rows from one on.
    pub fn new(column: &'a Column, row: usize) -> PieceColumn<'a>
        ensures { result ≡ column.now }
    {
        let _len = column.len();
        let chunks = column.as_materialized_series().chunks();
        let (first, before) = first_chunk(chunks, row);
        PieceColumn {
            column,
            chunks,
            is_day: is_date(column.dtype()),
            first,
            before,
        }
    }

    /// Whether its values are days.
    #[inline]
    pub fn is_day(&self) -> bool
        ensures { result ≡ is_date self.now.kind }
    {
        self.is_day
    }

    /// Has the value of a row read, and answers what the reader does. The type by which it is stored is asked for before.
    pub fn with_value<R: ReadValue>(
        &self,
        row: usize,
        reader: &R,
        state: &mut R::State,
    ) -> R::Answer
        requires { row < length (values self.now) }
        ensures { R.gives reader.now
            (slice_index_or (values self.now) row null)
            state.old result state.new }
    {
        let (first, row) = match row.checked_sub(self.before) {
            Some(place) => (self.first, place),
            None => (0, row),
        };
        read_of(self.chunks, first, row, reader, state)
    }

    /// Has the values of the rows from one number up to another read, one after the other. The type by which they are stored is asked
    /// for once.
    pub fn with_values<R: ReadValue<Answer = ()>>(
        &self,
        start: usize,
        end: usize,
        reader: &R,
        state: &mut R::State,
    )
        requires order { start ≤ end }
        requires within { end ≤ length (values self.now) }
        ensures { FoldsTo (λ before value after. R.gives reader.now value before tt after)
            state.old (take (end - start) (drop start (values self.now))) state.new }
    {
        if start < self.before {
            return read_each_of(self.chunks, 0, start, end, reader, state);
        }
        let (start, end) = (start - self.before, end - self.before);
        read_each_of(self.chunks, self.first, start, end, reader, state)
    }
}

/// The columns, for the rows from one on.
///
/// # Errors
///
/// `OutOfMemory`.
pub fn piece_columns(
    alloc: Global,
    columns: &[Column],
    row: usize,
) -> Result<Vec<PieceColumn<'_>>, OutOfMemory>
    ensures { IfOk result (λ v. v.items ≡ columns.now) }
{
    let mut lent = Vec::with_capacity(alloc, columns.len())?;
    for column in columns {
        lent.push(PieceColumn::new(column, row))?;
    }
    Ok(lent)
}
