//! What one pass over the rows of groups keeps for an aggregate, and the column that is made of it.
ghost use Rattle.std.specs.Prelude.{◌≡◌, ◌<◌, ◌≤◌, ◌∷◌, [], pos, IfOk, IsSome, MatchOption, OnOk, Some, false, length, map, true};
ghost use Rattle.tb_value.specs.Promise.Datum.{int};
ghost use Rattle.tb_value.specs.Promise.Kind as kind;
ghost use Rattle.tb_value.specs.SeeKind.{kind_of};
ghost use Rattle.tb_value.specs.declared.limits.TheConstants.{MAX_ROWS};
ghost use Rattle.tb_value.specs.declared.sorted.IsSorted.TheVariants.{Not};
ghost use Rattle.std.specs.List.{All};
ghost use Rattle.tb_chunk.specs.Made.{IsOf};
ghost use Rattle.tb_chunk.specs.Promise.Col.{values};
ghost use Rattle.tb_chunk.specs.Rows.{value_or_null, IsRowOf};
ghost use Rattle.tb_rows.specs.Names.{name_of};
ghost use Rattle.tb_agg.specs.Grouped.{rows_by_group, AreGroupsOf};
ghost use Rattle.tb_agg.specs.Kept.{counted_in, joined, kept_at, kept_fits, kept_kind, kept_len, kept_of, nothing, picked, picked_in, shown_kept, IsKeptColumn, IsKeptFor};
ghost use Rattle.tb_agg.specs.Named.{AreRowsOf};
ghost use Rattle.tb_agg.specs.Picking.{picked_row};
ghost use Rattle.tb_agg.specs.Promise.Outcome.{are_in_range};
ghost use Rattle.tb_agg.specs.Promise.Aggregates.{sum_kind};
ghost use Rattle.tb_agg.specs.Sums.{shown_sums};

use crate::counts::counts_of;
use crate::made::{count_chunks, sum_chunks};
use crate::picks::{Pick, picked_rows};
use crate::places::items_at;
use crate::sums::Sums;
use crate::table::{Aggregate, count_type, sum_type};
use std::alloc::Global;
use tb_rows::{Groups, RowNames};
use tb_store::Series;
use tb_value::{DataType, IdxSize, IsSorted, MAX_ROWS, NullableIdxSize, OutOfMemory, PlSmallStr};

/// What is kept of groups of rows for an aggregate, of which its column is made: of each group one row, one count or one
/// sum, whatever rows it has.
#[derive(Drop)]
pub struct Kept {
    form: Form,
}

/// What is kept of each group.
#[derive(Drop)]
enum Form {
    /// A row whose value stands for the group.
    Picked(Vec<NullableIdxSize>),
    /// How many rows there are.
    Counted(Vec<IdxSize>),
    /// The exact sum.
    Summed(Sums),
}

fn picked_column(
    alloc: Global,
    rows: &[NullableIdxSize],
    column: &Series,
    name: PlSmallStr,
) -> Result<Series, OutOfMemory>
    requires rows { All (IsRowOf (length (values column.now))) rows.now }
    requires few { length rows.now ≤ MAX_ROWS }
    ensures { IfOk result
        (IsOf name column.now.kind
        (map (value_or_null (values column.now)) rows.now ∷ []) Not) }
{
    let mut made = column.take_opt(alloc, rows)?;
    made.rename(name);
    Ok(made)
}

fn counted_column(
    alloc: Global,
    counts: Vec<IdxSize>,
    name: PlSmallStr,
) -> Result<Series, OutOfMemory>
    requires small { All (λ n. n ≤ MAX_ROWS) counts.items }
    requires few { length counts.items ≤ MAX_ROWS }
    ensures { IfOk result
        (IsOf name kind.uint32 (map (λ n. int (pos n)) counts.items ∷ []) Not) }
{
    let chunks = count_chunks(alloc, counts)?;
    Ok(Series::from_parts(name, count_type(), chunks, IsSorted::Not))
}

// And none where a sum is outside the range of the type.
fn summed_column(
    alloc: Global,
    sums: &Sums,
    dtype: DataType,
    name: PlSmallStr,
) -> Result<Option<Series>, OutOfMemory>
    requires few { length (shown_sums sums.now) ≤ MAX_ROWS }
    requires summed { sum_kind (kind_of dtype) ≡ Some (kind_of dtype) }
    ensures { IfOk result (λ o. MatchOption o
        (are_in_range (Some (kind_of dtype)) (shown_sums sums.now) ≡ false)
        (λ s. (are_in_range (Some (kind_of dtype)) (shown_sums sums.now) ≡ true)
        × IsOf name (kind_of dtype) (map int (shown_sums sums.now) ∷ []) Not s)) }
{
    match sum_chunks(alloc, &dtype, sums)? {
        Some(chunks) => Ok(Some(Series::from_parts(name, dtype, chunks, IsSorted::Not))),
        None => Ok(None),
    }
}

impl Kept {
    /// What the aggregate needs of no group, with room for so many.
    ///
    /// # Errors
    ///
    /// `OutOfMemory` where memory is wanting.
    pub fn with_capacity(
        alloc: Global,
        aggregate: Aggregate,
        groups: usize,
    ) -> Result<Kept, OutOfMemory>
        ensures { IfOk result (λ k. shown_kept k ≡ nothing aggregate) }
    {
        let form = match aggregate {
            Aggregate::First | Aggregate::Last | Aggregate::Min | Aggregate::Max => {
                Form::Picked(Vec::with_capacity(alloc, groups)?)
            }
            Aggregate::Count => Form::Counted(Vec::with_capacity(alloc, groups)?),
            Aggregate::Sum => Form::Summed(Sums::with_capacity(alloc, groups)?),
        };
        Ok(Kept { form })
    }

    fn picks(
        alloc: Global,
        column: &Series,
        names: RowNames<'_>,
        groups: &Groups,
        pick: Pick,
    ) -> Result<Kept, OutOfMemory>
        requires rows { AreRowsOf names (length groups.now.numbers.items)
            (length (values column.now)) }
        requires groups { AreGroupsOf (length groups.now.numbers.items) groups.now }
        ensures { IfOk result (λ k. shown_kept k
            ≡ picked
            (map (picked_row pick (values column.now))
            (rows_by_group (name_of names.entry) groups.now))) }
    {
        let rows = picked_rows(alloc, column, names, groups, pick)?;
        Ok(Kept {
            form: Form::Picked(rows),
        })
    }

    /// What the aggregate of the column needs of the groups, in one pass over rows with these names, each of which has the
    /// number of a group. A value is found in as many steps as the column has chunks.
    ///
    /// # Errors
    ///
    /// `OutOfMemory` where memory is wanting.
    pub fn of(
        alloc: Global,
        aggregate: Aggregate,
        column: &Series,
        names: RowNames<'_>,
        groups: &Groups,
    ) -> Result<Kept, OutOfMemory>
        requires rows { AreRowsOf names (length groups.now.numbers.items)
            (length (values column.now)) }
        requires groups { AreGroupsOf (length groups.now.numbers.items) groups.now }
        ensures { IfOk result (λ k. shown_kept k
            ≡ kept_of aggregate (values column.now)
            (rows_by_group (name_of names.entry) groups.now)) }
    {
        match aggregate {
            Aggregate::First => Kept::picks(alloc, column, names, groups, Pick::FirstRow),
            Aggregate::Last => Kept::picks(alloc, column, names, groups, Pick::LastRow),
            Aggregate::Min => Kept::picks(alloc, column, names, groups, Pick::LeastValue),
            Aggregate::Max => Kept::picks(alloc, column, names, groups, Pick::GreatestValue),
            Aggregate::Count => Ok(Kept {
                form: Form::Counted(counts_of(alloc, groups)?),
            }),
            Aggregate::Sum => Ok(Kept {
                form: Form::Summed(Sums::of(alloc, column, names, groups)?),
            }),
        }
    }

    fn picked(&self) -> &[NullableIdxSize]
        ensures { result.now ≡ picked_in (shown_kept self.now) }
    {
        match &self.form {
            Form::Picked(rows) => rows,
            _ => &[],
        }
    }

    fn counted(&self) -> &[IdxSize]
        ensures { result.now ≡ counted_in (shown_kept self.now) }
    {
        match &self.form {
            Form::Counted(counts) => counts,
            _ => &[],
        }
    }

    /// Puts behind what is kept what another keeps, where that is kept for an aggregate that needs the same.
    ///
    /// # Errors
    ///
    /// `OutOfMemory` where memory is wanting.
    pub fn append(&mut self, alloc: Global, other: &Kept) -> Result<(), OutOfMemory>
        ensures { OnOk result
            (shown_kept self.new ≡ joined (shown_kept self.old) (shown_kept other.now)) }
    {
        match &mut self.form {
            Form::Picked(rows) => rows.extend_from_slice(other.picked())?,
            Form::Counted(counts) => counts.extend_from_slice(other.counted())?,
            Form::Summed(sums) => {
                if let Form::Summed(more) = &other.form {
                    sums.append(alloc, more)?;
                }
            }
        }
        Ok(())
    }

    /// What is kept of the groups at these places.
    ///
    /// # Errors
    ///
    /// `OutOfMemory` where memory is wanting.
    pub fn take(&self, alloc: Global, places: &[IdxSize]) -> Result<Kept, OutOfMemory>
        requires { All (λ p. p < kept_len (shown_kept self.now)) places.now }
        ensures { IfOk result (λ k. shown_kept k ≡ kept_at places.now (shown_kept self.now)) }
    {
        match &self.form {
            Form::Picked(rows) => Ok(Kept {
                form: Form::Picked(items_at(alloc, rows, places)?),
            }),
            Form::Counted(counts) => Ok(Kept {
                form: Form::Counted(items_at(alloc, counts, places)?),
            }),
            Form::Summed(sums) => Ok(Kept {
                form: Form::Summed(sums.take(alloc, places)?),
            }),
        }
    }

    /// The column of one value for each group, under this name, of the column for which it is kept, and none where a sum is
    /// outside the range of its type. What is kept is let go.
    ///
    /// # Errors
    ///
    /// `OutOfMemory` where memory is wanting.
    pub fn column(
        self,
        alloc: Global,
        column: &Series,
        name: PlSmallStr,
    ) -> Result<Option<Series>, OutOfMemory>
        requires taken { IsSome (kept_kind column.now.kind (shown_kept self)) }
        requires kept { IsKeptFor (length (values column.now)) (shown_kept self) }
        ensures { IfOk result (λ o. MatchOption o
            (kept_fits column.now.kind (shown_kept self) ≡ false)
            (λ s. (kept_fits column.now.kind (shown_kept self) ≡ true)
            × IsKeptColumn name column.now (shown_kept self) s)) }
    {
        let Kept { form } = self;
        match form {
            Form::Picked(rows) => Ok(Some(picked_column(alloc, &rows, column, name)?)),
            Form::Counted(counts) => Ok(Some(counted_column(alloc, counts, name)?)),
            Form::Summed(sums) => match sum_type(column.dtype()) {
                Some(dtype) => summed_column(alloc, &sums, dtype, name),
                None => unreachable!(),
            },
        }
    }
}
