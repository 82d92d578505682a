//! What a part gives: the groups of its rows, and what is kept of them for each aggregate.
ghost use Rattle.std.specs.Prelude.{◌≡◌, ◌≤◌, ◌<◌, IfOk, length, map};
ghost use Rattle.std.specs.List.{All};
ghost use Rattle.tb_value.specs.declared.limits.TheConstants.{MAX_ROWS};
ghost use Rattle.tb_chunk.specs.Promise.Col.{values};
ghost use Rattle.tb_agg.specs.Grouped.{AreGroupsOf};
ghost use Rattle.tb_agg.specs.Kept.{shown_kept};
ghost use Rattle.tb_group.specs.Asked.{asked_list};
ghost use Rattle.tb_group.specs.Parts.{kept_for, lent_test, part_view, rows_in_groups, shown_part};

use crate::lookup::AskedColumn;
use crate::order::rows_at;
use std::alloc::Global;
use tb_agg::Kept;
use tb_pool::Parts;
use tb_rows::{Groups, RowNames, group_listed};
use tb_store::Series;
use tb_value::{IdxSize, MAX_ROWS, OutOfMemory};

/// The first row of each group of a part, and what is kept of the groups for each aggregate that is made. The work of a part
/// alone makes one.
#[derive(Drop)]
pub(crate) struct PartGroups {
    firsts: Vec<IdxSize>,
    kept: Vec<Kept>,
}

impl PartGroups {
    /// The first row of each group.
    pub(crate) fn firsts(&self) -> &[IdxSize]
        ensures { result.now ≡ self.now.firsts.items }
    {
        &self.firsts
    }

    /// What is kept of the groups, for each aggregate.
    pub(crate) fn kept(&self) -> &[Kept]
        ensures { result.now ≡ self.now.kept.items }
    {
        &self.kept
    }
}

// What is kept of groups of listed rows, for each aggregate.
fn part_kept(
    alloc: Global,
    asked: &[AskedColumn<'_>],
    rows: &[IdxSize],
    groups: &Groups,
) -> Result<Vec<Kept>, OutOfMemory>
    requires rows { All (λ a. All (λ r. r < length (values a.column.now)) rows.now) asked.now }
    requires few { length rows.now ≤ MAX_ROWS }
    requires groups { AreGroupsOf (length rows.now) groups.now }
    ensures { IfOk result (λ v.
        map shown_kept v.items
        ≡ kept_for (asked_list asked.now) (rows_in_groups rows.now groups.now)) }
{
    let names = RowNames::Listed(rows);
    let mut kept = Vec::with_capacity(alloc, asked.len())?;
    for one in asked {
        kept.push(Kept::of(alloc, one.asked.agg, one.column, names, groups)?)?;
    }
    Ok(kept)
}

// These rows in groups, and what is made of the groups.
fn grouped_part(
    alloc: Global,
    by: &[&Series],
    asked: &[AskedColumn<'_>],
    rows: &[IdxSize],
) -> Result<PartGroups, OutOfMemory>
    requires rows { All (λ a. All (λ r. r < length (values a.column.now)) rows.now) asked.now }
    requires few { length rows.now ≤ MAX_ROWS }
    ensures { IfOk result (λ p.
        shown_part p ≡ part_view (lent_test by.now) (asked_list asked.now) rows.now) }
{
    let groups = group_listed(alloc, by, rows)?;
    let firsts = rows_at(alloc, rows, groups.firsts())?;
    let kept = part_kept(alloc, asked, rows, &groups)?;
    Ok(PartGroups { firsts, kept })
}

/// Rows that fell into parts: those of all parts, one part after another, and where each part begins, with the end of all.
/// The rows of each part are grouped. A part without rows gives nothing, unless it is the first: there may be many more
/// parts than rows.
#[derive(Drop)]
pub(crate) struct Grouping<'a> {
    pub alloc: Global,
    pub by: &'a [&'a Series],
    pub asked: &'a [AskedColumn<'a>],
    pub idxs: &'a [IdxSize],
    pub starts: &'a [usize],
    ghost rows: { All (λ a. All (λ r. r < length (values a.column.now)) idxs.now) asked.now },
    ghost few: { length idxs.now ≤ MAX_ROWS },
}

impl Parts for Grouping<'_> {
    ghost use Rattle.std.specs.Prelude.{◌≡◌};
    ghost use Rattle.std.specs.Option.{option_map};
    ghost use Rattle.tb_group.specs.Asked.{asked_list};
    ghost use Rattle.tb_group.specs.Parts.{lent_test, rows_of_part, shown_part, work_view, IsPart};

    type Out = Option<PartGroups>;

    ghost may_run = { λ w part. IsPart w.starts.now w.idxs.now part };

    ghost gives = { λ w part out. option_map shown_part out ≡ work_view (lent_test w.by.now) (asked_list w.asked.now) part (rows_of_part w.idxs.now w.starts.now part) };

    fn run(&self, part: u32) -> Result<Option<PartGroups>, OutOfMemory> {
        let start = self.starts[part as usize];
        let end = self.starts[part as usize + 1];
        if part != 0 && start == end {
            return Ok(None);
        }
        let groups = grouped_part(self.alloc, self.by, self.asked, &self.idxs[start..end])?;
        Ok(Some(groups))
    }
}
