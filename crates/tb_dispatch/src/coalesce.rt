//! The keys of a joined table, coalesced.
ghost use Rattle.std.specs.Prelude.{◌≡◌, IfOk, List, None, length};
ghost use Rattle.tb_value.specs.Promise.Names.{Name};
ghost use Rattle.tb_value.specs.Refusals.{Settles};
ghost use Rattle.tb_frame.specs.NameSets.{has_name};
ghost use Rattle.tb_frame.specs.Promise.Naming.{is_among};
ghost use Rattle.tb_dispatch.specs.Standing.{AreCoalescable, coalesced_columns, names_standing, stands_as, suffix_or};

use crate::names::{_join_suffix_name, suffix_text};
use std::alloc::Global;
use tb_frame::{DataFrame, NameSet, column_name_set};
use tb_join::{coalesced_left, parted};
use tb_value::{OutOfMemory, PlSmallStr, PolarsResult, only_memory};

// The name of a right key beside the left key at its place, where left columns have the names that are taken.
fn standing_name(
    alloc: Global,
    taken: &NameSet<'_>,
    suffix: &str,
    left: &PlSmallStr,
    right: &PlSmallStr,
) -> Result<PlSmallStr, OutOfMemory>
    ensures { IfOk result (λ s.
        (ns : List Name) → ((n : Name) → has_name taken.now n ≡ is_among ns n)
        → s ≡ stands_as ns suffix.now (left.now, right.now)) }
{
    if left == right || taken.contains(right) {
        _join_suffix_name(alloc, right.as_str(), suffix)
    } else {
        right.copy(alloc)
    }
}

// The names of the right keys in the joined table.
fn standing_names(
    alloc: Global,
    df_left: &DataFrame,
    suffix: &str,
    keys_left: &[PlSmallStr],
    keys_right: &[PlSmallStr],
) -> Result<Vec<PlSmallStr>, OutOfMemory>
    requires { length keys_left.now ≡ length keys_right.now }
    ensures { IfOk result (λ v.
        v.items ≡ names_standing df_left.now suffix.now keys_left.now keys_right.now) }
{
    let taken = column_name_set(alloc, df_left.get_columns())?;
    let mut names = Vec::with_capacity(alloc, keys_left.len())?;
    for place in 0..keys_left.len() {
        let (left, right) = (&keys_left[place], &keys_right[place]);
        names.push(standing_name(alloc, &taken, suffix, left, right)?)?;
    }
    Ok(names)
}

// The table with these right keys coalesced into the left ones. Only memory may be wanting.
fn coalesced_table(
    alloc: Global,
    df: DataFrame,
    keys_left: &[PlSmallStr],
    rights: &[PlSmallStr],
) -> PolarsResult<DataFrame>
    requires { AreCoalescable keys_left.now rights.now df }
    ensures settles { Settles result None }
    ensures columns { IfOk result (λ t. t ≡ coalesced_columns keys_left.now rights.now df) }
{
    let _columns = df.get_columns();
    let (keys, rest) = parted(alloc, df.into_columns(), rights)?;
    let columns = coalesced_left(alloc, rest, &keys, keys_left, rights)?;
    DataFrame::new(alloc, columns)
}

/// The columns of a joined table but for the right keys, the left keys with the values of the right key at the same
/// place where they have none. A right key stands under its name, and with the suffix behind it, `_right` where none is
/// given, if the left key has that name or a column of the left table has it.
///
/// There are as many right keys as left ones, all are columns, and two that are coalesced have one type.
pub fn _coalesce_full_join(
    alloc: Global,
    df: DataFrame,
    keys_left: &[PlSmallStr],
    keys_right: &[PlSmallStr],
    suffix: Option<PlSmallStr>,
    df_left: &DataFrame,
) -> Result<DataFrame, OutOfMemory>
    requires many { length keys_left.now ≡ length keys_right.now }
    requires coalescing { AreCoalescable keys_left.now
        (names_standing df_left.now (suffix_or suffix) keys_left.now keys_right.now) df }
    ensures { IfOk result (λ t.
        t
        ≡ coalesced_columns keys_left.now
        (names_standing df_left.now (suffix_or suffix) keys_left.now keys_right.now) df) }
{
    let suffix = suffix_text(&suffix);
    let rights = standing_names(alloc, df_left, suffix, keys_left, keys_right)?;
    only_memory(coalesced_table(alloc, df, keys_left, &rights))
}
