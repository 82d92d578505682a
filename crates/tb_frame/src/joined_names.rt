//! The names of the columns that a join puts side by side, and of those of its answer.
ghost use Rattle.std.specs.Prelude.{◌≡◌, ◌++◌, IfOk, List, OnOk, Some, map};
ghost use Rattle.tb_value.specs.Promise.Names.{Name};
ghost use Rattle.tb_value.specs.Refusals.{Settles};
ghost use Rattle.tb_frame.specs.Join.{lent_request};
ghost use Rattle.tb_frame.specs.NameSets.{has_name};
ghost use Rattle.tb_frame.specs.Promise.Naming.{is_among, right_name};
ghost use Rattle.tb_frame.specs.Naming.{answer_names};
ghost use Rattle.tb_frame.specs.Promise.Refusal.{repeated_name};
ghost use Rattle.tb_frame.specs.RightColumns.{beside, gone_beside, names_without};
ghost use Rattle.tb_frame.specs.Sides.{asking, of_kind};

use crate::args::{JoinArgs, JoinType};
use crate::frame::column_names;
use crate::names::{NameSet, check_repeated, lend_names, name_set};
use crate::right_columns::{gone_left, gone_right, right_name, right_side, suffix_of};
use std::alloc::Global;
use tb_store::Column;
use tb_value::{OutOfMemory, PlSmallStr, PolarsResult};

// The names, but for those that go.
fn kept_names<'a>(
    alloc: Global,
    names: &[&'a PlSmallStr],
    gone: &[PlSmallStr],
) -> Result<Vec<&'a PlSmallStr>, OutOfMemory>
    ensures { IfOk result (λ v.
        map (λ n. n.now) v.items ≡ names_without gone.now (map (λ n. n.now) names.now)) }
{
    let gone = name_set(alloc, gone)?;
    let mut kept = Vec::with_capacity(alloc, names.len())?;
    for name in names {
        if !gone.contains(name) {
            kept.push(*name)?;
        }
    }
    Ok(kept)
}

fn copied_names(alloc: Global, names: &[&PlSmallStr]) -> Result<Vec<PlSmallStr>, OutOfMemory>
    ensures { IfOk result (λ v. v.items ≡ map (λ n. n.now) names.now) }
{
    let mut copies = Vec::with_capacity(alloc, names.len())?;
    for name in names {
        copies.push(name.copy(alloc)?)?;
    }
    Ok(copies)
}

// The set of these names.
fn lent_name_set<'a>(alloc: Global, names: &[&'a PlSmallStr]) -> Result<NameSet<'a>, OutOfMemory>
    ensures { IfOk result (λ s.
        (n : Name) → has_name s n ≡ is_among (map (λ n. n.now) names.now) n) }
{
    let mut set = NameSet::new(alloc);
    for name in names {
        set.insert(name)?;
    }
    Ok(set)
}

// Puts behind the names those of right columns, as they are called beside left columns of the names that are taken.
fn push_called(
    alloc: Global,
    names: &mut Vec<PlSmallStr>,
    taken: &NameSet<'_>,
    right: &[&PlSmallStr],
    suffix: &str,
) -> Result<(), OutOfMemory>
    ensures { OnOk result ((ns : List Name) → ((n : Name) → has_name taken.now n ≡ is_among ns n)
        → names.new.items ≡ names.old.items ++ map (right_name ns (Some suffix.now)) (map (λ n. n.now) right.now)) }
{
    for name in right {
        names.push(right_name(alloc, taken, suffix, name)?)?;
    }
    Ok(())
}

// The names of left columns, and behind them those of right ones beside them, where some of each go.
fn side_by_side(
    alloc: Global,
    left: &[&PlSmallStr],
    gone_left: &[PlSmallStr],
    right: &[&PlSmallStr],
    gone_right: &[PlSmallStr],
    suffix: &str,
) -> Result<Vec<PlSmallStr>, OutOfMemory>
    ensures { IfOk result (λ v.
        v.items
        ≡ beside (map (λ n. n.now) left.now) gone_left.now (map (λ n. n.now) right.now)
        gone_right.now suffix.now) }
{
    let kept = kept_names(alloc, left, gone_left)?;
    let taken = lent_name_set(alloc, &kept)?;
    let shown = kept_names(alloc, right, gone_right)?;
    let mut names = copied_names(alloc, &kept)?;
    push_called(alloc, &mut names, &taken, &shown, suffix)?;
    Ok(names)
}

// The names of the right columns that are not put beside the left ones. Those of a Full join go later.
fn gone_beside<'a>(how: JoinType, args: &JoinArgs, right_on: &'a [PlSmallStr]) -> &'a [PlSmallStr]
    ensures { result.now ≡ gone_beside (of_kind how args.now) right_on.now }
{
    match how {
        JoinType::Full => &[],
        _ => gone_right(how, args, right_on),
    }
}

/// The names of the answer's columns, by the names of the keys and of the columns of both tables. They are told for
/// requests too that are refused.
pub fn answer_names(
    alloc: Global,
    args: &JoinArgs,
    left_on: &[PlSmallStr],
    right_on: &[PlSmallStr],
    left: &[PlSmallStr],
    right: &[PlSmallStr],
) -> Result<Vec<PlSmallStr>, OutOfMemory>
    ensures { IfOk result (λ v.
        v.items ≡ answer_names args.now left_on.now right_on.now left.now right.now) }
{
    let left = lend_names(alloc, left)?;
    let right = lend_names(alloc, right_side(args.how, right))?;
    let names = side_by_side(
        alloc,
        &left,
        gone_left(args.how, args, left_on),
        &right,
        gone_right(args.how, args, right_on),
        suffix_of(args),
    )?;
    Ok(names)
}

/// Refuses the first repeated name (Duplicate) among the columns that a join puts side by side: the left ones that it
/// keeps, and then the right ones under their names in the answer. In a Full join the keys of both sides are among
/// them, also where they are coalesced. The kind that the arguments name is not read.
pub fn check_joined_names(
    alloc: Global,
    left: &[Column],
    right: &[Column],
    left_on: &[PlSmallStr],
    right_on: &[PlSmallStr],
    how: JoinType,
    args: &JoinArgs,
) -> PolarsResult<()>
    ensures { Settles result
        (repeated_name
        (asking how (lent_request left.now right.now left_on.now right_on.now args.now))) }
{
    let left = column_names(alloc, left)?;
    let right = column_names(alloc, right_side(how, right))?;
    let names = side_by_side(
        alloc,
        &left,
        gone_left(how, args, left_on),
        &right,
        gone_beside(how, args, right_on),
        suffix_of(args),
    )?;
    check_repeated(alloc, &names)
}
