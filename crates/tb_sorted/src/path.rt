//! Whether keys are merged.
ghost use Rattle.std.specs.Prelude.{◌≡◌, ◌≤◌};
ghost use Rattle.tb_sorted.specs.Promise.Path.{are_ordered, have_order, is_flagged, is_inner, is_merge_key, is_worth, takes_key_path};
ghost use Rattle.tb_sorted.specs.Path.{order_after, sorted_first};

use tb_frame::{Direction, JoinType, JoinValidation};
use tb_pool::Exec;
use tb_store::Series;
use tb_value::{IsSorted, MAX_ROWS};

fn is_inner(how: JoinType) -> bool
    ensures { result ≡ is_inner how }
{
    matches!(how, JoinType::Inner)
}

fn is_flagged(flag: IsSorted) -> bool
    ensures { result ≡ is_flagged flag }
{
    match flag {
        IsSorted::Ascending => true,
        IsSorted::Descending | IsSorted::Not => false,
    }
}

fn is_merge_key(key: &Series) -> bool
    ensures { result ≡ is_merge_key key.now }
{
    key.dtype().is_whole_physical() && key.null_count() == 0
}

// Whether sorting so many rows is worth it beside so many that ascend.
fn is_worth(exec: &Exec, rows: usize, ascending: usize) -> bool
    requires rows { rows ≤ MAX_ROWS }
    requires ascending { ascending ≤ MAX_ROWS }
    ensures { result ≡ is_worth exec.now rows ascending }
{
    let cost = rows as u64 * u64::from(exec.den());
    let gain = u64::from(exec.num()) * ascending as u64;
    cost < gain
}

// Whether the keys have the order for a merge: both are flagged as ascending, or one is and the other is worth sorting.
fn have_order(how: JoinType, exec: &Exec, left: &Series, right: &Series) -> bool
    ensures { result ≡ have_order how exec.now left.now right.now }
{
    let left_ascends = is_flagged(left.is_sorted_flag());
    let right_ascends = is_flagged(right.is_sorted_flag());
    let (left_len, right_len) = (left.len(), right.len());
    (left_ascends && right_ascends)
        || (left_ascends && is_worth(exec, right_len, left_len))
        || (is_inner(how) && right_ascends && is_worth(exec, left_len, right_len))
}

fn are_ordered(how: JoinType, exec: &Exec, left: &Series, right: &Series) -> bool
    ensures { result ≡ are_ordered how exec.now left.now right.now }
{
    match how {
        JoinType::Inner | JoinType::Left => have_order(how, exec, left, right),
        JoinType::Right => have_order(how, exec, right, left),
        JoinType::Full | JoinType::Semi | JoinType::Anti => false,
    }
}

/// Whether two keys are merged. What takes no step a row is asked first, so that Nulls are counted only where nothing but
/// a Null keeps the keys from being merged.
pub(crate) fn takes_key_path(
    how: JoinType,
    validation: JoinValidation,
    exec: &Exec,
    left: &Series,
    right: &Series,
) -> bool
    ensures { result ≡ takes_key_path how validation exec.now left.now right.now }
{
    !validation.needs_checks()
        && are_ordered(how, exec, left, right)
        && is_merge_key(left)
        && is_merge_key(right)
}

/// Which of two keys is sorted before they are merged.
#[derive(Clone, Copy, PartialEq, Eq, Debug)]
pub(crate) enum SortedFirst {
    Neither,
    Right,
    Left,
}

/// The key that is sorted first: one that isn't flagged as ascending.
pub(crate) fn sorted_first(left: &Series, right: &Series) -> SortedFirst
    ensures { result ≡ sorted_first left.now right.now }
{
    if !is_flagged(left.is_sorted_flag()) {
        return SortedFirst::Left;
    }
    if is_flagged(right.is_sorted_flag()) {
        SortedFirst::Neither
    } else {
        SortedFirst::Right
    }
}

/// The order in which the pairs stand then.
pub(crate) fn order_after(first: SortedFirst) -> Direction
    ensures { result ≡ order_after first }
{
    match first {
        SortedFirst::Neither | SortedFirst::Right => Direction::ByLeft,
        SortedFirst::Left => Direction::Free,
    }
}
