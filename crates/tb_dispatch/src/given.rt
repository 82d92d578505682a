//! The join by key columns that are given.
ghost use Rattle.std.specs.Prelude.{◌≡◌, IfOk};
ghost use Rattle.tb_value.specs.Promise.Refusals.{first_cause};
ghost use Rattle.tb_value.specs.Refusals.{Settles, SettlesOutright};
ghost use Rattle.tb_chunk.specs.Lent.{lent_columns};
ghost use Rattle.tb_frame.specs.Join.{CoalescesAlike};
ghost use Rattle.tb_frame.specs.Promise.Refusal.{name_causes};
ghost use Rattle.tb_frame.specs.Refusal.{fits};
ghost use Rattle.tb_frame.specs.Promise.Table.{height, names_of, plain_column, table_of};
ghost use Rattle.tb_keys.specs.Rows.{HasRows};
ghost use Rattle.tb_dispatch.specs.Given.{IsGivenJoin, all_fit, cleared_columns, early_refusal, given_request, misfit};

use std::alloc::Global;
use std::thread::Threads;
use tb_frame::{DataFrame, IntoDf, JoinArgs, JoinNulls, lend_columns};
use tb_join::join_columns;
use tb_keys::{LentRequest, check_lists};
use tb_pool::Exec;
use tb_store::Series;
use tb_value::{OutOfMemory, PlSmallStr, PolarsError, PolarsResult};

/// The join of the table that `self` lends by key columns that are given.
pub trait GivenJoin: IntoDf {
    /// The answer that `join` would give, by key columns that are given beside the tables under names of the tables'
    /// columns. Rows match by the given columns; the columns of the answer, and those that are coalesced or left out, are the
    /// tables' columns of these names. A key of one value beside a table without rows is taken to have none.
    ///
    /// Where a Full join merges columns, the table's columns under the names of a pair of keys have one type.
    ///
    /// # Errors
    ///
    /// Those of `join` in their order, the first of which speaks of the names of the given columns; and between
    /// ColumnNotFound and NoKeys ShapeMismatch, where a key is not as long as its table is high, and has not one value
    /// beside a table without rows.
    final fn _join_impl(
        &self,
        rt: &(impl Threads + Sync),
        alloc: Global,
        other: &DataFrame,
        selected_left: Vec<Series>,
        selected_right: Vec<Series>,
        args: JoinArgs,
        exec: &Exec,
    ) -> PolarsResult<DataFrame>
        requires { CoalescesAlike
            (given_request (Self.frame self.now) other.now selected_left.items selected_right.items
            args) }
        ensures { IsGivenJoin (Self.frame self.now) other.now selected_left.items
            selected_right.items args result }
    {
        let left = self.to_df();
        join_given(
            rt,
            alloc,
            left,
            other,
            selected_left,
            selected_right,
            &args,
            exec,
        )
    }
}

impl GivenJoin for DataFrame {}

// The names of the columns.
fn key_names(alloc: Global, keys: &[Series]) -> Result<Vec<PlSmallStr>, OutOfMemory>
    ensures { IfOk result (λ v. v.items ≡ names_of (table_of keys.now)) }
{
    let mut names = Vec::with_capacity(alloc, keys.len())?;
    for key in keys {
        names.push(key.name().copy(alloc)?)?;
    }
    Ok(names)
}

// The columns beside a table, lent one by one.
fn lent_keys<'a>(
    alloc: Global,
    _table: &DataFrame,
    keys: &'a [Series],
) -> Result<Vec<&'a Series>, OutOfMemory>
    requires { HasRows (height (table_of _table.now)) keys.now }
    ensures lent { IfOk result (λ v. lent_columns v.items ≡ keys.now) }
    ensures rows { IfOk result (λ v.
        HasRows (height (table_of _table.now)) (lent_columns v.items)) }
{
    let mut lent = Vec::with_capacity(alloc, keys.len())?;
    for key in keys {
        lent.push(key)?;
    }
    Ok(lent)
}

// Refuses a name that is no column of its table (ColumnNotFound), the left ones first.
fn check_names(
    alloc: Global,
    left: &DataFrame,
    right: &DataFrame,
    left_on: &[PlSmallStr],
    right_on: &[PlSmallStr],
) -> PolarsResult<()>
    ensures { Settles result
        (first_cause
        (name_causes (table_of left.now) (table_of right.now) left_on.now right_on.now)) }
{
    lend_columns(alloc, left.get_columns(), left_on)?;
    lend_columns(alloc, right.get_columns(), right_on)?;
    Ok(())
}

// Whether a key is as long as its table is high, or has one value where that has no rows.
fn fits(height: usize, key: &Series) -> bool
    ensures { result ≡ fits height (plain_column key.now) }
{
    key.len() == height || height == 0 && key.len() == 1
}

fn all_fit(height: usize, keys: &[Series]) -> bool
    ensures { result ≡ all_fit height keys.now }
{
    for key in keys {
        if !fits(height, key) {
            return false;
        }
    }
    true
}

// Refuses keys of another length (ShapeMismatch).
fn check_shapes(
    left: &DataFrame,
    right: &DataFrame,
    left_keys: &[Series],
    right_keys: &[Series],
) -> PolarsResult<()>
    ensures { SettlesOutright result (misfit left.now right.now left_keys.now right_keys.now) }
{
    if all_fit(left.height(), left_keys) && all_fit(right.height(), right_keys) {
        Ok(())
    } else {
        Err(PolarsError::ShapeMismatch)
    }
}

// The keys beside a table of this height, without their values where it has no rows.
fn cleared(alloc: Global, height: usize, keys: Vec<Series>) -> Result<Vec<Series>, OutOfMemory>
    ensures { IfOk result (λ v. v.items ≡ cleared_columns height keys.items) }
{
    if height != 0 {
        return Ok(keys);
    }
    let mut emptied = Vec::with_capacity(alloc, keys.len())?;
    for key in &keys {
        emptied.push(key.part(alloc, 0, 0)?)?;
    }
    Ok(emptied)
}

// Refuses keys whose names or number no join has, or that have more or fewer flags (ColumnNotFound, then NoKeys,
// KeyCounts, NullFlags and Duplicate), and between these keys of another length (ShapeMismatch).
fn check_given(
    alloc: Global,
    left: &DataFrame,
    right: &DataFrame,
    left_keys: &[Series],
    right_keys: &[Series],
    nulls: &JoinNulls,
    left_on: &[PlSmallStr],
    right_on: &[PlSmallStr],
) -> PolarsResult<()>
    ensures { Settles result
        (early_refusal left.now right.now left_keys.now right_keys.now nulls.now left_on.now
        right_on.now) }
{
    check_names(alloc, left, right, left_on, right_on)?;
    check_shapes(left, right, left_keys, right_keys)?;
    check_lists(alloc, nulls, left_on, right_on)
}

fn join_given(
    rt: &(impl Threads + Sync),
    alloc: Global,
    left: &DataFrame,
    right: &DataFrame,
    left_keys: Vec<Series>,
    right_keys: Vec<Series>,
    args: &JoinArgs,
    exec: &Exec,
) -> PolarsResult<DataFrame>
    requires coalescing { CoalescesAlike
        (given_request left.now right.now left_keys.items right_keys.items args.now) }
    ensures { IsGivenJoin left.now right.now left_keys.items right_keys.items args.now result }
{
    let left_on = key_names(alloc, &left_keys)?;
    let right_on = key_names(alloc, &right_keys)?;
    check_given(
        alloc,
        left,
        right,
        &left_keys,
        &right_keys,
        &args.join_nulls,
        &left_on,
        &right_on,
    )?;
    let left_keys = cleared(alloc, left.height(), left_keys)?;
    let right_keys = cleared(alloc, right.height(), right_keys)?;
    let left_lent = lent_keys(alloc, left, &left_keys)?;
    let right_lent = lent_keys(alloc, right, &right_keys)?;
    let request = LentRequest {
        left,
        right,
        left_on: &left_on,
        right_on: &right_on,
        left_keys: &left_lent,
        right_keys: &right_lent,
        how: args.how,
        args,
    };
    join_columns(rt, alloc, &request, exec)
}
