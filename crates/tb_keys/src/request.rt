//! Requests to join whose parts are lent.
ghost use Rattle.tb_frame.specs.Promise.Frame.{selected_columns};
ghost use Rattle.tb_frame.specs.Promise.Table.{table_of, height};
ghost use Rattle.tb_chunk.specs.Lent.{lent_columns};
ghost use Rattle.tb_keys.specs.Rows.{HasRows};

use crate::names::check_lists;
use std::alloc::Global;
use tb_frame::{DataFrame, JoinArgs, JoinType, lend_columns};
use tb_store::Series;
use tb_value::{PlSmallStr, PolarsResult};

/// Two tables, the names and the columns of their keys, and what else is asked of their join. It is asked for the kind
/// `how`, whichever kind `args` has.
#[derive(Drop)]
pub struct LentRequest<'a> {
    pub left: &'a DataFrame,
    pub right: &'a DataFrame,
    pub left_on: &'a [PlSmallStr],
    pub right_on: &'a [PlSmallStr],
    pub left_keys: &'a [&'a Series],
    pub right_keys: &'a [&'a Series],
    pub how: JoinType,
    pub args: &'a JoinArgs,
    ghost left_rows: { HasRows (height (table_of left.now)) (lent_columns left_keys.now) },
    ghost right_rows: { HasRows (height (table_of right.now)) (lent_columns right_keys.now) },
}

impl LentRequest<'_> {
    ghost use Rattle.std.specs.Prelude.{◌≡◌, ◌≤◌, length};
    ghost use Rattle.tb_frame.specs.Promise.Naming.{coalesces, coalesces_keys};
    ghost use Rattle.tb_keys.specs.Asked.{asked_request, place_count};

    /// The number of places that both key lists have.
    pub fn places(&self) -> usize
        ensures exact { result ≡ place_count self.now }
        ensures left { result ≤ length self.now.left_keys.now }
        ensures right { result ≤ length self.now.right_keys.now }
    {
        self.left_keys.len().min(self.right_keys.len())
    }

    /// Whether the right keys are coalesced into the left ones, as in a coalesced Full join.
    pub fn coalesces_keys(&self) -> bool
        ensures { result ≡ coalesces_keys self.now.how (coalesces (asked_request self.now).args) }
    {
        self.how == JoinType::Full && self.args.coalesce.coalesce(&self.how)
    }
}

/// Two tables, the names of their keys, and what else is asked of their join.
#[derive(Drop)]
pub struct NamedRequest<'a> {
    pub left: &'a DataFrame,
    pub right: &'a DataFrame,
    pub left_on: &'a [PlSmallStr],
    pub right_on: &'a [PlSmallStr],
    pub args: &'a JoinArgs,
}

/// The key columns of both sides.
#[derive(Drop)]
pub struct KeyColumns<'a> {
    pub left: Vec<&'a Series>,
    pub right: Vec<&'a Series>,
}

impl<'a> NamedRequest<'a> {
    ghost use Rattle.std.specs.Prelude.{◌≡◌, IfOk};
    ghost use Rattle.tb_value.specs.Refusals.{Settles};
    ghost use Rattle.tb_frame.specs.Promise.Table.{table_of};
    ghost use Rattle.tb_keys.specs.Asked.{AreKeysOf, IsByNames, asked_request, asked_by_names};
    ghost use Rattle.tb_keys.specs.Causes.{names_refusal};
    ghost use Rattle.tb_chunk.specs.Lent.{lent_columns};

    /// The columns that the names of the keys name. Refuses, in this order, a key that is no column of its table
    /// (ColumnNotFound), a side without keys (NoKeys), different numbers of keys (KeyCounts), a flag for each key where
    /// there are more or fewer flags (NullFlags), and a repeated key (Duplicate). The left side comes first.
    pub fn key_columns(&self, alloc: Global) -> PolarsResult<KeyColumns<'a>>
        ensures settles { Settles result (names_refusal (table_of self.now.left.now) (table_of self.now.right.now) self.now.args.now.join_nulls
            self.now.left_on.now self.now.right_on.now) }
        ensures left { IfOk result (λ k.
            AreKeysOf self.now.left.now self.now.left_on.now (lent_columns k.left.items)) }
        ensures right { IfOk result (λ k.
            AreKeysOf self.now.right.now self.now.right_on.now (lent_columns k.right.items)) }
    {
        let left = lend_columns(alloc, self.left.get_columns(), self.left_on)?;
        let right = lend_columns(alloc, self.right.get_columns(), self.right_on)?;
        check_lists(alloc, &self.args.join_nulls, self.left_on, self.right_on)?;
        Ok(KeyColumns { left, right })
    }

    /// The request by these columns, which are those of its keys.
    pub fn with_keys<'k>(&self, keys: &'k KeyColumns<'a>) -> LentRequest<'k>
        requires left { AreKeysOf self.now.left.now self.now.left_on.now
            (lent_columns keys.now.left.items) }
        requires right { AreKeysOf self.now.right.now self.now.right_on.now
            (lent_columns keys.now.right.items) }
        ensures asked { asked_request result ≡ asked_by_names self.now }
        ensures named { IsByNames result }
        ensures left { lent_columns result.left_keys.now
            ≡ selected_columns self.now.left_on.now self.now.left.now }
        ensures right { lent_columns result.right_keys.now
            ≡ selected_columns self.now.right_on.now self.now.right.now }
        ensures how { result.how ≡ self.now.args.now.how }
        ensures args { result.args.now ≡ self.now.args.now }
    {
        LentRequest {
            left: self.left,
            right: self.right,
            left_on: self.left_on,
            right_on: self.right_on,
            left_keys: &keys.left,
            right_keys: &keys.right,
            how: self.args.how,
            args: self.args,
        }
    }
}
