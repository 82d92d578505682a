//! The join of two tables.
ghost use Rattle.tb_frame.specs.Join.{lent_request};
ghost use Rattle.tb_keys.specs.Asked.{asked_request};
ghost use Rattle.tb_keys.specs.Causes.{later_refusal};
ghost use Rattle.tb_keys.specs.Promise.Answers.{IsJoinOf, IsJoinUnless};
ghost use Rattle.tb_join.specs.Promise.Asked.{plain_args};
ghost use Rattle.tb_join.specs.Promise.Traced.{IsTracedJoinOf, IsTracedJoinUnless};
ghost use Rattle.tb_join.specs.Ready.{CanBeJoined, HaveKeys};
ghost use Rattle.tb_pairs.specs.Promise.Trace.{requested_trace};
ghost use Rattle.tb_pairs.specs.Traced.{ArePairsTraced};

use crate::general::finish_join;
use std::alloc::Global;
use std::thread::Threads;
use tb_frame::{DataFrame, IntoDf, JoinArgs, JoinType};
use tb_keys::{LentRequest, NamedRequest, check_columns};
use tb_pairs::{JoinTrace, ListedPairs, traced_pairs};
use tb_pool::{Exec, Gate, OpenGate};
use tb_value::{PlSmallStr, PolarsResult};

/// Joins of the table that `self` lends with another.
pub trait DataFrameJoinOps: IntoDf {
    /// The rows that two nested loops over the tables list for the kind of join, each pair once, in an order that the
    /// arguments allow, and of them those that the slice keeps, under the columns of the naming rule: those of the left
    /// table, and then those of the right one. Coalesced keys of an Inner or Left join stand on the left alone, those of
    /// a Right join on the right alone; those of a Full join stand on the left, with the right key's value where the
    /// left one is absent. A Semi or Anti join has the left columns alone. Rows match where they agree at every key:
    /// where the fields of both are there and the same, or both are absent and the arguments let that key's match.
    ///
    /// # Errors
    ///
    /// The first of these that holds, or OutOfMemory:
    /// 1. ColumnNotFound: a left key is no column of the left table, and then a right key none of the right;
    /// 2. NoKeys: a side has no keys;
    /// 3. KeyCounts: the sides have different numbers of keys;
    /// 4. NullFlags: there is a flag for each key, and the flags are not as many as the keys;
    /// 5. Duplicate: a left key is repeated, and then a right key;
    /// 6. KeyTypes: the keys at a place are of different types;
    /// 7. KeyKind: the keys at a place are of type List, Struct or Null;
    /// 8. Duplicate: two columns of the answer would have this name, which is the first that stood before;
    /// 9. Validation: two left rows have equal keys and may not, and then two right rows; not in a Semi or Anti join;
    /// 10. TooManyRows: there are more than `MAX_ROWS` pairs of rows before they are cut.
    final fn join(
        &self,
        rt: &(impl Threads + Sync),
        alloc: Global,
        other: &DataFrame,
        left_on: &[PlSmallStr],
        right_on: &[PlSmallStr],
        args: JoinArgs,
        exec: &Exec,
    ) -> PolarsResult<DataFrame>
        ensures { IsJoinOf
            (lent_request (Self.frame self.now) other.now left_on.now right_on.now args) result }
    {
        let gate = &OpenGate;
        let (table, _trace) = self.join_traced(
            rt, alloc, other, left_on, right_on, args, exec, gate,
        )?;
        Ok(table)
    }

    /// The same, and how the join went: what was hashed, or how much was merged. Where keys were hashed, the gate has let in
    /// each part that the trace tells.
    ///
    /// # Errors
    ///
    /// Those of `join`.
    final fn join_traced<G: Gate>(
        &self,
        rt: &(impl Threads + Sync),
        alloc: Global,
        other: &DataFrame,
        left_on: &[PlSmallStr],
        right_on: &[PlSmallStr],
        args: JoinArgs,
        exec: &Exec,
        gate: &G,
    ) -> PolarsResult<(DataFrame, JoinTrace)>
        ensures { IsTracedJoinOf (Self.frame self.now) other.now left_on.now right_on.now args
            exec.now (G.lets_in gate.now) result }
    {
        let request = NamedRequest {
            left: self.to_df(),
            right: other,
            left_on,
            right_on,
            args: &args,
        };
        join_tables(rt, alloc, &request, exec, gate)
    }

    /// The Inner join by these keys, with nothing else asked: `join` with `JoinArgs::new`.
    ///
    /// # Errors
    ///
    /// Those of `join`, but for NullFlags.
    final fn inner_join(
        &self,
        rt: &(impl Threads + Sync),
        alloc: Global,
        other: &DataFrame,
        left_on: &[PlSmallStr],
        right_on: &[PlSmallStr],
        exec: &Exec,
    ) -> PolarsResult<DataFrame>
        ensures { IsJoinOf
            (lent_request (Self.frame self.now) other.now left_on.now right_on.now
            (plain_args JoinType.Inner))
            result }
    {
        let args = JoinArgs::new(JoinType::Inner);
        self.join(rt, alloc, other, left_on, right_on, args, exec)
    }

    /// The Left join by these keys, with nothing else asked.
    ///
    /// # Errors
    ///
    /// Those of `join`, but for NullFlags.
    final fn left_join(
        &self,
        rt: &(impl Threads + Sync),
        alloc: Global,
        other: &DataFrame,
        left_on: &[PlSmallStr],
        right_on: &[PlSmallStr],
        exec: &Exec,
    ) -> PolarsResult<DataFrame>
        ensures { IsJoinOf
            (lent_request (Self.frame self.now) other.now left_on.now right_on.now
            (plain_args JoinType.Left))
            result }
    {
        let args = JoinArgs::new(JoinType::Left);
        self.join(rt, alloc, other, left_on, right_on, args, exec)
    }

    /// The Full join by these keys, with nothing else asked.
    ///
    /// # Errors
    ///
    /// Those of `join`, but for NullFlags.
    final fn full_join(
        &self,
        rt: &(impl Threads + Sync),
        alloc: Global,
        other: &DataFrame,
        left_on: &[PlSmallStr],
        right_on: &[PlSmallStr],
        exec: &Exec,
    ) -> PolarsResult<DataFrame>
        ensures { IsJoinOf
            (lent_request (Self.frame self.now) other.now left_on.now right_on.now
            (plain_args JoinType.Full))
            result }
    {
        let args = JoinArgs::new(JoinType::Full);
        self.join(rt, alloc, other, left_on, right_on, args, exec)
    }
}

impl DataFrameJoinOps for DataFrame {}

// The pairs of a request, where no cause refuses its key columns, the names of its answer, its sides or their number.
fn checked_pairs<G: Gate>(
    rt: &(impl Threads + Sync),
    alloc: Global,
    request: &LentRequest<'_>,
    exec: &Exec,
    gate: &G,
) -> PolarsResult<ListedPairs>
    requires { HaveKeys request.now }
    ensures { ArePairsTraced (later_refusal (asked_request request.now)) request.now exec.now
        (G.lets_in gate.now) result }
{
    check_columns(alloc, request)?;
    traced_pairs(rt, alloc, request, exec, gate)
}

// The join of a request whose keys stand in columns of their names, and how it went.
fn traced_columns<G: Gate>(
    rt: &(impl Threads + Sync),
    alloc: Global,
    request: &LentRequest<'_>,
    exec: &Exec,
    gate: &G,
) -> PolarsResult<(DataFrame, JoinTrace)>
    requires ready { CanBeJoined request.now }
    ensures { IsTracedJoinUnless (later_refusal (asked_request request.now))
        (asked_request request.now) exec.now (requested_trace request.now exec.now)
        (G.lets_in gate.now) result }
{
    let ListedPairs { pairs, trace } = checked_pairs(rt, alloc, request, exec, gate)?;
    let table = finish_join(rt, alloc, request, &pairs)?;
    Ok((table, trace))
}

/// The join of a request whose keys stand in columns of their names.
pub fn join_columns(
    rt: &(impl Threads + Sync),
    alloc: Global,
    request: &LentRequest<'_>,
    exec: &Exec,
) -> PolarsResult<DataFrame>
    requires ready { CanBeJoined request.now }
    ensures { IsJoinUnless (later_refusal (asked_request request.now)) (asked_request request.now)
        result }
{
    let (table, _trace) = traced_columns(rt, alloc, request, exec, &OpenGate)?;
    Ok(table)
}

fn join_tables<G: Gate>(
    rt: &(impl Threads + Sync),
    alloc: Global,
    request: &NamedRequest<'_>,
    exec: &Exec,
    gate: &G,
) -> PolarsResult<(DataFrame, JoinTrace)>
    ensures { IsTracedJoinOf request.now.left.now request.now.right.now request.now.left_on.now
        request.now.right_on.now request.now.args.now exec.now (G.lets_in gate.now) result }
{
    let _columns = request.left.get_columns();
    let keys = request.key_columns(alloc)?;
    let lent = request.with_keys(&keys);
    traced_columns(rt, alloc, &lent, exec, gate)
}
