//! Tables by rows that were found before, and by one key column of each side.
ghost use Rattle.std.specs.Prelude.{◌≡◌, ◌<◌, ◌≤◌, ◌⊎◌, [], All, IfOk, IsSome, None, length, map};
ghost use Rattle.tb_value.specs.Promise.Pairs.{left_only};
ghost use Rattle.tb_chunk.specs.Promise.Col.{values};
ghost use Rattle.tb_frame.specs.Frame.{taken_rows};
ghost use Rattle.tb_frame.specs.Promise.Join.{IsAnswer, cut, listing, out};
ghost use Rattle.tb_frame.specs.Promise.Refusal.{null_flags};
ghost use Rattle.tb_frame.specs.Promise.Table.{height, table_of};
ghost use Rattle.tb_gather.specs.Gathered.{NameRows, gathered_column};
ghost use Rattle.tb_gather.specs.Ids.{Id, StandInOrder};
ghost use Rattle.tb_keys.specs.Promise.Listing.{value_listing};
ghost use Rattle.tb_keys.specs.Asked.{asked_request};
ghost use Rattle.tb_keys.specs.Promise.Answers.{IsJoinUnless};
ghost use Rattle.tb_join.specs.Ready.{CanCoalesceKeys};
ghost use Rattle.tb_pairs.specs.KeyColumns.{AreKeysAlike};
ghost use Rattle.tb_dispatch.specs.Given.{AreKeys, CanCoalesce, IsFullJoin, StandBeside, by_match, by_series, paired_refusal, semi_or_anti};
ghost use Rattle.tb_dispatch.specs.Rows.{Rise, row_order};

use std::alloc::Global;
use std::slice;
use std::thread::Threads;
use tb_frame::{DataFrame, IntoDf, JoinArgs, JoinType, kept_part};
use tb_gather::TakeChunkedHorPar;
use tb_hash::SeriesJoin;
use tb_join::finish_join;
use tb_keys::{LentRequest, check_answer_names};
use tb_pairs::listed_pairs;
use tb_pool::Exec;
use tb_store::Series;
use tb_value::{
    IdxSize, IsSorted, MAX_ROWS, OutOfMemory, PolarsResult, StandardChunkId, only_memory,
};

// The ids of a Left join ascend.
fn runs(left_join: bool) -> IsSorted
    ensures { result ≡ row_order left_join }
{
    if left_join {
        IsSorted::Ascending
    } else {
        IsSorted::Not
    }
}

/// Tables made of the table that `self` lends, by rows or by a key column.
pub trait JoinDispatch: IntoDf {
    /// The rows that the ids name, each column in one chunk. Each id names a row of each column. With `left_join` the
    /// ids ascend by chunk and row, and the columns keep their flags.
    final fn create_left_df_chunked(
        &self,
        rt: &(impl Threads + Sync),
        alloc: Global,
        chunk_ids: &[StandardChunkId],
        left_join: bool,
        _was_sliced: bool,
    ) -> Result<DataFrame, OutOfMemory>
        requires present { All (λ (id : Id). IsSome id) chunk_ids.now }
        requires named { All (NameRows chunk_ids.now) (Self.frame self.now) }
        requires in_order { StandInOrder (row_order left_join) chunk_ids.now }
        requires few { length chunk_ids.now ≤ MAX_ROWS }
        ensures { IfOk result (λ t.
            t ≡ map (gathered_column chunk_ids.now (row_order left_join)) (Self.frame self.now)) }
    {
        let sorted = runs(left_join);
        self.to_df()
            ._take_chunked_unchecked_hor_par(rt, alloc, chunk_ids, sorted)
    }

    /// These rows of the table, each column in one chunk.
    final fn _create_left_df_from_slice(
        &self,
        _rt: &(impl Threads + Sync),
        alloc: Global,
        join_tuples: &[IdxSize],
        _left_join: bool,
        _was_sliced: bool,
        _sorted_tuple_idx: bool,
    ) -> Result<DataFrame, OutOfMemory>
        requires rows { All (λ r. r < height (table_of (Self.frame self.now))) join_tuples.now }
        requires few { length join_tuples.now ≤ MAX_ROWS }
        ensures { IfOk result (λ t. t ≡ map (taken_rows join_tuples.now) (Self.frame self.now)) }
    {
        self.to_df().take(alloc, join_tuples)
    }

    /// Those of these rows of the table that the slice keeps. The row numbers rise.
    final fn _finish_anti_semi_join(
        &self,
        _rt: &(impl Threads + Sync),
        alloc: Global,
        idx: &[IdxSize],
        slice: Option<(i64, usize)>,
    ) -> Result<DataFrame, OutOfMemory>
        requires rows { All (λ r. r < height (table_of (Self.frame self.now))) idx.now }
        requires rise { Rise idx.now }
        ensures { IfOk result (λ t.
            t ≡ map (taken_rows (cut slice idx.now)) (Self.frame self.now)) }
    {
        let table = self.to_df();
        let _height = table.height();
        table.take(alloc, kept_part(idx, slice))
    }

    /// The Semi join of the table, by a key column that is as long as the table is high, with another key column of its
    /// type, or with `anti` the Anti join.
    final fn _semi_anti_join_from_series(
        &self,
        rt: &(impl Threads + Sync),
        alloc: Global,
        s_left: &Series,
        s_right: &Series,
        slice: Option<(i64, usize)>,
        anti: bool,
        join_nulls: bool,
        exec: &Exec,
    ) -> Result<DataFrame, OutOfMemory>
        requires types { AreKeys s_left.now s_right.now }
        requires rows { length (values s_left.now) ≡ height (table_of (Self.frame self.now)) }
        ensures { IfOk result (λ t.
            IsAnswer (by_match anti join_nulls slice (Self.frame self.now) s_left.now s_right.now)
            (table_of t)) }
    {
        let _columns = self.to_df().get_columns();
        let rows = rows_alone(rt, alloc, s_left, s_right, anti, join_nulls, exec)?;
        self._finish_anti_semi_join(rt, alloc, &rows, slice)
    }

    /// The Full join of the table with another, by one key column of each side; where the arguments ask for coalesced
    /// columns, the table's columns of the keys' names are coalesced. The kind that the arguments name is not read.
    ///
    /// Each key column is as long as its table is high, and both have one key type. Where columns are coalesced, the
    /// names of the keys are columns of their tables, and these have one type. There is one flag for all keys, or one for
    /// the one key.
    ///
    /// # Errors
    ///
    /// The first of these that holds, or OutOfMemory:
    /// 1. Duplicate: two columns of the answer, before any are coalesced, would have this name, the first that stood before;
    /// 2. Validation: two left rows have equal keys and may not, and then two right rows;
    /// 3. TooManyRows: there are more than `MAX_ROWS` pairs of rows before they are cut.
    final fn _full_join_from_series(
        &self,
        rt: &(impl Threads + Sync),
        alloc: Global,
        other: &DataFrame,
        s_left: &Series,
        s_right: &Series,
        args: JoinArgs,
        exec: &Exec,
    ) -> PolarsResult<DataFrame>
        requires keys { StandBeside (Self.frame self.now) other.now s_left.now s_right.now }
        requires coalescing { CanCoalesce
            (by_series JoinType.Full (Self.frame self.now) other.now s_left.now s_right.now args) }
        requires flags { null_flags args.join_nulls 1 ≡ None }
        ensures { IsFullJoin (Self.frame self.now) other.now s_left.now s_right.now args result }
    {
        full_join_by(rt, alloc, self.to_df(), other, s_left, s_right, &args, exec)
    }
}

impl JoinDispatch for DataFrame {}

// The left rows that have a match, or with `anti` those that have none.
fn rows_alone(
    rt: &(impl Threads + Sync),
    alloc: Global,
    s_left: &Series,
    s_right: &Series,
    anti: bool,
    join_nulls: bool,
    exec: &Exec,
) -> Result<Vec<IdxSize>, OutOfMemory>
    requires { AreKeys s_left.now s_right.now }
    ensures { IfOk result (λ v.
        map left_only v.items
        ≡ value_listing join_nulls (semi_or_anti anti) (values s_left.now)
        (values s_right.now)) }
{
    let answer = s_left.hash_join_semi_anti(rt, alloc, s_right, anti, join_nulls, exec);
    only_memory(answer)
}

// The Full join by one key column of each side.
fn full_join_by(
    rt: &(impl Threads + Sync),
    alloc: Global,
    left: &DataFrame,
    right: &DataFrame,
    s_left: &Series,
    s_right: &Series,
    args: &JoinArgs,
    exec: &Exec,
) -> PolarsResult<DataFrame>
    requires keys { StandBeside left.now right.now s_left.now s_right.now }
    requires coalescing { CanCoalesce
        (by_series JoinType.Full left.now right.now s_left.now s_right.now args.now) }
    ensures { IsFullJoin left.now right.now s_left.now s_right.now args.now result }
{
    let request = LentRequest {
        left,
        right,
        left_on: slice::from_ref(s_left.name()),
        right_on: slice::from_ref(s_right.name()),
        left_keys: &[s_left],
        right_keys: &[s_right],
        how: JoinType::Full,
        args,
    };
    join_named(rt, alloc, &request, exec)
}

// The join of a request whose names alone are still to be looked at.
fn join_named(
    rt: &(impl Threads + Sync),
    alloc: Global,
    request: &LentRequest<'_>,
    exec: &Exec,
) -> PolarsResult<DataFrame>
    requires alike { AreKeysAlike request.now }
    requires wide { (0 < length (out (asked_request request.now)))
        ⊎ (listing (asked_request request.now) ≡ []) }
    requires coalescing { CanCoalesceKeys (asked_request request.now) }
    ensures { IsJoinUnless (paired_refusal (asked_request request.now)) (asked_request request.now)
        result }
{
    check_answer_names(alloc, request)?;
    let pairs = listed_pairs(rt, alloc, request, exec)?;
    finish_join(rt, alloc, request, &pairs)
}
