//! Codes of keys, hash tables of them step by step, and the pairs of columns.
ghost use Rattle.std.specs.Prelude.{◌≡◌, ◌∷◌, [], IfOk, map};
ghost use Rattle.tb_value.specs.Promise.Kind.{int64};
ghost use Rattle.tb_chunk.specs.Promise.Col.{Col};

use crate::columns::column;
use either::Either;
use std::alloc::Global;
use std::process::Abort;
use std::test::Fail;
use std::thread::Threads;
use tb_build::{Built, Tables, build_tables};
use tb_frame::{DataFrame, JoinType, JoinValidation};
use tb_hash::{
    InnerJoinIds, KeyBytes, LeftJoinIds, SeriesJoin, code_of, default_join_ids, partition_of, probe,
};
use tb_join::private_left_join_multiple_keys;
use tb_pool::{Exec, OpenGate};
use tb_store::Series;
use tb_value::{JoinPair, NullableIdxSize};

// Codes as others compute them: that of a text by the tables of FNV-1a.
#[test]
fn keys_have_the_published_codes(rt: HostRuntime) {
    let text = code_of(Some(KeyBytes { bytes: b"a" }));
    assert!(rt; text == 0xaf63_dc4c_8601_ec8c && partition_of(text, 8) == 5);
    assert!(rt; code_of(Some(1i64)) == 0x9E37_79B9_7F4A_7C15);
}

// The keys 0 to 5.
const KEYS: [Option<i64>; 6] = [Some(0), Some(1), Some(2), Some(3), Some(4), Some(5)];

// Whether the keys are in two parts, as their codes say.
fn are_six_built(tables: &Tables<i64>, built: &Built) -> bool {
    built.parts() == 2
        && built.sizes() == [4usize, 2].as_slice()
        && tables.built_len() == 6
        && tables.rows(Some(3)) == [3u32].as_slice()
        && tables.rows(None).is_empty()
}

// The tables of six keys of the right side.
fn six_keys(
    rt: &(impl Threads + Sync + Abort),
    alloc: Global,
    exec: &Exec,
) -> Result<Tables<i64>, Fail> {
    let (tables, built) = build_tables(rt, alloc, &KEYS, false, false, exec, &OpenGate)?;
    assert!(rt; are_six_built(&tables, &built));
    Ok(tables)
}

// The pairs of an Inner join of three keys with them.
fn check_probed(
    rt: &(impl Threads + Sync + Abort),
    alloc: Global,
    tables: &Tables<i64>,
    exec: &Exec,
) -> Result<(), Fail> {
    let probed = [Some(5i64), None, Some(2)];
    let how = JoinType::Inner;
    let pairs = probe(rt, alloc, how, tables, &probed, exec, &OpenGate)?;
    let wanted = [JoinPair::both(0, 5), JoinPair::both(2, 2)];
    assert!(rt; pairs.pairs() == wanted.as_slice());
    Ok(())
}

#[test]
fn six_keys_probed_by_three(rt: HostRuntime) -> Result<(), Fail> {
    let exec = Exec::new(2, 2, 0, 1, 1)?;
    let tables = six_keys(&rt, rt.alloc(), &exec)?;
    check_probed(&rt, rt.alloc(), &tables, &exec)
}

#[test]
fn ids_of_no_rows(rt: HostRuntime) -> Result<(), Fail> {
    let ids = default_join_ids(rt.alloc());
    assert!(rt; ids.left().is_some_and(|rows| rows.is_empty()));
    Ok(())
}

// Whether these are the pairs of an Inner join, by row numbers.
fn are_inner(ids: &InnerJoinIds) -> bool {
    ids.0.as_slice() == [0u32, 0, 2, 2].as_slice() && ids.1.as_slice() == [0u32, 1, 0, 1].as_slice()
}

#[tactic(auto, using(crate::proofs::Sides::has_keys))]
fn check_inner(
    rt: &(impl Threads + Sync + Abort),
    alloc: Global,
    left: &Series,
    right: &Series,
    exec: &Exec,
) -> Result<(), Fail>
    requires left { left.now.kind ≡ int64 }
    requires right { right.now.kind ≡ int64 }
{
    let many = JoinValidation::ManyToMany;
    let (ids, right_built) = left.hash_join_inner(rt, alloc, right, many, false, exec)?;
    assert!(rt; right_built && are_inner(&ids));
    Ok(())
}

// Whether these are pairs of a Left join: row numbers of the left column, which is one chunk, and ids of the right one, which is two.
fn are_left(ids: &LeftJoinIds) -> bool {
    match (&ids.0, &ids.1) {
        (Either::Left(rows), Either::Right(ids)) => {
            rows.as_slice() == [0u32, 0, 1, 2, 2].as_slice() && ids.len() == 5 && ids[2].is_null()
        }
        _ => false,
    }
}

#[tactic(auto, using(crate::proofs::Sides::has_keys))]
fn check_left(
    rt: &(impl Threads + Sync + Abort),
    alloc: Global,
    left: &Series,
    right: &Series,
    exec: &Exec,
) -> Result<(), Fail>
    requires left { left.now.kind ≡ int64 }
    requires right { right.now.kind ≡ int64 }
{
    let many = JoinValidation::ManyToMany;
    let ids = left.hash_join_left(rt, alloc, right, many, false, exec)?;
    assert!(rt; are_left(&ids));
    Ok(())
}

// The pairs of a Full join stand in any order.
#[tactic(auto, using(crate::proofs::Sides::has_keys))]
fn check_full(
    rt: &(impl Threads + Sync + Abort),
    alloc: Global,
    left: &Series,
    right: &Series,
    exec: &Exec,
) -> Result<(), Fail>
    requires left { left.now.kind ≡ int64 }
    requires right { right.now.kind ≡ int64 }
{
    let many = JoinValidation::ManyToMany;
    let rows = left.hash_join_outer(rt, alloc, right, many, false, exec)?;
    assert!(rt; rows.0.len() == 5 && rows.1.len() == 5);
    Ok(())
}

// The pairs of each kind of join, by so many workers.
fn check_kinds(
    rt: &(impl Threads + Sync + Abort),
    alloc: Global,
    left: &Series,
    right: &Series,
    exec: &Exec,
) -> Result<(), Fail>
    requires left { left.now.kind ≡ int64 }
    requires right { right.now.kind ≡ int64 }
{
    check_inner(rt, alloc, left, right, exec)?;
    check_left(rt, alloc, left, right, exec)?;
    check_full(rt, alloc, left, right, exec)
}

#[test]
fn pairs_of_two_columns(rt: HostRuntime) -> Result<(), Fail> {
    let left = column(rt.alloc(), "k", &[&[Some(1), Some(2), Some(1)]])?;
    let right = column(rt.alloc(), "k", &[&[Some(1)], &[Some(1)]])?;
    check_kinds(&rt, rt.alloc(), &left, &right, &Exec::standard())?;
    check_kinds(&rt, rt.alloc(), &left, &right, &Exec::new(2, 2, 0, 1, 1)?)
}

// A table of two key columns.
fn two_keys(alloc: Global, first: &[Option<i64>], second: &[Option<i64>]) -> Result<DataFrame, Fail>
    ensures { IfOk result (λ t. map (λ (c : Col). c.kind) t ≡ int64 ∷ int64 ∷ []) }
{
    let mut columns = Vec::new(alloc);
    columns.push(column(alloc, "a", &[first])?.into_column())?;
    columns.push(column(alloc, "b", &[second])?.into_column())?;
    Ok(DataFrame::new(alloc, columns)?)
}

// Whether the second left row alone has a match, and which.
fn are_met(ids: &LeftJoinIds) -> bool {
    match (&ids.0, &ids.1) {
        (Either::Left(lefts), Either::Left(rights)) => {
            lefts.as_slice() == [0u32, 1].as_slice()
                && rights.as_slice()
                    == [NullableIdxSize::null(), NullableIdxSize::some(0)].as_slice()
        }
        _ => false,
    }
}

// The pairs of a Left join of two tables by all columns.
fn check_left_pairs(
    rt: &(impl Threads + Sync + Abort),
    alloc: Global,
    left: &DataFrame,
    right: &DataFrame,
    exec: &Exec,
) -> Result<(), Fail>
    requires left { map (λ (c : Col). c.kind) left.now ≡ int64 ∷ int64 ∷ [] }
    requires right { map (λ (c : Col). c.kind) right.now ≡ int64 ∷ int64 ∷ [] }
{
    let ids = private_left_join_multiple_keys(rt, alloc, left, right, false, exec)?;
    assert!(rt; are_met(&ids));
    Ok(())
}

#[test]
fn left_pairs_by_two_columns(rt: HostRuntime) -> Result<(), Fail> {
    let alloc = rt.alloc();
    let left = two_keys(alloc, &[Some(1), Some(2)], &[Some(7), Some(8)])?;
    let right = two_keys(alloc, &[Some(2)], &[Some(8)])?;
    check_left_pairs(&rt, alloc, &left, &right, &Exec::standard())?;
    check_left_pairs(&rt, alloc, &left, &right, &Exec::new(3, 2, 0, 1, 1)?)
}
