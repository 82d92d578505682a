//! Pairs by hash tables.
ghost use Rattle.std.specs.Prelude.{◌≡◌, ◌<◌, false, IfOk, List, length, map};
ghost use Rattle.std.specs.Option.{option_copied};
ghost use Rattle.tb_value.specs.Promise.Datum.{binary};
ghost use Rattle.tb_value.specs.Promise.Kind as kind;
ghost use Rattle.tb_value.specs.declared.index.JoinPair.{JoinPair};
ghost use Rattle.tb_chunk.specs.Chunk.{or_null};
ghost use Rattle.tb_hash.specs.Hashed.{AreValuesJoined};
ghost use Rattle.tb_hash.specs.Probing.{IsProbed};
ghost use Rattle.tb_hash.specs.Promise.Hashing.{IsLetIn};
ghost use Rattle.tb_sorted.specs.Listed.{IsListedIn};
ghost use Rattle.tb_sorted.specs.Path.{takes_merge_path};
ghost use Rattle.tb_pairs.specs.KeyColumns.{AreKeysAlike};
ghost use Rattle.tb_pairs.specs.RowKeys.{AreRowKeysOf};
ghost use Rattle.tb_pairs.specs.Traced.{ArePairsFound};

use crate::trace::{FoundPairs, JoinTrace};
use std::alloc::Global;
use std::thread::Threads;
use tb_frame::JoinType;
use tb_hash::{Built, KeyBytes, KeyJoin, KeyList, Probed, hash_keys, hash_pairs, probed_order};
use tb_keys::LentRequest;
use tb_pool::{Exec, Gate};
use tb_rowkey::{RowKeys, know_columns};
use tb_sorted::DirectedPairs;
use tb_store::Series;
use tb_value::PolarsResult;

// The pairs that a hash table gave, with the order in which they stand and what was built.
fn found_by_hash(how: JoinType, probed: Probed, built: Built) -> FoundPairs
    ensures listed { (list : List JoinPair) → IsProbed how built.left_built list probed
        → IsListedIn list result.listed }
    ensures trace { result.trace ≡ JoinTrace.Hash built }
{
    let order = probed_order(how, built.left_built());
    let pairs = probed.into_pairs();
    FoundPairs {
        listed: DirectedPairs { pairs, order },
        trace: JoinTrace::Hash(built),
    }
}

/// The pairs of a request with one key on each side.
pub(crate) fn pairs_by_key<G: Gate>(
    rt: &(impl Threads + Sync),
    alloc: Global,
    request: &LentRequest<'_>,
    exec: &Exec,
    gate: &G,
) -> PolarsResult<FoundPairs>
    requires one { length request.now.left_keys.now ≡ 1 }
    requires alike { AreKeysAlike request.now }
    requires hashed { takes_merge_path request.now exec.now ≡ false }
    ensures { ArePairsFound request.now exec.now (G.lets_in gate.now) result }
{
    let left = request.left_keys[0];
    let right = request.right_keys[0];
    let join_nulls = request.args.join_nulls.flag_at(0);
    let join = KeyJoin {
        alloc,
        how: request.how,
        validate: request.args.validation,
        join_nulls,
        exec,
    };
    let (probed, built) = hash_pairs(rt, gate, &join, left, right)?;
    Ok(found_by_hash(request.how, probed, built))
}

fn as_key(key: Option<&[u8]>) -> Option<KeyBytes<'_>>
    ensures { or_null (λ k. binary k.bytes.now) result ≡ or_null binary (option_copied key.entry) }
{
    match key {
        Some(bytes) => Some(KeyBytes { bytes }),
        None => None,
    }
}

// The keys of rows, each lent when it is asked for.
#[derive(Clone, Copy)]
struct LentRowKeys<'a> {
    keys: &'a RowKeys,
}

impl<'a> KeyList<KeyBytes<'a>> for LentRowKeys<'a> {
    ghost use Rattle.tb_pairs.specs.LentKeys.{lent_list};

    ghost list = { λ l. lent_list l.keys.now };

    fn len(&self) -> usize {
        self.keys.len()
    }

    fn key(&self, row: usize) -> Option<KeyBytes<'a>> {
        as_key(self.keys.get(row))
    }
}

// What the keys of the rows of two sides give.
fn joined_row_keys<G: Gate>(
    rt: &(impl Threads + Sync),
    gate: &G,
    join: &KeyJoin<'_>,
    left: &RowKeys,
    right: &RowKeys,
) -> PolarsResult<(Probed, Built)>
    ensures hashed { AreValuesJoined join.now kind.binary (map (or_null binary) left.now)
        (map (or_null binary) right.now) result }
    ensures let_in { IfOk result (λ r. IsLetIn (G.lets_in gate.now) r.1) }
{
    left.know_rows();
    right.know_rows();
    let left = LentRowKeys { keys: left };
    let right = LentRowKeys { keys: right };
    hash_keys(rt, gate, join, &left, &right)
}

/// The pairs of a request by the keys of its rows. A row with an absent field that matches none has no key, and so no
/// match. So among the keys absent ones never match.
pub(crate) fn pairs_by_row_key<G: Gate>(
    rt: &(impl Threads + Sync),
    alloc: Global,
    request: &LentRequest<'_>,
    left: &RowKeys,
    right: &RowKeys,
    exec: &Exec,
    gate: &G,
) -> PolarsResult<FoundPairs>
    requires several { 1 < length request.now.left_keys.now }
    requires alike { AreKeysAlike request.now }
    requires keys { AreRowKeysOf request.now left.now right.now }
    ensures { ArePairsFound request.now exec.now (G.lets_in gate.now) result }
{
    know_columns(request.left_keys);
    know_columns(request.right_keys);
    let join = KeyJoin {
        alloc,
        how: request.how,
        validate: request.args.validation,
        join_nulls: false,
        exec,
    };
    let (probed, built) = joined_row_keys(rt, gate, &join, left, right)?;
    Ok(found_by_hash(request.how, probed, built))
}
