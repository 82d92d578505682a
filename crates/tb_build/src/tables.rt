//! The tables of the built keys: for each key its rows.
ghost use Rattle.std.specs.Prelude.{◌≡◌, ℕ, Bool, ◌+◌, ◌^◌, ◌<◌, ◌≤◌, None, length, map, slice_index_or, All, IfOk, Option};
ghost use Rattle.tb_build.specs.Promise.Codes.{part_of};
ghost use Rattle.tb_build.specs.Promise.Plan.{plan_of};
ghost use Rattle.tb_build.specs.Plan.{codes_of};
ghost use Rattle.tb_build.specs.TableView.{rows_at, tables_view, IsParted, IsTableOf};
ghost use Rattle.tb_build.specs.Packed.{cut_of, key_rows, starts_at, AreAsked, IsAsked};
ghost use Rattle.std.specs.List.{range_with_len};

use crate::building::{one_table, planned_tables};
use crate::keys::{JoinKey, KeyCode, code_of, partition_of};
use crate::lent::{JoinList, KeyList, SliceKeys};
use crate::packed::PackedTable;
use std::alloc::Global;
use std::marker::Model;
use std::thread::Threads;
use tb_pool::{Exec, Gate};
use tb_value::{IdxSize, MAX_ROWS, OutOfMemory};

/// The rows of each of the built keys, one table for each part of them. `listed_tables`
/// alone makes one.
#[derive(Drop)]
pub struct Tables<K: KeyCode> {
    parts: Vec<PackedTable<K>>,
    built_len: usize,
    join_nulls: bool,
    left_built: bool,
}

impl<K: KeyCode> Model for Tables<K> {
    ghost use Rattle.std.specs.Prelude.{map};
    ghost use Rattle.tb_build.specs.Packed.{key_rows};
    ghost use Rattle.tb_build.specs.TableView.{TableView, IsSmall, tables_view};

    ghost Value = { TableView K };

    ghost view = { λ t. tables_view (map (key_rows K.eq) t.parts.items) t.built_len t.join_nulls t.left_built };

    ghost invariant = { λ t. IsSmall K.eq K.code (tables_view (map (key_rows K.eq) t.parts.items) t.built_len t.join_nulls t.left_built) };
}

impl<K: KeyCode> Tables<K> {
    /// The rows of the equal keys, ascending. Of no key, the rows without one where absent keys match, else none.
    pub fn rows(&self, key: Option<K>) -> &[IdxSize]
        ensures value { result.now ≡ rows_at K.eq K.code self.now key }
        ensures below { All (λ row. row < self.now.built_len) result.now }
    {
        match key {
            Some(key) => {
                let part = part_in(key, self.parts.len() as u32);
                self.parts[part as usize].rows(&key)
            }
            None if self.join_nulls => self.parts[0].bare_rows(),
            None => &[],
        }
    }

    /// The rows of the keys that are equal to that of a row in a list, as `rows` gives them.
    pub fn rows_of<L: KeyList<K>>(&self, list: &L, row: usize) -> &[IdxSize]
        requires { row < length (L.list list.now) }
        ensures value { result.now
            ≡ rows_at K.eq K.code self.now (slice_index_or (L.list list.now) row None) }
        ensures below { All (λ row. row < self.now.built_len) result.now }
    {
        self.rows(list.key(row))
    }

    /// The rows of the keys that are equal to those of so many rows of a list from the first on, as `rows` gives them. They
    /// are looked up together: all buckets, all their bounds, and then the keys in them, so that the processor waits for
    /// many reads at once.
    pub fn rows_of_many<'a, L: KeyList<K>>(
        &'a self,
        alloc: Global,
        list: &L,
        first: usize,
        len: usize,
    ) -> Result<Vec<&'a [IdxSize]>, OutOfMemory>
        requires within { first + len ≤ length (L.list list.now) }
        requires small { length (L.list list.now) ≤ MAX_ROWS }
        ensures { IfOk result (λ v. map (λ r. r.now) v.items
            ≡ map (λ row. rows_at K.eq K.code self.now (slice_index_or (L.list list.now) row None)) (range_with_len first len)) }
    {
        let parts = self.parts.as_slice();
        let asked = asked(alloc, parts, list, first, len)?;
        let bounds = bounds(alloc, parts, asked.as_slice())?;
        let mut found = Vec::with_capacity(alloc, len)?;
        for place in 0..len {
            found.push(rows_asked(parts, self.join_nulls, asked[place], bounds[place]))?;
        }
        Ok(found)
    }

    /// The number of the built keys, absent ones too.
    pub fn built_len(&self) -> usize
        ensures value { result ≡ self.now.built_len }
        ensures small { result ≤ MAX_ROWS }
        ensures rows { (key : Option K)
            → All (λ row. row < result) (rows_at K.eq K.code self.now key) }
    {
        self.built_len
    }

    /// Whether the left side was built.
    pub fn left_built(&self) -> bool
        ensures { result ≡ self.now.left_built }
    {
        self.left_built
    }
}

// The part, of so many, that has the key. Where there is one, no code is needed.
fn part_in<K: KeyCode>(key: K, parts: u32) -> u32
    requires { 1 ≤ parts }
    ensures value { result ≡ part_of (K.code key) parts }
    ensures below { result < parts }
{
    if parts == 1 {
        return 0;
    }
    partition_of(key.code(), parts)
}

// The key of each of so many rows from the first on, its part and its bucket there.
fn asked<K: KeyCode, L: KeyList<K>>(
    alloc: Global,
    parts: &[PackedTable<K>],
    list: &L,
    first: usize,
    len: usize,
) -> Result<Vec<(Option<K>, u32, u32)>, OutOfMemory>
    requires some { 1 ≤ length parts.now }
    requires few { length parts.now < 2 ^ 32 }
    requires within { first + len ≤ length (L.list list.now) }
    requires small { length (L.list list.now) ≤ MAX_ROWS }
    ensures { IfOk result (λ v.
        AreAsked K.eq K.code parts.now (L.list list.now) first len v.items) }
{
    let many = parts.len() as u32;
    let mut asked = Vec::with_capacity(alloc, len)?;
    for place in 0..len {
        let key = list.key(first + place);
        let code = code_of(key);
        let part = partition_of(code, many);
        let bucket = parts[part as usize].bucket(code);
        asked.push((key, part, bucket))?;
    }
    Ok(asked)
}

// Where the bucket of each asked key begins and ends.
fn bounds<K: KeyCode>(
    alloc: Global,
    parts: &[PackedTable<K>],
    asked: &[(Option<K>, u32, u32)],
) -> Result<Vec<(u32, u32)>, OutOfMemory>
    requires low { All (λ (a : Option K × ℕ × ℕ). a.1 < length parts.now) asked.now }
    requires within { All (λ (a : Option K × ℕ × ℕ). a.2 + 1 < length (starts_at parts.now a.1))
        asked.now }
    ensures { IfOk result (λ v.
        v.items ≡ map (λ (a : Option K × ℕ × ℕ). cut_of (starts_at parts.now a.1) a.2) asked.now) }
{
    let mut bounds = Vec::with_capacity(alloc, asked.len())?;
    for ask in asked {
        bounds.push(parts[ask.1 as usize].bounds(ask.2))?;
    }
    Ok(bounds)
}

// The rows of an asked key, whose bucket has these bounds.
fn rows_asked<'a, K: KeyCode>(
    parts: &'a [PackedTable<K>],
    join_nulls: bool,
    asked: (Option<K>, u32, u32),
    bounds: (u32, u32),
) -> &'a [IdxSize]
    requires some { 1 ≤ length parts.now }
    requires asked { (listed : Option K) × IsAsked K.eq K.code parts.now listed asked }
    requires bounds { bounds ≡ cut_of (starts_at parts.now asked.1) asked.2 }
    ensures { (len : ℕ) (side : Bool)
        → result.now
        ≡ rows_at K.eq K.code (tables_view (map (key_rows K.eq) parts.now) len join_nulls side)
        asked.0 }
{
    match asked.0 {
        Some(key) => parts[asked.1 as usize].rows_between(bounds, &key),
        None if join_nulls => parts[0].bare_rows(),
        None => &[],
    }
}

/// How tables were built. `listed_tables` alone makes one.
#[derive(Drop)]
pub struct Built {
    parts: u32,
    sizes: Vec<usize>,
    left_built: bool,
}

impl Model for Built {
    ghost use Rattle.tb_build.specs.Promise.Plan.{BuiltView};

    ghost Value = { BuiltView };

    ghost view = { λ b. record { parts = b.parts; sizes = b.sizes.items; left_built = b.left_built } };
}

impl Built {
    /// The number of parts.
    pub fn parts(&self) -> u32
        ensures { result ≡ self.now.parts }
    {
        self.parts
    }

    /// The number of keys of each part, absent ones too.
    pub fn sizes(&self) -> &[usize]
        ensures { result.now ≡ self.now.sizes }
    {
        self.sizes.as_slice()
    }

    /// Whether the left side was built.
    pub fn left_built(&self) -> bool
        ensures { result ≡ self.now.left_built }
    {
        self.left_built
    }
}

/// The tables of the keys of a list, which are of the left side or of the right one, and how they were built: in one
/// part where they are fewer than `exec.small()`, else in as many as there are partitions, side by side.
pub fn listed_tables<K: JoinKey, L: JoinList<K>, G: Gate>(
    rt: &(impl Threads + Sync),
    alloc: Global,
    list: &L,
    join_nulls: bool,
    left_built: bool,
    exec: &Exec,
    gate: &G,
) -> Result<(Tables<K>, Built), OutOfMemory>
    requires { length (L.list list.now) ≤ MAX_ROWS }
    ensures table { IfOk result (λ r. IsTableOf K.eq K.code (L.list list.now) r.0) }
    ensures parted { IfOk result (λ r. IsParted K.eq K.code (L.list list.now) r.1.parts r.0) }
    ensures nulls { IfOk result (λ r. r.0.join_nulls ≡ join_nulls) }
    ensures side { IfOk result (λ r. r.0.left_built ≡ left_built) }
    ensures built { IfOk result (λ r.
        r.1 ≡ plan_of exec.now left_built (codes_of K.code (L.list list.now))) }
    ensures let_in { IfOk result (λ r. (part : ℕ) → part < r.1.parts → G.lets_in gate.now part) }
{
    let (parts, sizes) = planned_tables(rt, alloc, list, exec, gate)?;
    let built = Built {
        parts: parts.len() as u32,
        sizes,
        left_built,
    };
    let tables = Tables {
        parts,
        built_len: list.len(),
        join_nulls,
        left_built,
    };
    Ok((tables, built))
}

/// The tables of the keys of a list, which are of the left side or of the right one, in one part: without a thread, and
/// without a gate.
///
/// # Errors
///
/// `OutOfMemory` where memory is wanting.
pub fn one_part_tables<K: KeyCode, L: KeyList<K>>(
    alloc: Global,
    list: &L,
    join_nulls: bool,
    left_built: bool,
) -> Result<Tables<K>, OutOfMemory>
    requires { length (L.list list.now) ≤ MAX_ROWS }
    ensures table { IfOk result (IsTableOf K.eq K.code (L.list list.now)) }
    ensures nulls { IfOk result (λ t. t.join_nulls ≡ join_nulls) }
    ensures side { IfOk result (λ t. t.left_built ≡ left_built) }
{
    let (parts, _) = one_table(alloc, list)?;
    let tables = Tables {
        parts,
        built_len: list.len(),
        join_nulls,
        left_built,
    };
    Ok(tables)
}

/// The tables of these keys, which are of the left side or of the right one, and how they were built: in one part
/// where they are fewer than `exec.small()`, else in as many as there are partitions, side by side.
pub fn build_tables<K: JoinKey, G: Gate>(
    rt: &(impl Threads + Sync),
    alloc: Global,
    keys: &[Option<K>],
    join_nulls: bool,
    left_built: bool,
    exec: &Exec,
    gate: &G,
) -> Result<(Tables<K>, Built), OutOfMemory>
    requires { length keys.now ≤ MAX_ROWS }
    ensures table { IfOk result (λ r. IsTableOf K.eq K.code keys.now r.0) }
    ensures parted { IfOk result (λ r. IsParted K.eq K.code keys.now r.1.parts r.0) }
    ensures nulls { IfOk result (λ r. r.0.join_nulls ≡ join_nulls) }
    ensures side { IfOk result (λ r. r.0.left_built ≡ left_built) }
    ensures built { IfOk result (λ r.
        r.1 ≡ plan_of exec.now left_built (codes_of K.code keys.now)) }
    ensures let_in { IfOk result (λ r. (part : ℕ) → part < r.1.parts → G.lets_in gate.now part) }
{
    let list = SliceKeys { keys };
    listed_tables(rt, alloc, &list, join_nulls, left_built, exec, gate)
}
