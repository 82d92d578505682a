//! Rows that fall into parts, each of which is grouped as a part of one phase.
ghost use Rattle.std.specs.Prelude.{◌≡◌, ℕ, ◌+◌, ◌-◌, ◌<◌, ◌≤◌, IfOk, length, map, slice_index_or};
ghost use Rattle.std.specs.List.{All, filter_map};
ghost use Rattle.tb_value.specs.Promise.Pairs.{row_numbers};
ghost use Rattle.tb_value.specs.declared.limits.TheConstants.{MAX_ROWS};
ghost use Rattle.tb_chunk.specs.Lent.{lent_columns};
ghost use Rattle.tb_chunk.specs.Promise.Col.{values};
ghost use Rattle.tb_frame.specs.Promise.Table.{table_of};
ghost use Rattle.tb_rowkey.specs.Promise.Columns.{row_count};
ghost use Rattle.tb_build.specs.Plan.{part_start, scattered_rows};
ghost use Rattle.tb_group.specs.Asked.{asked_list};
ghost use Rattle.tb_group.specs.Codes.{codes_by};
ghost use Rattle.tb_group.specs.Parts.{group_count, lent_test, shown_part};
ghost use Rattle.tb_group.specs.Trace.{lengths_between, part_views, trace_by};

use crate::codes::key_codes;
use crate::lookup::AskedColumn;
use crate::part::{Grouping, PartGroups};
use std::alloc::Global;
use std::marker::Model;
use std::thread::Threads;
use tb_build::{run_phase, scatter};
use tb_pool::{Exec, Gate};
use tb_store::Series;
use tb_value::{IdxSize, MAX_ROWS, OutOfMemory};

/// Into how many parts the rows fell, and how many rows and how many keys each has. A call that groups hands it out, and
/// no other makes one.
#[derive(Drop)]
pub struct Grouped {
    parts: u32,
    sizes: Vec<usize>,
    groups: Vec<usize>,
}

impl Model for Grouped {
    ghost use Rattle.tb_group.specs.Promise.Keys.{GroupedView};

    ghost Value = { GroupedView };

    ghost view = { λ g. record { parts = g.parts; sizes = g.sizes.items; groups = g.groups.items } };
}

impl Grouped {
    /// The number of parts.
    pub fn parts(&self) -> u32
        ensures { result ≡ self.now.parts }
    {
        self.parts
    }

    /// The number of rows of each part.
    pub fn sizes(&self) -> &[usize]
        ensures { result.now ≡ self.now.sizes }
    {
        &self.sizes
    }

    /// The number of keys of each part.
    pub fn groups(&self) -> &[usize]
        ensures { result.now ≡ self.now.groups }
    {
        &self.groups
    }
}

// How long the pieces are that begin at these places, with the end of the last.
fn lengths_between(alloc: Global, starts: &[usize]) -> Result<Vec<usize>, OutOfMemory>
    requires some { 1 ≤ length starts.now }
    requires ordered { (p : ℕ) → p + 1 < length starts.now
        → slice_index_or starts.now p 0 ≤ slice_index_or starts.now (p + 1) 0 }
    ensures { IfOk result (λ v. v.items ≡ lengths_between starts.now) }
{
    let mut lengths = Vec::with_capacity(alloc, starts.len())?;
    for place in 0..starts.len() - 1 {
        lengths.push(starts[place + 1] - starts[place])?;
    }
    Ok(lengths)
}

// How many groups a part has.
fn group_count(part: &Option<PartGroups>) -> usize
    ensures { result ≡ group_count part.now }
{
    match part {
        Some(groups) => groups.firsts().len(),
        None => 0,
    }
}

// How many groups each part has.
fn group_counts(alloc: Global, parts: &[Option<PartGroups>]) -> Result<Vec<usize>, OutOfMemory>
    ensures { IfOk result (λ v. v.items ≡ map group_count parts.now) }
{
    let mut counts = Vec::with_capacity(alloc, parts.len())?;
    for part in parts {
        counts.push(group_count(part))?;
    }
    Ok(counts)
}

// What the parts give that have work.
fn with_work(alloc: Global, parts: Vec<Option<PartGroups>>) -> Result<Vec<PartGroups>, OutOfMemory>
    ensures { IfOk result (λ v. v.items ≡ filter_map (λ p. p) parts.items) }
{
    let mut given = Vec::with_capacity(alloc, parts.len())?;
    for part in parts {
        if let Some(groups) = part {
            given.push(groups)?;
        }
    }
    Ok(given)
}

// The rows in the order of the parts into which their keys fall, and where each part begins, with the end of all.
fn scattered<G: Gate>(
    rt: &(impl Threads + Sync),
    alloc: Global,
    by: &[&Series],
    exec: &Exec,
    gate: &G,
) -> Result<(Vec<IdxSize>, Vec<usize>), OutOfMemory>
    requires some { 0 < length by.now }
    requires rows { All (λ c. length (values c) ≡ row_count (lent_columns by.now))
        (lent_columns by.now) }
    requires few { row_count (lent_columns by.now) ≤ MAX_ROWS }
    ensures idxs { IfOk result (λ r.
        r.0.items
        ≡ scattered_rows
        (codes_by (table_of (lent_columns by.now)) (row_count (lent_columns by.now)))
        exec.now.partitions) }
    ensures starts { IfOk result (λ r.
        r.1.items
        ≡ map
        (part_start
        (codes_by (table_of (lent_columns by.now)) (row_count (lent_columns by.now)))
        exec.now.partitions)
        (row_numbers (exec.now.partitions + 1))) }
{
    let codes = key_codes(alloc, by)?;
    let scatter = scatter(rt, alloc, &codes, exec, gate)?;
    Ok((scatter.idxs, scatter.starts))
}

/// The groups of the rows of each part that has work, and what is told of all parts. There are as many parts as partitions
/// of `exec`, however few rows there are, and the gate has let each in.
pub(crate) fn grouped_parts<G: Gate>(
    rt: &(impl Threads + Sync),
    alloc: Global,
    by: &[&Series],
    asked: &[AskedColumn<'_>],
    exec: &Exec,
    gate: &G,
) -> Result<(Vec<PartGroups>, Grouped), OutOfMemory>
    requires some { 0 < length by.now }
    requires rows { All (λ c. length (values c) ≡ row_count (lent_columns by.now))
        (lent_columns by.now) }
    requires few { row_count (lent_columns by.now) ≤ MAX_ROWS }
    requires sources { All (λ a. length (values a.column.now) ≡ row_count (lent_columns by.now))
        asked.now }
    ensures parts { IfOk result (λ r.
        map shown_part r.0.items
        ≡ part_views (lent_test by.now) (asked_list asked.now)
        (codes_by (table_of (lent_columns by.now)) (row_count (lent_columns by.now)))
        exec.now.partitions) }
    ensures traced { IfOk result (λ r.
        r.1
        ≡ trace_by (lent_test by.now)
        (codes_by (table_of (lent_columns by.now)) (row_count (lent_columns by.now)))
        exec.now.partitions) }
    ensures some { IfOk result (λ _. 1 ≤ exec.now.partitions) }
    ensures let_in { IfOk result (λ _.
        (part : ℕ) → part < exec.now.partitions → G.lets_in gate.now part) }
{
    let (idxs, starts) = scattered(rt, alloc, by, exec, gate)?;
    let parts = exec.partitions();
    let work = Grouping {
        alloc,
        by,
        asked,
        idxs: idxs.as_slice(),
        starts: starts.as_slice(),
    };
    let done = run_phase(rt, alloc, exec, parts, &work, gate)?;
    let sizes = lengths_between(alloc, &starts)?;
    let groups = group_counts(alloc, &done)?;
    let given = with_work(alloc, done)?;
    let trace = Grouped {
        parts,
        sizes,
        groups,
    };
    Ok((given, trace))
}
