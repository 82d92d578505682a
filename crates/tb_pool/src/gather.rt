//! What the workers bring back, put together.
ghost use Rattle.std.specs.Prelude.{◌≡◌, ℕ, ◌+◌, ◌<◌, ◌≤◌, [], ◌∷◌, ◌++◌, true, false, IfOk, All, length, map, sum_by, slice_index_or, replicate, slice_set, None, Some};
ghost use Rattle.std.specs.List.{Contains};
ghost use Rattle.tb_pool.specs.Core.{times, once_below};
ghost use Rattle.tb_pool.specs.Running.{ClaimsView, SeatView, IsSeatOf};
ghost use Rattle.tb_pool.specs.Workers.{HasStopped, HasEnded, IsLetIn};
ghost use Rattle.tb_pool.specs.Gathering.{Ascend, IsGathered, IsDone, ArePlaced, AreInOrder};

use crate::claims::{ClaimSeat, Claims};
use crate::parts::{Gate, Parts};
use crate::workers::Worker;
use std::alloc::Global;
use std::marker::Model;
use tb_value::OutOfMemory;

/// The results of all parts, in part order, and which worker claimed which parts.
#[derive(Drop)]
pub struct Done<O> {
    results: Vec<O>,
    claimed: Vec<Vec<u32>>,
}

impl<O> Model for Done<O> {
    ghost use Rattle.std.specs.Prelude.{map};
    ghost use Rattle.tb_pool.specs.DoneView.{DoneView};

    ghost Value = { DoneView O };

    ghost view = { λ d. record { results = d.results.items; claimed = map (λ v. v.items) d.claimed.items } };
}

impl<O> Done<O> {
    /// The results in part order.
    pub fn results(&self) -> &[O]
        ensures { result.now ≡ self.now.results }
    {
        self.results.as_slice()
    }

    /// The results in part order, handed out.
    pub fn into_results(self) -> Vec<O>
        ensures { result.items ≡ self.results }
    {
        let Done {
            results,
            claimed: _,
        } = self;
        results
    }

    /// The parts that one worker claimed, in the order in which it did. Workers count from 0.
    pub fn claimed(&self, worker: usize) -> &[u32]
        requires { worker < length self.now.claimed }
        ensures { result.now ≡ slice_index_or self.now.claimed worker [] }
    {
        self.claimed[worker].as_slice()
    }
}

// The seats of the workers so far as one seat, their lists, and each part with its result.
#[derive(Drop)]
struct Gathered<O> {
    seat: ClaimSeat,
    lists: Vec<Vec<u32>>,
    found: Vec<(u32, O)>,
}

// Takes one more worker in.
fn take_in<P: Parts, G: Gate>(
    work: &P,
    gate: &G,
    claims: &Claims,
    all: Gathered<P::Out>,
    worker: Worker<P::Out>,
) -> Result<Gathered<P::Out>, OutOfMemory>
    requires all { IsGathered (IsLetIn (G.lets_in gate.now) (P.gives work.now)) claims.now all.seat
        (map (λ v. v.items) all.lists.items) all.found.items }
    requires worker { HasStopped (IsLetIn (G.lets_in gate.now) (P.gives work.now)) claims.now
        worker }
    ensures gathered { IfOk result (λ g. IsGathered (IsLetIn (G.lets_in gate.now) (P.gives work.now)) claims.now g.seat
        (map (λ v. v.items) g.lists.items) g.found.items) }
    ensures weight { IfOk result (λ g. g.seat.weight ≡ all.seat.weight + worker.seat.weight) }
    ensures lists { IfOk result (λ g. g.lists.items ≡ all.lists.items ++ worker.claimed ∷ []) }
{
    let _ = work;
    let _ = gate;
    let Worker {
        seat: theirs,
        claimed,
        mut results,
        wanting,
    } = worker;
    if wanting {
        return Err(OutOfMemory);
    }
    let Gathered {
        mut seat,
        mut lists,
        mut found,
    } = all;
    claims.join(&mut seat, theirs);
    lists.push(claimed)?;
    found.append(&mut results)?;
    Ok(Gathered { seat, lists, found })
}

// The first worker's part.
fn begin<P: Parts, G: Gate>(
    alloc: Global,
    work: &P,
    gate: &G,
    claims: &Claims,
    worker: Worker<P::Out>,
) -> Result<Gathered<P::Out>, OutOfMemory>
    requires { HasStopped (IsLetIn (G.lets_in gate.now) (P.gives work.now)) claims.now worker }
    ensures gathered { IfOk result (λ g. IsGathered (IsLetIn (G.lets_in gate.now) (P.gives work.now)) claims.now g.seat
        (map (λ v. v.items) g.lists.items) g.found.items) }
    ensures weight { IfOk result (λ g. g.seat.weight ≡ worker.seat.weight) }
    ensures lists { IfOk result (λ g. g.lists.items ≡ worker.claimed ∷ []) }
{
    let _ = work;
    let _ = gate;
    let _ = claims;
    let Worker {
        seat,
        claimed,
        results,
        wanting,
    } = worker;
    if wanting {
        return Err(OutOfMemory);
    }
    let mut lists = Vec::new(alloc);
    lists.push(claimed)?;
    Ok(Gathered {
        seat,
        lists,
        found: results,
    })
}

// Joins all seats into the first, in worker order, and closes the claims.
fn close_all<P: Parts, G: Gate>(
    alloc: Global,
    work: &P,
    gate: &G,
    claims: Claims,
    mut workers: Vec<Worker<P::Out>>,
) -> Result<(Vec<Vec<u32>>, Vec<(u32, P::Out)>), OutOfMemory>
    requires some { 0 < length workers.items }
    requires stopped { All (HasStopped (IsLetIn (G.lets_in gate.now) (P.gives work.now)) claims)
        workers.items }
    requires weights { sum_by (λ w. w.seat.weight) workers.items ≡ 1024 }
    ensures lists { IfOk result (λ r. r.0.items ≡ map (λ w. w.claimed) workers.items) }
    ensures ascend { IfOk result (λ r. All Ascend (map (λ v. v.items) r.0.items)) }
    ensures given { IfOk result (λ r.
        All (λ p. IsLetIn (G.lets_in gate.now) (P.gives work.now) p.0 p.1) r.1.items) }
    ensures found { IfOk result (λ r.
        (x : ℕ) → times x (map (λ p. p.0) r.1.items) ≡ once_below x claims.bound) }
    ensures claimed { IfOk result (λ r. (x : ℕ) →
        sum_by (λ l. times x l) (map (λ v. v.items) r.0.items) ≡ once_below x claims.bound) }
{
    let first = workers.remove(0);
    let mut all = begin(alloc, work, gate, &claims, first)?;
    for worker in workers {
        all = take_in(work, gate, &claims, all, worker)?;
    }
    let Gathered { seat, lists, found } = all;
    claims.close(seat);
    Ok((lists, found))
}

// A place for each part, empty.
fn empty_places<O: Drop>(alloc: Global, n: u32) -> Result<Vec<Option<O>>, OutOfMemory>
    ensures { IfOk result (λ v. v.items ≡ replicate n None) }
{
    let mut places = Vec::new(alloc);
    for _ in 0..n {
        places.push(None)?;
    }
    Ok(places)
}

fn put<O: Drop>(places: &mut Vec<Option<O>>, at: usize, out: O)
    requires { at < length places.old.items }
    ensures { places.new.items ≡ slice_set places.old.items at (Some out) }
{
    places[at] = Some(out);
}

// Each result at the place of its part.
fn placed<O: Drop>(
    alloc: Global,
    n: u32,
    found: Vec<(u32, O)>,
) -> Result<Vec<Option<O>>, OutOfMemory>
    requires { (x : ℕ) → times x (map (λ p. p.0) found.items) ≡ once_below x n }
    ensures { IfOk result (λ v. ArePlaced n found.items v.items) }
{
    let mut places = empty_places(alloc, n)?;
    for (part, out) in found {
        put(&mut places, part as usize, out);
    }
    Ok(places)
}

// The results in part order.
fn in_order<O: Drop>(alloc: Global, n: u32, found: Vec<(u32, O)>) -> Result<Vec<O>, OutOfMemory>
    requires { (x : ℕ) → times x (map (λ p. p.0) found.items) ≡ once_below x n }
    ensures { IfOk result (λ v. AreInOrder n found.items v.items) }
{
    let mut results = Vec::new(alloc);
    for place in placed(alloc, n, found)? {
        match place {
            Some(out) => results.push(out)?,
            None => unreachable!(),
        }
    }
    Ok(results)
}

/// All workers' parts, the list of each at its place, and their results, where no worker met want of memory.
pub(crate) fn gather<P: Parts, G: Gate>(
    alloc: Global,
    work: &P,
    gate: &G,
    claims: Claims,
    workers: Vec<Worker<P::Out>>,
    n: u32,
) -> Result<Done<P::Out>, OutOfMemory>
    requires bound { n ≡ claims.bound }
    requires some { 0 < length workers.items }
    requires stopped { All (HasStopped (IsLetIn (G.lets_in gate.now) (P.gives work.now)) claims)
        workers.items }
    requires weights { sum_by (λ w. w.seat.weight) workers.items ≡ 1024 }
    ensures done { IfOk result (λ d.
        IsDone (IsLetIn (G.lets_in gate.now) (P.gives work.now)) n (length workers.items) d) }
    ensures lists { IfOk result (λ d. d.claimed ≡ map (λ w. w.claimed.items) workers.items) }
{
    let (claimed, found) = close_all(alloc, work, gate, claims, workers)?;
    let results = in_order(alloc, n, found)?;
    Ok(Done { results, claimed })
}
