//! Workers that claim parts, side by side.
ghost use Rattle.std.specs.Prelude.{◌≡◌, ℕ, ◌+◌, ◌-◌, ◌<◌, ◌≤◌, [], ◌∷◌, ◌++◌, true, false, IfOk, MatchResult, All, length, sum_by};
ghost use Rattle.std.specs.Thread.{IsSync};
ghost use denote.Param.Send.{IsSend};
ghost use Rattle.tb_pool.specs.Running.{ClaimsView, SeatView, IsSeatOf};
ghost use Rattle.tb_pool.specs.Workers.{IsReady, IsLetIn, HasWorked, PlaceByPlace};

use crate::claims::{ClaimSeat, Claims};
use crate::parts::{Gate, Parts};
use std::alloc::Global;
use std::thread::{Threads, join_mut};
use tb_value::OutOfMemory;

/// One worker: its seat, the parts that it claimed, their results, and whether it stopped for want of memory.
#[derive(Drop)]
pub struct Worker<O> {
    pub(crate) seat: ClaimSeat,
    pub(crate) claimed: Vec<u32>,
    pub(crate) results: Vec<(u32, O)>,
    pub(crate) wanting: bool,
}

// Runs one part, and notes it with its result.
fn run_part<P: Parts, G: Gate>(
    work: &P,
    gate: &G,
    part: u32,
    claimed: &mut Vec<u32>,
    results: &mut Vec<(u32, P::Out)>,
) -> Result<(), OutOfMemory>
    requires { G.lets_in gate.now part → P.may_run work.now part }
    ensures { IfOk result (λ _. (claimed.new.items ≡ claimed.old.items ++ part ∷ [])
        × ((out : P.Out) × IsLetIn (G.lets_in gate.now) (P.gives work.now) part out
        × (results.new.items ≡ results.old.items ++ (part, out) ∷ []))) }
{
    gate.enter(part);
    let out = work.run(part)?;
    claimed.push(part)?;
    results.push((part, out))?;
    Ok(())
}

// Claims parts until a claim answers None.
fn claim_parts<P: Parts, G: Gate>(claims: &Claims, work: &P, gate: &G, worker: &mut Worker<P::Out>)
    requires ready { IsReady claims.now worker.old }
    requires may_run { (part : ℕ) → part < claims.now.bound → G.lets_in gate.now part
        → P.may_run work.now part }
    ensures { HasWorked (IsLetIn (G.lets_in gate.now) (P.gives work.now)) claims.now worker.old
        worker.new }
{
    while let Some(part) = claims.claim(&mut worker.seat) {
        match run_part(work, gate, part, &mut worker.claimed, &mut worker.results) {
            Ok(()) => {}
            Err(_) => {
                worker.wanting = true;
                return;
            }
        }
    }
}

// All workers, halved again and again, side by side.
#[cycle(halves)]
pub(crate) fn run_workers<R: Threads + Sync, O: Send + Drop, P: Parts<Out = O>, G: Gate>(
    rt: &R,
    claims: &Claims,
    work: &P,
    gate: &G,
    workers: &mut [Worker<O>],
)
    requires ready { All (IsReady claims.now) workers.old }
    requires may_run { (part : ℕ) → part < claims.now.bound → G.lets_in gate.now part
        → P.may_run work.now part }
    ensures { PlaceByPlace (HasWorked (IsLetIn (G.lets_in gate.now) (P.gives work.now)) claims.now)
        workers.old workers.new }
{
    if workers.len() == 0 {
        return;
    }
    if workers.len() == 1 {
        claim_parts(claims, work, gate, &mut workers[0]);
        return;
    }
    let (front, back) = workers.split_at_mut(workers.len() / 2);
    run_halves(rt, claims, work, gate, front, back);
}

#[cycle(halves)]
fn run_halves<R: Threads + Sync, O: Send + Drop, P: Parts<Out = O>, G: Gate>(
    rt: &R,
    claims: &Claims,
    work: &P,
    gate: &G,
    a: &mut [Worker<O>],
    b: &mut [Worker<O>],
)
    requires some { (0 < length a.old) × (0 < length b.old) }
    requires front { All (IsReady claims.now) a.old }
    requires back { All (IsReady claims.now) b.old }
    requires may_run { (part : ℕ) → part < claims.now.bound → G.lets_in gate.now part
        → P.may_run work.now part }
    ensures front { PlaceByPlace
        (HasWorked (IsLetIn (G.lets_in gate.now) (P.gives work.now)) claims.now) a.old a.new }
    ensures back { PlaceByPlace
        (HasWorked (IsLetIn (G.lets_in gate.now) (P.gives work.now)) claims.now) b.old b.new }
{
    let mut front = ||
        requires { IsSync R.row × IsSync P.row × IsSync G.row × IsSend O.row × All (IsReady claims.now) a.now
            × ((part : ℕ) → part < claims.now.bound → G.lets_in gate.now part → P.may_run work.now part) }
        ensures { PlaceByPlace
            (HasWorked (IsLetIn (G.lets_in gate.entry.now) (P.gives work.entry.now))
            claims.entry.now)
            a.entry.now a.exit.now }
    { run_workers(rt, claims, work, gate, a) };
    let mut back = ||
        requires { IsSync R.row × IsSync P.row × IsSync G.row × IsSend O.row × All (IsReady claims.now) b.now
            × ((part : ℕ) → part < claims.now.bound → G.lets_in gate.now part → P.may_run work.now part) }
        ensures { PlaceByPlace
            (HasWorked (IsLetIn (G.lets_in gate.entry.now) (P.gives work.entry.now))
            claims.entry.now)
            b.entry.now b.exit.now }
    { run_workers(rt, claims, work, gate, b) };
    join_mut(rt, &mut front, &mut back);
}

fn new_worker<O>(alloc: Global, seat: ClaimSeat) -> Worker<O>
    ensures { (result.seat ≡ seat) × (result.claimed.items ≡ []) × (result.results.items ≡ [])
        × (result.wanting ≡ false) }
{
    Worker {
        seat,
        claimed: Vec::new(alloc),
        results: Vec::new(alloc),
        wanting: false,
    }
}

// A record for each worker: the first has the opening seat, and the others have seats that are split from it.
pub(crate) fn seat_workers<O: Drop>(
    alloc: Global,
    claims: &Claims,
    mut first: ClaimSeat,
    count: u32,
) -> Result<Vec<Worker<O>>, OutOfMemory>
    requires opening { IsSeatOf claims.now first × (first.drawn ≡ []) × (first.weight ≡ 1024) }
    requires count { (1 ≤ count) × (count ≤ 1024) }
    ensures { IfOk result (λ v. (length v.items ≡ count) × All (IsReady claims.now) v.items
        × (sum_by (λ w. w.seat.weight) v.items ≡ 1024)) }
{
    let mut workers = Vec::new(alloc);
    for _i in 1..count {
        let seat = claims.split(&mut first);
        workers.push(new_worker(alloc, seat))?;
    }
    workers.insert(0, new_worker(alloc, first))?;
    Ok(workers)
}
