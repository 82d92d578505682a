//! Runs all parts of some work.
ghost use Rattle.std.specs.Prelude.{◌≡◌, ℕ, ◌<◌, IfOk};
ghost use Rattle.tb_pool.specs.Gathering.{IsDone};

use crate::claims::Claims;
use crate::exec::Exec;
use crate::gather::{Done, gather};
use crate::parts::{Gate, Parts};
use crate::workers::{run_workers, seat_workers};
use std::alloc::Global;
use std::thread::Threads;
use tb_value::OutOfMemory;

/// Runs each part below `n` once, when the gate has let it in, by as many workers as `exec` has, each of which claims
/// parts, ascending, until none is left. Nothing more is said of which worker claims which part. Where a part or the
/// calls around it want memory, the answer is OutOfMemory, and parts may be left.
pub fn run_parts<P: Parts, G: Gate>(
    rt: &(impl Threads + Sync),
    alloc: Global,
    exec: &Exec,
    n: u32,
    work: &P,
    gate: &G,
) -> Result<Done<P::Out>, OutOfMemory>
    requires { (part : ℕ) → part < n → G.lets_in gate.now part → P.may_run work.now part }
    ensures done { IfOk result (λ d. IsDone (P.gives work.now) n exec.now.workers d) }
    ensures let_in { IfOk result (λ _. (part : ℕ) → part < n → G.lets_in gate.now part) }
{
    let (claims, first) = Claims::new(alloc, n)?;
    let mut workers = seat_workers(alloc, &claims, first, exec.workers())?;
    run_workers(rt, &claims, work, gate, workers.as_mut_slice());
    gather(alloc, work, gate, claims, workers, n)
}
