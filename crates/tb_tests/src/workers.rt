//! What no contract says of workers: that they enter at once, and that one takes what another leaves.
use std::alloc::Global;
use std::sync::atomic::{AtomicU64, Ordering};
use std::test::Fail;
use std::thread::Threads;
use tb_pool::{Exec, Gate, Parts, run_parts};
use tb_value::OutOfMemory;

// The square of each part's number.
#[derive(Drop)]
pub(crate) struct Squares;

impl Parts for Squares {
    ghost use Rattle.std.specs.Prelude.{◌≡◌, ◌*◌};

    type Out = u64;

    ghost may_run = { λ _ _. Unit {0} };

    ghost gives = { λ _ part out. out ≡ part * part };

    fn run(&self, part: u32) -> Result<u64, OutOfMemory> {
        let n = u64::from(part);
        Ok(n * n)
    }
}

// Holds the first `held` that enter until `all` have entered, and notes where these don't come.
#[derive(Drop)]
struct Holding {
    held: u64,
    all: u64,
    entered: AtomicU64,
    late: AtomicU64,
}

// Some seconds: on a busy machine a worker may come late, and only one that never comes is to be told.
const TURNS: u64 = 4_000_000_000;

impl Gate for Holding {
    ghost lets_in = { λ _ _. Unit {0} };

    fn enter(&self, _part: u32) {
        if self.entered.fetch_add(1, Ordering::SeqCst) >= self.held {
            return;
        }
        for _ in 0..TURNS {
            if self.entered.load(Ordering::SeqCst) == self.all {
                return;
            }
        }
        self.late.store(1, Ordering::SeqCst);
    }
}

// Two workers do so many parts behind the gate, and bring back so many results.
fn by_two(
    rt: &(impl Threads + Sync),
    alloc: Global,
    parts: u32,
    gate: &Holding,
) -> Result<usize, Fail> {
    let exec = Exec::new(2, 1, 0, 1, 1)?;
    let done = run_parts(rt, alloc, &exec, parts, &Squares, gate)?;
    Ok(done.results().len())
}

// Whether all of so many parts enter in time, of which so many are held until all have entered.
fn all_enter(
    rt: &(impl Threads + Sync),
    alloc: Global,
    parts: u32,
    held: u64,
) -> Result<bool, Fail> {
    let gate = Holding {
        held,
        all: u64::from(parts),
        entered: AtomicU64::new(0),
        late: AtomicU64::new(0),
    };
    let results = by_two(rt, alloc, parts, &gate)?;
    let entered = gate.entered.load(Ordering::SeqCst);
    let late = gate.late.load(Ordering::SeqCst);
    Ok(results as u64 == gate.all && entered == gate.all && late == 0)
}

// Two workers wait for each other, and one takes what the other leaves.
#[test]
fn two_workers_at_once_and_in_turn(rt: HostRuntime) -> Result<(), Fail> {
    for (parts, held) in [(2, 2), (8, 1)] {
        assert!(rt; all_enter(&rt, rt.alloc(), parts, held)?);
    }
    Ok(())
}
