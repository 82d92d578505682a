//! Parts that are claimed by a seat and by workers.
ghost use Rattle.std.specs.Prelude.{◌≡◌};
ghost use Rattle.tb_pool.specs.Running.{IsSeatOf};

use crate::workers::Squares;
use std::alloc::Global;
use std::process::Abort;
use std::test::Fail;
use std::thread::Threads;
use tb_pool::{ClaimSeat, Claims, Exec, OpenGate, run_parts};

// The number that the seat draws next, where it is a part. A seat that is past draws none.
fn drawn(claims: &Claims, seat: &mut ClaimSeat) -> Option<u32>
    requires { IsSeatOf claims.now seat.old }
    ensures seat { IsSeatOf claims.now seat.new }
    ensures weight { seat.new.weight ≡ seat.old.weight }
{
    if seat.is_past() {
        None
    } else {
        claims.claim(seat)
    }
}

#[test]
fn one_seat_draws_three_parts_and_one_number_more(rt: HostRuntime) -> Result<(), Fail> {
    let (claims, mut seat) = Claims::new(rt.alloc(), 3)?;
    assert_eq!(rt; drawn(&claims, &mut seat), Some(0));
    assert_eq!(rt; drawn(&claims, &mut seat), Some(1));
    assert_eq!(rt; drawn(&claims, &mut seat), Some(2));
    assert_eq!(rt; drawn(&claims, &mut seat), None);
    assert!(rt; seat.is_past());
    assert_eq!(rt; claims.close(seat), 4);
    Ok(())
}

// Three parts by three workers, of whom each has claimed some.
fn check_three_parts(rt: &(impl Threads + Abort + Sync), alloc: Global) -> Result<(), Fail> {
    let exec = Exec::new(3, 1, 0, 1, 1)?;
    let done = run_parts(rt, alloc, &exec, 3, &Squares, &OpenGate)?;
    assert_eq!(rt; done.results(), [0u64, 1, 4].as_slice());
    let (first, second, third) = (done.claimed(0), done.claimed(1), done.claimed(2));
    let claimed = first.len().saturating_add(second.len());
    assert_eq!(rt; claimed.saturating_add(third.len()), 3);
    Ok(())
}

#[test]
fn three_workers_claim_each_part_once(rt: HostRuntime) -> Result<(), Fail> {
    check_three_parts(&rt, rt.alloc())
}
