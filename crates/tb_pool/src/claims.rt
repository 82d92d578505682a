//! The running claims: one word, from which seats draw numbers.
ghost use Rattle.std.specs.Prelude.{◌≡◌, ℕ, ◌+◌, ◌-◌, ◌<◌, ◌≤◌, [], ◌∷◌, ◌++◌, nat_lt, IfOk, IsTrue, ◌↔◌, MatchOption, All};
ghost use Rattle.std.specs.List.{range_with_len};
ghost use Rattle.std.specs.List.Sorted.{IsPermutation};
ghost use Rattle.tb_pool.specs.Core.{seat_with, late_count, once_below, times, IsPast};
ghost use Rattle.tb_pool.specs.Running.{SeatView, ClaimsView, IsSeatOf};

use crate::seat::Seat;
use atomic_table::{Join, Play, Seat as TableSeat, Split, Table, TableRule};
use std::alloc::Global;
use std::marker::Model;
use tb_value::OutOfMemory;

// The table's rule: its word is the number that is drawn next. Its key is the number of parts.
struct Counter;

impl TableRule<(), Seat, u32> for Counter {
    ghost use Rattle.tb_pool.specs.Core.{seat_with};
    ghost use Rattle.tb_pool.specs.Running.{WordRule};

    ghost holds = { WordRule };

    ghost first = { λ _. seat_with [] 1024 };
}

// The step of `claim`: the seat draws the number that the word holds.
struct Draw;

impl Play<(), Seat> for Draw {
    ghost use Rattle.tb_pool.specs.Running.{Drew};

    ghost then = { λ _. Drew };
}

// The step of `split`: a seat gives a weight of 1 to a new one.
struct SplitOff;

impl Split<Seat> for SplitOff {
    ghost use Rattle.tb_pool.specs.Running.{lighter_seat};
    ghost use Rattle.tb_pool.specs.Core.{seat_with};

    ghost left = { lighter_seat };

    ghost right = { λ _. seat_with [] 1 };
}

// The step of `join`: a seat takes another in, which is spent.
struct TakeIn;

impl Join<Seat> for TakeIn {
    ghost use Rattle.tb_pool.specs.Running.{joined_seat};
    ghost use Rattle.tb_pool.specs.Core.{seat_with};

    ghost both = { joined_seat };

    ghost spent = { seat_with [] 0 };
}

/// One word, from which seats draw the numbers 0, 1, 2 and so on, each once. Those below the bound are parts.
#[derive(Drop)]
pub struct Claims {
    table: Table<(), Seat, u32, Counter, Global>,
    bound: u32,
}

impl Model for Claims {
    ghost use Rattle.std.specs.Prelude.{◌≡◌};
    ghost use Rattle.tb_pool.specs.Running.{ClaimsView};

    ghost Value = { ClaimsView };

    ghost view = { λ c. record { of = c.table.shared.table_id; bound = c.bound } };

    ghost invariant = { λ c. (c.table.shared.table_id.words ≡ 1) × (c.table.shared.table_id.slots ≡ 0)
        × (c.table.shared.key ≡ c.bound) };
}

/// The right to draw from one `Claims`: a list of drawn numbers, and a weight, which bounds how many more seats may be
/// split off.
#[derive(Drop)]
pub struct ClaimSeat {
    seat: TableSeat<(), Seat>,
    bound: u32,
    past: bool,
}

impl Model for ClaimSeat {
    ghost use Rattle.std.specs.Prelude.{◌≡◌, ◌<◌, [], nat_lt};
    ghost use Rattle.tb_pool.specs.Running.{SeatView};
    ghost use Rattle.tb_pool.specs.Core.{late_count};

    ghost Value = { SeatView };

    ghost view = { λ s. record {
      of = s.seat.table_id;
      bound = s.bound;
      drawn = s.seat.me.0.drawn;
      weight = s.seat.me.0.weight;
    } };

    ghost invariant = { λ s. (s.seat.me.1 ≡ []) × (0 < s.seat.me.0.weight)
        × (s.past ≡ nat_lt 0 (late_count s.bound s.seat.me.0.drawn)) };
}

impl Claims {
    /// Claims of `n` parts, with the seat that has all the weight. The word is 0, and nothing is drawn.
    pub fn new(alloc: Global, n: u32) -> Result<(Claims, ClaimSeat), OutOfMemory>
        ensures bound { IfOk result (λ c. c.0.bound ≡ n) }
        ensures opening { IfOk result (λ c.
            IsSeatOf c.0 c.1 × (c.1.drawn ≡ []) × (c.1.weight ≡ 1024)) }
    {
        let (table, seat) = Table::of_words(alloc, &[0], &n)?;
        let claims = Claims { table, bound: n };
        let seat = ClaimSeat {
            seat,
            bound: n,
            past: false,
        };
        Ok((claims, seat))
    }

    /// A new seat, which has drawn nothing, with a weight of 1 that is taken from the seat.
    pub fn split(&self, seat: &mut ClaimSeat) -> ClaimSeat
        requires own { IsSeatOf self.now seat.old }
        requires early { ¬ (IsPast self.now.bound seat.old.drawn) }
        requires heavy { 2 ≤ seat.old.weight }
        ensures kept { IsSeatOf self.now seat.new × (seat.new.drawn ≡ seat.old.drawn)
            × (seat.new.weight ≡ seat.old.weight - 1) }
        ensures given { IsSeatOf self.now result × (result.drawn ≡ []) × (result.weight ≡ 1) }
    {
        let other = self.table.shared.split_seat::<SplitOff>(&mut seat.seat);
        ClaimSeat {
            seat: other,
            bound: self.bound,
            past: false,
        }
    }

    /// Draws the next number, by one atomic step. It is greater than each that the seat has drawn, and goes behind
    /// them. The answer is the number where it is a part, and None exactly where it is at least the bound.
    pub fn claim(&self, seat: &mut ClaimSeat) -> Option<u32>
        requires own { IsSeatOf self.now seat.old }
        requires early { ¬ (IsPast self.now.bound seat.old.drawn) }
        ensures own { IsSeatOf self.now seat.new × (seat.new.weight ≡ seat.old.weight) }
        ensures drawn { (x : ℕ) × (seat.new.drawn ≡ seat.old.drawn ++ x ∷ []) × All (λ y. y < x) seat.old.drawn
            × MatchOption result (self.now.bound ≤ x) (λ r. (r ≡ x) × (x < self.now.bound)) }
    {
        let found = self.table.shared.fetch_add::<Draw>(&mut seat.seat, 0, 1);
        if found < u64::from(self.bound) {
            Some(found as u32)
        } else {
            seat.past = true;
            None
        }
    }

    /// The other seat's numbers go behind the seat's, and their weights are added.
    pub fn join(&self, seat: &mut ClaimSeat, other: ClaimSeat)
        requires own { IsSeatOf self.now seat.old × IsSeatOf self.now other }
        ensures { IsSeatOf self.now seat.new × (seat.new.drawn ≡ seat.old.drawn ++ other.drawn)
            × (seat.new.weight ≡ seat.old.weight + other.weight) }
    {
        let ClaimSeat {
            seat: theirs,
            bound: _,
            past,
        } = other;
        self.table
            .shared
            .join_seat::<TakeIn>(&mut seat.seat, theirs);
        seat.past = seat.past || past;
    }

    /// The word, for the seat that has all the weight. The seat has drawn each number below the word once and no
    /// other, in some order.
    pub fn close(self, seat: ClaimSeat) -> u64
        requires own { IsSeatOf self seat }
        requires all { seat.weight ≡ 1024 }
        ensures counts { (x : ℕ) → times x seat.drawn ≡ once_below x result }
        ensures order { IsPermutation (range_with_len 0 result) seat.drawn }
    {
        let Claims { table, bound: _ } = self;
        let ClaimSeat {
            seat,
            bound: _,
            past: _,
        } = seat;
        let closed = table.close_with(seat);
        let word = closed.word(0);
        closed.free();
        word
    }
}

impl ClaimSeat {
    /// Whether it, or a seat that it took in, has drawn a number of at least the bound.
    pub fn is_past(&self) -> bool
        ensures { IsTrue result ↔ IsPast self.now.bound self.now.drawn }
    {
        self.past
    }
}
