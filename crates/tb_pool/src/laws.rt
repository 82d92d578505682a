//! What holds of the claims and of portions, whatever they are.
ghost use Rattle.std.specs.Prelude.{◌≡◌, ℕ, ◌≤◌, List, map};
ghost use Rattle.std.specs.List.{range_with_len, flat_map};
ghost use Rattle.tb_pool.specs.Core.{Event, State, opening, Follows, IsSound};
ghost use Rattle.tb_pool.specs.Portions.{portion_of, places_of};

/// After every list of events from the opening state the claims are sound: each number below the next one was drawn
/// once and no other number was, a seat has drawn at most as many late numbers as its weight, and all weights together
/// are 1,024.
pub fn core()
    ensures { (n : ℕ) (events : List Event) (s : State) → Follows n opening events s → IsSound n s }
{}

/// Portions cover a list once, in order: the places of one portion after another are 0 to `len - 1`.
pub fn portions_cover()
    ensures { (len n : ℕ) → 1 ≤ n →
        flat_map places_of (map (portion_of len n) (range_with_len 0 n)) ≡ range_with_len 0 len }
{}
