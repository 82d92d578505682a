//! Sums that may leave the range of their numbers on the way.
ghost use Rattle.std.specs.Prelude.{◌≡◌, ◌≤ℤ◌, ◌<ℤ◌, ◌+ℤ◌, pos, negsuc, neg_ℤ, MatchOption};
ghost use Rattle.tb_agg.specs.Running.{sum_so_far, NotInRange};

/// A whole number: `low`, and 2^128 for each of the `wraps`.
#[derive(Clone, Copy)]
pub(crate) struct Running {
    pub(crate) low: i128,
    pub(crate) wraps: i64,
}

impl Running {
    /// A number of 64 bits.
    pub(crate) fn of(number: i64) -> Running
        ensures { sum_so_far result ≡ number }
    {
        Running {
            low: number as i128,
            wraps: 0,
        }
    }
}

fn low_past_top(low: i128, value: i128) -> i128
    requires up { pos 0 ≤ℤ value }
    requires past { pos 170141183460469231731687303715884105727 <ℤ (low +ℤ value) }
    ensures { result ≡ (low +ℤ value) +ℤ negsuc 340282366920938463463374607431768211455 }
{
    (low + i128::MIN) + (value + i128::MIN)
}

fn low_past_end(low: i128, value: i128) -> i128
    requires down { value ≤ℤ negsuc 0 }
    requires past { (low +ℤ value) <ℤ negsuc 170141183460469231731687303715884105727 }
    ensures { result ≡ (low +ℤ value) +ℤ pos 340282366920938463463374607431768211456 }
{
    (low - i128::MIN) + (value - i128::MIN)
}

// A number that isn't negative more.
fn plus_up(running: Running, value: i128) -> Running
    requires few { running.wraps ≤ℤ pos 4294967296 }
    requires up { pos 0 ≤ℤ value }
    ensures total { sum_so_far result ≡ sum_so_far running +ℤ value }
    ensures from { running.wraps ≤ℤ result.wraps }
    ensures to { result.wraps ≤ℤ (running.wraps +ℤ pos 1) }
{
    if running.low <= i128::MAX - value {
        return Running {
            low: running.low + value,
            wraps: running.wraps,
        };
    }
    Running {
        low: low_past_top(running.low, value),
        wraps: running.wraps + 1,
    }
}

// A negative number more.
fn plus_down(running: Running, value: i128) -> Running
    requires few { neg_ℤ (pos 4294967296) ≤ℤ running.wraps }
    requires down { value ≤ℤ negsuc 0 }
    ensures total { sum_so_far result ≡ sum_so_far running +ℤ value }
    ensures from { running.wraps ≤ℤ (result.wraps +ℤ pos 1) }
    ensures to { result.wraps ≤ℤ running.wraps }
{
    if i128::MIN - value <= running.low {
        return Running {
            low: running.low + value,
            wraps: running.wraps,
        };
    }
    Running {
        low: low_past_end(running.low, value),
        wraps: running.wraps - 1,
    }
}

pub(crate) fn plus(running: Running, value: i128) -> Running
    requires down { neg_ℤ (pos 4294967296) ≤ℤ running.wraps }
    requires up { running.wraps ≤ℤ pos 4294967296 }
    ensures total { sum_so_far result ≡ sum_so_far running +ℤ value }
    ensures from { running.wraps ≤ℤ (result.wraps +ℤ pos 1) }
    ensures to { result.wraps ≤ℤ (running.wraps +ℤ pos 1) }
{
    if value < 0 {
        plus_down(running, value)
    } else {
        plus_up(running, value)
    }
}

// The number itself, where it is one of 128 bits.
pub(crate) fn exact(running: Running) -> Option<i128>
    ensures { MatchOption result (NotInRange (sum_so_far running)) (λ x. x ≡ sum_so_far running) }
{
    if running.wraps == 0 {
        Some(running.low)
    } else {
        None
    }
}
