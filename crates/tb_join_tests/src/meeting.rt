//! A gate at which two parts meet.
use std::sync::atomic::{AtomicU64, Ordering};
use tb_pool::Gate;

// Some seconds: on a busy machine a worker may come late, and only one that never comes is to be told.
const TURNS: u64 = 4_000_000_000;

// Holds each entry of part 0 and of part 1 until the other part has entered as often, and notes where it doesn't.
#[derive(Drop)]
pub(crate) struct Meeting {
    first: AtomicU64,
    second: AtomicU64,
    late: AtomicU64,
}

impl Gate for Meeting {
    ghost lets_in = { λ _ _. Unit {0} };

    fn enter(&self, part: u32) {
        let (own, other) = if part == 0 {
            (&self.first, &self.second)
        } else {
            (&self.second, &self.first)
        };
        let before = own.fetch_add(1, Ordering::SeqCst);
        for _ in 0..TURNS {
            if other.load(Ordering::SeqCst) > before {
                return;
            }
        }
        self.late.store(1, Ordering::SeqCst);
    }
}

impl Meeting {
    pub(crate) fn new() -> Meeting {
        Meeting {
            first: AtomicU64::new(0),
            second: AtomicU64::new(0),
            late: AtomicU64::new(0),
        }
    }

    // How often each of the two has entered, where both have as often and none has waited in vain.
    pub(crate) fn meetings(&self) -> Option<u64> {
        let first = self.first.load(Ordering::SeqCst);
        let second = self.second.load(Ordering::SeqCst);
        if first == second && self.late.load(Ordering::SeqCst) == 0 {
            Some(first)
        } else {
            None
        }
    }
}
