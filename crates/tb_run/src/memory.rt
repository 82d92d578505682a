//! Ends in memory, whose calls fail as planned.
ghost use Rattle.std.specs.Prelude.{◌≡◌, ◌↔◌, ◌+◌, ◌-◌, ◌<◌, ◌≤◌, ◌⊎◌, ◌++◌, ℕ, true, [], min, List, Option, Some, take, drop, length, vec_capacity, IfOk, IsErr, OnOk, OnErr, IsTrue, Contains};
ghost use Rattle.std.specs.Io.{ReadsAtMost, WritesAtMost};
ghost use Rattle.std.specs.Io.KnownBytes.{ReadConsumes, WriteAppends};
ghost use Rattle.tb_run.specs.Ends.{Counts};
ghost use Rattle.tb_run.specs.Memory.{Plan, SourceState, SinkState, next_count};

use crate::ends::{Failed, Sink, Source};
use std::alloc::Global;
use std::marker::Model;
use tb_value::OutOfMemory;

// Which calls fail, numbered from 1.
#[derive(Drop)]
struct Schedule {
    failing: Vec<u64>,
    calls: u64,
    faults: u64,
}

impl Model for Schedule {
    ghost Value = { Plan };

    ghost view = { λ s. record { failing = s.failing.items; calls = s.calls; faults = s.faults } };
}

impl Schedule {
    fn new(failing: Vec<u64>) -> Schedule
        ensures { result ≡ record { failing = failing.items; calls = 0; faults = 0 } }
    {
        Schedule {
            failing,
            calls: 0,
            faults: 0,
        }
    }

    // The next call's number is drawn. Whether it is to fail.
    fn next_fails(&mut self) -> bool
        ensures after { self.new ≡ record self.old { calls = next_count self.old.calls } }
        ensures fails { IsTrue result ↔ Contains self.old.failing (next_count self.old.calls) }
    {
        self.calls = self.calls.saturating_add(1);
        self.failing.contains(&self.calls)
    }

    fn count_fault(&mut self)
        ensures { self.new ≡ record self.old { faults = next_count self.old.faults } }
    {
        self.faults = self.faults.saturating_add(1);
    }
}

// Copies as many bytes as the room has place for, and says how many.
pub(crate) fn give(bytes: &[u8], room: &mut [u8]) -> usize
    ensures count { result ≡ min (length room.old) (length bytes.now) }
    ensures front { take result room.new ≡ take result bytes.now }
{
    let n = room.len().min(bytes.len());
    room[..n].copy_from_slice(&bytes[..n]);
    n
}

/// A source over a list of bytes.
#[derive(Drop)]
pub struct MemorySource {
    bytes: Vec<u8>,
    at: usize,
    schedule: Schedule,
}

impl Model for MemorySource {
    ghost Value = { SourceState };

    ghost view = { λ s. record { bytes = drop s.at s.bytes.items; plan = s.schedule } };

    ghost invariant = { λ s. s.at ≤ length s.bytes.items };
}

impl MemorySource {
    /// The calls with the given numbers fail, and no others. The first call has number 1.
    pub fn new(bytes: Vec<u8>, failing: Vec<u64>) -> MemorySource
        ensures bytes { result.bytes ≡ bytes.items }
        ensures plan { result.plan ≡ record { failing = failing.items; calls = 0; faults = 0 } }
    {
        MemorySource {
            bytes,
            at: 0,
            schedule: Schedule::new(failing),
        }
    }
}

impl Source for MemorySource {
    ghost left = { λ s. Some s.bytes };

    ghost faults = { λ s. s.plan.faults };

    ghost is_exact = { true };

    fn read(&mut self, room: &mut [u8]) -> Result<usize, Failed>
        ensures bound { ReadsAtMost result room.new }
        ensures bytes { ReadConsumes (Some self.old.bytes) (Some self.new.bytes) result room.new }
        ensures count { Counts true self.old.plan.faults self.new.plan.faults result }
        ensures planned { IsErr result ↔ Contains self.old.plan.failing
            (next_count self.old.plan.calls) }
        ensures after { OnOk result
            (self.new.plan ≡ record self.old.plan { calls = next_count self.old.plan.calls }) }
        ensures after_err { OnErr result (self.new.plan
            ≡ record { failing = self.old.plan.failing; calls = next_count self.old.plan.calls; faults = next_count self.old.plan.faults }) }
        ensures whole { IfOk result (λ n. n ≡ min (length room.old) (length self.old.bytes)) }
    {
        if self.schedule.next_fails() {
            self.schedule.count_fault();
            return Err(Failed);
        }
        let n = give(&self.bytes[self.at..], room);
        self.at += n;
        Ok(n)
    }
}

/// A sink whose room is made at once.
#[derive(Drop)]
pub struct MemorySink {
    taken: Vec<u8>,
    room: usize,
    schedule: Schedule,
}

impl Model for MemorySink {
    ghost Value = { SinkState };

    ghost view = { λ s. record { bytes = s.taken.items; room = s.room; plan = s.schedule } };

    ghost invariant = { λ s. (length s.taken.items ≤ s.room) × (s.room ≤ vec_capacity s.taken) };
}

impl MemorySink {
    /// An empty sink with room for so many bytes. The calls with the given numbers fail, counted from 1,
    /// and so does a write of something into a full sink; no others do.
    pub fn new(alloc: Global, room: usize, failing: Vec<u64>) -> Result<MemorySink, OutOfMemory>
        ensures { IfOk result (λ s.
            s
            ≡ record
            { bytes = []; room = room; plan = record { failing = failing.items; calls = 0; faults = 0 } }) }
    {
        Ok(MemorySink {
            taken: Vec::with_capacity(alloc, room)?,
            room,
            schedule: Schedule::new(failing),
        })
    }

    /// What was taken, in order.
    pub fn written(&self) -> &[u8]
        ensures { result.now ≡ self.now.bytes }
    {
        &self.taken
    }
}

impl Sink for MemorySink {
    ghost written = { λ s. Some s.bytes };

    ghost faults = { λ s. s.plan.faults };

    ghost is_exact = { true };

    fn write(&mut self, piece: &[u8]) -> Result<usize, Failed>
        ensures bound { WritesAtMost result piece.now }
        ensures some { 0 < length piece.now → IfOk result (λ n. 0 < n) }
        ensures bytes { WriteAppends (Some self.old.bytes) (Some self.new.bytes) result piece.now }
        ensures count { Counts true self.old.plan.faults self.new.plan.faults result }
        ensures planned { IsErr result ↔ (Contains self.old.plan.failing (next_count self.old.plan.calls)
            ⊎ ((0 < length piece.now) × (length self.old.bytes ≡ self.old.room))) }
        ensures after { OnOk result
            (self.new.plan ≡ record self.old.plan { calls = next_count self.old.plan.calls }) }
        ensures after_err { OnErr result (self.new.plan
            ≡ record { failing = self.old.plan.failing; calls = next_count self.old.plan.calls; faults = next_count self.old.plan.faults }) }
        ensures whole { IfOk result (λ n.
            n ≡ min (length piece.now) (self.old.room - length self.old.bytes)) }
        ensures same_room { self.new.room ≡ self.old.room }
    {
        let planned = self.schedule.next_fails();
        let n = piece.len().min(self.room - self.taken.len());
        if planned || (n == 0 && !piece.is_empty()) {
            self.schedule.count_fault();
            return Err(Failed);
        }
        if self.taken.extend_from_slice(&piece[..n]).is_err() {
            self.schedule.count_fault();
            return Err(Failed);
        }
        Ok(n)
    }
}
