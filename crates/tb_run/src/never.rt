//! Ends that never fail.
ghost use Rattle.std.specs.Prelude.{◌≡◌, ◌≤◌, Ok, None, ℕ, true, min, List, Some, drop, length, IfOk, IsOk};
ghost use Rattle.std.specs.Io.{ReadsAtMost};
ghost use Rattle.std.specs.Io.KnownBytes.{ReadConsumes, WriteAppends};
ghost use Rattle.tb_run.specs.Ends.{Counts};

use crate::ends::{Failed, Sink, Source};
use crate::memory::give;
use std::marker::Model;

/// A source over a list of bytes, none of whose reads fails.
#[derive(Drop)]
pub struct NeverSource {
    bytes: Vec<u8>,
    at: usize,
}

impl Model for NeverSource {
    ghost Value = { List ℕ };

    ghost view = { λ s. drop s.at s.bytes.items };

    ghost invariant = { λ s. s.at ≤ length s.bytes.items };
}

impl NeverSource {
    pub fn new(bytes: Vec<u8>) -> NeverSource
        ensures { result ≡ bytes.items }
    {
        NeverSource { bytes, at: 0 }
    }
}

impl Source for NeverSource {
    ghost left = { λ s. Some s };

    ghost faults = { λ _. 0 };

    ghost is_exact = { true };

    fn read(&mut self, room: &mut [u8]) -> Result<usize, Failed>
        ensures bound { ReadsAtMost result room.new }
        ensures bytes { ReadConsumes (Some self.old) (Some self.new) result room.new }
        ensures count { Counts true 0 0 result }
        ensures never { IsOk result }
        ensures whole { IfOk result (λ n. n ≡ min (length room.old) (length self.old)) }
    {
        let n = give(&self.bytes[self.at..], room);
        self.at += n;
        Ok(n)
    }
}

/// A sink that takes every piece whole and keeps nothing.
#[derive(Clone, Copy, Debug)]
pub struct NeverSink;

impl NeverSink {
    pub fn new() -> NeverSink {
        NeverSink
    }
}

impl Sink for NeverSink {
    ghost written = { λ _. None };

    ghost faults = { λ _. 0 };

    ghost is_exact = { true };

    fn write(&mut self, piece: &[u8]) -> Result<usize, Failed>
        ensures bound { result ≡ Ok (length piece.now) }
    {
        Ok(piece.len())
    }
}
