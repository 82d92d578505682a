//! Where the program reads from and writes to, and what may be said of both.
ghost use Rattle.std.specs.Prelude.{ℕ, ◌<◌, Bool, false, List, Option, length, IfOk};
ghost use Rattle.std.specs.Io.{ReadsAtMost, WritesAtMost};
ghost use Rattle.std.specs.Io.KnownBytes.{ReadConsumes, WriteAppends};
ghost use Rattle.tb_run.specs.Ends.{Counts};

/// A read or a write failed.
#[derive(Clone, Copy, Debug, PartialEq, Eq)]
pub struct Failed;

/// Where the bytes of a request come from.
pub trait Source {
    /// The bytes still to come, where they are told.
    ghost left: { Self → Option (List ℕ) };

    /// A count of faults. It never falls, and rises where a read fails.
    ghost faults: { Self → ℕ };

    /// Whether the count is exact: no other read makes it rise, as one may that tried again.
    ghost is_exact: { Bool } = { false };

    /// Puts the next bytes at the front of the room. None into a room that isn't empty is the end.
    fn read(&mut self, room: &mut [u8]) -> Result<usize, Failed>
        ensures bound { ReadsAtMost result room.new }
        ensures bytes { ReadConsumes (left self.old) (left self.new) result room.new }
        ensures count { Counts is_exact (faults self.old) (faults self.new) result };
}

/// Where the bytes of an answer go.
pub trait Sink {
    /// What was taken, where it is told.
    ghost written: { Self → Option (List ℕ) };

    /// A count of faults. It never falls, and rises where a write fails.
    ghost faults: { Self → ℕ };

    /// Whether the count is exact: no other write makes it rise, as one may that tried again.
    ghost is_exact: { Bool } = { false };

    /// Takes the front of the piece. To take nothing of a piece that isn't empty is a failure.
    fn write(&mut self, piece: &[u8]) -> Result<usize, Failed>
        ensures bound { WritesAtMost result piece.now }
        ensures some { 0 < length piece.now → IfOk result (λ n. 0 < n) }
        ensures bytes { WriteAppends (written self.old) (written self.new) result piece.now }
        ensures count { Counts is_exact (faults self.old) (faults self.new) result };
}
