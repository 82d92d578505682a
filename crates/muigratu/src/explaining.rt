//! How a join goes, told on standard error.

use std::fmt::{self, Write};
use std::time::{Clock, Duration, Instant};
use tb_front::Watch;
use tb_join::JoinTrace;

/// How high the bar of a part may be: one for each eighth of the fullest part.
const BARS: [char; 8] = ['▁', '▂', '▃', '▄', '▅', '▆', '▇', '█'];

/// The most parts that have a bar.
const MOST_BARS: usize = 64;

/// Who is told how a join goes.
#[derive(Clone, Copy, PartialEq, Eq)]
pub(crate) enum Audience {
    Nobody,
    /// Somebody at a terminal, who waits: of what is done once two seconds went by.
    Waiting,
    /// Somebody who asks.
    Asking,
}

// Seconds, with the thousandth ones.
#[derive(Clone, Copy, Drop)]
struct Seconds(Duration);

impl fmt::Display for Seconds {
    fn fmt<W: fmt::Write>(&self, f: &mut fmt::Formatter<W>) -> fmt::Result {
        write!(f, "{}.{:03} s", self.0.as_secs(), self.0.subsec_millis())
    }
}

// How many parts there are and how full they are, with a bar for each.
#[derive(Clone, Copy, Drop)]
struct Bars<'a>(&'a [usize]);

fn bar(size: usize, most: usize) -> char {
    let height = (size as u128 * 7).checked_div(most as u128).unwrap_or(0);
    let height = usize::try_from(height).unwrap_or(0);
    BARS.get(height).copied().unwrap_or(' ')
}

impl fmt::Display for Bars<'_> {
    fn fmt<W: fmt::Write>(&self, f: &mut fmt::Formatter<W>) -> fmt::Result {
        let most = self.0.iter().copied().max().unwrap_or(0);
        write!(f, "(parts: {}, fullest: {most}) ", self.0.len())?;
        for size in self.0.iter().take(MOST_BARS) {
            f.write_char(bar(*size, most))?;
        }
        Ok(())
    }
}

fn write_way<W: fmt::Write>(trace: &JoinTrace, f: &mut fmt::Formatter<W>) -> fmt::Result {
    match trace {
        JoinTrace::Hash(built) => {
            let side = if built.left_built() { "left" } else { "right" };
            write!(f, "{side} keys hashed {}", Bars(built.sizes()))
        }
        JoinTrace::Merge(merged) => write!(
            f,
            "{} left and {} right keys merged",
            merged.left_len(),
            merged.right_len()
        ),
        JoinTrace::Plain => f.write_str("rows compared field by field"),
    }
}

/// What of a join is done.
#[derive(Clone, Copy, Drop)]
pub(crate) enum Stage<'a> {
    Read(usize, usize),
    Joined(usize, &'a JoinTrace),
    Answered,
}

impl fmt::Display for Stage<'_> {
    fn fmt<W: fmt::Write>(&self, f: &mut fmt::Formatter<W>) -> fmt::Result {
        match self {
            Stage::Read(left, right) => write!(f, "read {left} left and {right} right rows"),
            Stage::Joined(rows, trace) => {
                write!(f, "joined to {rows} rows: ")?;
                write_way(trace, f)
            }
            Stage::Answered => f.write_str("made the text of the answer"),
        }
    }
}

/// Tells of a join on standard error: each stage, with the seconds that it took.
#[derive(Drop)]
pub(crate) struct Explaining<'r, R: Eprint + Clock> {
    rt: &'r R,
    audience: Audience,
    begun: Option<Instant>,
    told: Duration,
}

impl<'r, R: Eprint + Clock> Explaining<'r, R> {
    /// Begins now.
    pub(crate) fn begun(rt: &'r R, audience: Audience) -> Explaining<'r, R> {
        Explaining {
            rt,
            audience,
            begun: Instant::now(rt).ok(),
            told: Duration::ZERO,
        }
    }

    fn elapsed(&self) -> Duration {
        match self.begun {
            Some(begun) => begun.elapsed(self.rt).unwrap_or(Duration::ZERO),
            None => Duration::ZERO,
        }
    }

    fn listens(&self, elapsed: Duration) -> bool {
        match self.audience {
            Audience::Nobody => false,
            Audience::Waiting => elapsed >= Duration::from_secs(2),
            Audience::Asking => true,
        }
    }

    /// Tells what is done.
    pub(crate) fn tell(&mut self, stage: Stage<'_>) {
        let elapsed = self.elapsed();
        if self.listens(elapsed) {
            let took = Seconds(elapsed.saturating_sub(self.told));
            // Where standard error is gone nothing is told.
            let _ = eprintln!(self.rt; "{took}  {stage}");
        }
        self.told = elapsed;
    }
}

impl<R: Eprint + Clock> Watch for Explaining<'_, R> {
    fn read(&mut self, left: usize, right: usize) {
        self.tell(Stage::Read(left, right));
    }

    fn joined(&mut self, rows: usize, trace: &JoinTrace) {
        self.tell(Stage::Joined(rows, trace));
    }
}
