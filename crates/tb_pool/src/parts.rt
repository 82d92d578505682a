//! Work that is cut in parts, and what is called before each part.
ghost use Rattle.std.specs.Prelude.{ℕ, IfOk};

use tb_value::OutOfMemory;

/// Work that is cut in parts, each named by a number. Threads run its parts side by side.
pub trait Parts: Sync {
    /// What a part gives.
    type Out: Send + Drop;

    // Of a part: it may be run.
    ghost may_run: { Self → ℕ → Type 0 };

    // Of a part and what it gives: it may give this.
    ghost gives: { Self → ℕ → Self.Out → Type 0 };

    /// Runs one part, by its number.
    fn run(&self, part: u32) -> Result<Self::Out, OutOfMemory>
        requires { may_run self.now part }
        ensures { IfOk result (λ out. gives self.now part out) };
}

/// What is called before each part runs, by the worker that claimed it.
pub trait Gate: Sync {
    // Of a part: it has been let in.
    ghost lets_in: { Self → ℕ → Type 0 };

    /// Lets the part of this number in when it returns.
    fn enter(&self, part: u32)
        ensures { lets_in self.now part };
}

/// A gate that lets each part in at once.
#[derive(Drop)]
pub struct OpenGate;

impl Gate for OpenGate {
    ghost lets_in = { λ _ _. Unit {0} };

    fn enter(&self, _part: u32) {}
}
