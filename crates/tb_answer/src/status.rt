//! What an answer is.
ghost use Rattle.std.specs.Prelude.{◌≡◌};
ghost use Rattle.tb_answer.specs.Promise.Due.{code_of};

/// What an answer is. The numbers are those of the JSON program.
#[derive(Clone, Copy, Debug, PartialEq, Eq)]
pub enum Status {
    /// A table.
    Done = 0,
    /// Why the request is refused.
    Refused = 1,
    /// Why the bytes are no request.
    BadRequest = 3,
}

impl Status {
    /// Its number.
    pub fn code(self) -> u32
        ensures { result ≡ code_of self }
    {
        self as u32
    }
}
