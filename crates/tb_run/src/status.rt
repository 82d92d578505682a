//! How a run ends.
ghost use Rattle.std.specs.Prelude.{◌≡◌};
ghost use Rattle.tb_run.specs.Promise.Statuses.{code_of};

/// How a run ended.
#[derive(Clone, Copy, Debug, PartialEq, Eq)]
pub enum Status {
    Done = 0,
    Refused = 1,
    Usage = 2,
    BadRequest = 3,
    ReadFault = 4,
    WriteFault = 5,
    OutOfMemory = 6,
    TooLong = 7,
}

impl Status {
    /// The exit status of a program that ends so: 0 to 7, in the order above.
    pub fn code(self) -> u8
        ensures { result ≡ code_of self }
    {
        self as u8
    }
}
