//! Why a merge gives up.
use tb_value::OutOfMemory;

/// Why a merge gave up.
#[derive(Drop, PartialEq, Eq, Debug)]
pub enum MergeFault {
    /// There are more pairs than row numbers.
    TooManyRows,
    OutOfMemory,
}

impl From<OutOfMemory> for MergeFault {
    ghost use Rattle.std.specs.Prelude.{◌≡◌};
    ghost use Rattle.tb_merge.specs.declared.fault.MergeFault.TheVariants.{OutOfMemory};

    ghost from_gives = { λ _ e. e ≡ OutOfMemory };

    fn from(_error: OutOfMemory) -> MergeFault {
        MergeFault::OutOfMemory
    }
}
