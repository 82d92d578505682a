//! Calls that want nothing but memory.
ghost use Rattle.std.specs.Prelude.{◌≡◌, Err, IfErr, IfOk, None, Ok};
ghost use Rattle.tb_value.specs.declared.error.PolarsError.TheVariants as errors;
ghost use Rattle.tb_value.specs.Refusals.{Settles};

use crate::error::{OutOfMemory, PolarsError, PolarsResult};

/// The answer of a call that has no cause to refuse.
pub fn only_memory<T>(answer: PolarsResult<T>) -> Result<T, OutOfMemory>
    requires { Settles answer None }
    ensures value { IfOk result (λ t. answer ≡ Ok t) }
    ensures want { IfErr result (λ _. answer ≡ Err errors.OutOfMemory) }
{
    match answer {
        Ok(value) => Ok(value),
        Err(PolarsError::OutOfMemory) => Err(OutOfMemory),
        Err(_) => unreachable!(),
    }
}
