//! The file that a fault is about.
ghost use Rattle.std.specs.Prelude.{◌≡◌};
ghost use Rattle.tb_sentences.specs.Statuses.{place_of};

use crate::failure::{Failure, FrontFailure};
use tb_front::{FrontFault, Place};
use tb_text::Text;

fn place_of(fault: &FrontFault) -> usize
    ensures { result ≡ place_of fault.now }
{
    match fault {
        FrontFault::NoTable { place, .. } => match place {
            Place::First => 0,
            Place::Second => 1,
            Place::Named(number) => *number,
        },
        FrontFault::Step { .. } => 2,
        _ => 0,
    }
}

/// The failure by a fault of texts that come from these files, in the order in which the call takes them.
pub fn front_failure<'a>(files: &[&'a str], fault: FrontFault) -> Failure<'a> {
    let file = files.get(place_of(&fault)).copied().unwrap_or("");
    Failure::Front(FrontFailure { fault, file })
}

/// The text, or the failure by its fault.
pub fn text_or_failure<'a>(
    files: &[&'a str],
    outcome: Result<Text, FrontFault>,
) -> Result<Text, Failure<'a>> {
    match outcome {
        Ok(text) => Ok(text),
        Err(fault) => Err(front_failure(files, fault)),
    }
}
