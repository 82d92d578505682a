//! What the words of `muigratu delta` ask.
ghost use Rattle.std.specs.Prelude.{MatchResult};
ghost use Rattle.clap.specs.Matches.{found_of};
ghost use Rattle.tb_asked.specs.Deltas.{AsksDelta};
ghost use Rattle.tb_asked.specs.Faults.{Tells};

use clap::ArgMatches;
use std::alloc::Global;
use tb_delta_front::DeltaCall;
use tb_value::PlSmallStr;
use tb_words::{Part, WordFault, name_in, needed, on_words};

/// What the words of `muigratu delta` ask of two tables.
///
/// # Errors
///
/// `EmptyOn`, and `Wanting` where there is no word of `--on`. `OutOfMemory` may come at any time.
pub fn delta_call<'a>(alloc: Global, matches: &ArgMatches<'a>) -> Result<DeltaCall, WordFault<'a>>
    ensures { let words = found_of matches.now in
        MatchResult result (AsksDelta words) (Tells words) }
{
    on_words(matches)?;
    let key = needed(matches, "on")?;
    Ok(DeltaCall {
        left_on: PlSmallStr::from_str(alloc, name_in(Part::BeforeSign, key))?,
        right_on: PlSmallStr::from_str(alloc, name_in(Part::BehindSign, key))?,
        join_nulls: matches.get_flag("join-nulls"),
    })
}
