//! What the words of `muigratu split` ask.
ghost use Rattle.std.specs.Prelude.{◌≡◌, codes, MatchOption, MatchResult};
ghost use Rattle.clap.specs.Matches.{first_value, found_of};
ghost use Rattle.tb_words.specs.Numbers.{number_of};
ghost use Rattle.tb_asked.specs.Faults.{Tells};
ghost use Rattle.tb_asked.specs.Splits.{AsksSplit, IsCount, IsCountOf};

use crate::naming::all_names;
use clap::ArgMatches;
use std::alloc::Global;
use tb_split_front::{PartCount, SplitCall};
use tb_words::{WordFault, needed, on_words, text_given};

fn parts_in(word: &str) -> Option<PartCount>
    ensures { MatchOption result (¬ IsCount word.now)
        (λ n. IsCount word.now × (n ≡ number_of word.now)) }
{
    PartCount::new(word.parse::<u32>().ok()?)
}

fn parts_given<'a>(matches: &ArgMatches<'a>) -> Result<PartCount, WordFault<'a>>
    ensures { let words = found_of matches.now in
        MatchResult result (IsCountOf (first_value words (codes "parts"))) (Tells words) }
{
    let word = needed(matches, "parts")?;
    parts_in(word).ok_or(WordFault::NoParts(word))
}

/// What the words of `muigratu split` ask of a table.
///
/// # Errors
///
/// In this order: `EmptyOn`; `Wanting` where there is no word of `--parts`; `NoParts` where it is no number of parts. `OutOfMemory` may
/// come at any time.
pub fn split_call<'a>(alloc: Global, matches: &ArgMatches<'a>) -> Result<SplitCall, WordFault<'a>>
    ensures { let words = found_of matches.now in
        MatchResult result (AsksSplit words) (Tells words) }
{
    on_words(matches)?;
    let parts = parts_given(matches)?;
    Ok(SplitCall {
        on: all_names(alloc, matches, "on")?,
        parts,
        number: text_given(alloc, matches, "number")?,
    })
}
