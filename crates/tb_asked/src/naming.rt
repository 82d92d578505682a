//! Words that are names as a whole.
ghost use Rattle.std.specs.Prelude.{◌≡◌, IfOk};
ghost use Rattle.clap.specs.Matches.{found_of};
ghost use Rattle.tb_words.specs.Words.{words_given};

use clap::ArgMatches;
use std::alloc::Global;
use tb_value::{OutOfMemory, PlSmallStr};
use tb_words::{Part, names_of};

/// The words of an option as names, none where it isn't used.
pub(crate) fn all_names(
    alloc: Global,
    matches: &ArgMatches<'_>,
    name: &str,
) -> Result<Vec<PlSmallStr>, OutOfMemory>
    ensures { IfOk result (λ v. v.items ≡ words_given (found_of matches.now) name.now) }
{
    let words = matches.get_strs(name);
    let names = names_of(alloc, Part::Whole, words)?;
    Ok(names)
}
