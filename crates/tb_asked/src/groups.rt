//! What the words of `muigratu group` ask.
ghost use Rattle.std.specs.Prelude.{◌≡◌, [], map, unwrap_or, MatchResult, Some};
ghost use Rattle.clap.specs.Matches.{found_of};
ghost use Rattle.tb_group_front.specs.Promise.Words.{agg_of_word};
ghost use Rattle.tb_words.specs.Words.{given_words};
ghost use Rattle.tb_asked.specs.Faults.{IsAggFault, Tells};
ghost use Rattle.tb_asked.specs.Groups.{AsksGroup};

use crate::naming::all_names;
use clap::ArgMatches;
use std::alloc::Global;
use tb_group::GroupAgg;
use tb_group_front::{GroupCall, agg_of_word};
use tb_words::WordFault;

fn aggs_of<'a>(alloc: Global, words: Option<&[&'a str]>) -> Result<Vec<GroupAgg>, WordFault<'a>>
    ensures { let given = unwrap_or (given_words words.entry) [] in MatchResult result
        (λ v. map Some v.items ≡ map agg_of_word given) (IsAggFault given) }
{
    let mut aggs = Vec::new(alloc);
    for word in words.unwrap_or(&[]) {
        match agg_of_word(alloc, word)? {
            Some(agg) => aggs.push(agg)?,
            None => return Err(WordFault::NoAgg(word)),
        }
    }
    Ok(aggs)
}

/// What the words of `muigratu group` ask of a table.
///
/// # Errors
///
/// `NoAgg`, of the first word of `--agg` that asks for no column. `OutOfMemory` may come at any time.
pub fn group_call<'a>(alloc: Global, matches: &ArgMatches<'a>) -> Result<GroupCall, WordFault<'a>>
    ensures { let words = found_of matches.now in
        MatchResult result (AsksGroup words) (Tells words) }
{
    let aggs = aggs_of(alloc, matches.get_strs("agg"))?;
    let by = all_names(alloc, matches, "by")?;
    Ok(GroupCall {
        by,
        aggs,
        sorts: matches.get_flag("sort"),
    })
}
