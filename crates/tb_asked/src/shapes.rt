//! What the words of `muigratu unpivot`, `dummies` and `pivot` ask.
ghost use Rattle.std.specs.Prelude.{◌≡◌, MatchResult, Some};
ghost use Rattle.clap.specs.Matches.{found_of};
ghost use Rattle.tb_asked.specs.Faults.{Tells};
ghost use Rattle.tb_asked.specs.Shapes.{agg_meant, AsksDummies, AsksPivot, AsksUnpivot};

use crate::naming::all_names;
use clap::ArgMatches;
use std::alloc::Global;
use tb_agg::Aggregate;
use tb_calls::{DummiesCall, PivotCall, UnpivotArgsIR};
use tb_request::agg_named;
use tb_words::{Choice, WordFault, names_given, on_words, text_given};

/// What the words of `muigratu unpivot` ask of a table.
///
/// # Errors
///
/// `EmptyOn`; `OutOfMemory`, which may come at any time.
pub fn unpivot_call<'a>(
    alloc: Global,
    matches: &ArgMatches<'a>,
) -> Result<UnpivotArgsIR, WordFault<'a>>
    ensures { let words = found_of matches.now in
        MatchResult result (AsksUnpivot words) (Tells words) }
{
    on_words(matches)?;
    Ok(UnpivotArgsIR {
        on: all_names(alloc, matches, "on")?,
        index: all_names(alloc, matches, "index")?,
        variable_name: text_given(alloc, matches, "variable-name")?,
        value_name: text_given(alloc, matches, "value-name")?,
    })
}

/// What the words of `muigratu dummies` ask of a table.
///
/// # Errors
///
/// `OutOfMemory` alone, which may come at any time.
pub fn dummies_call<'a>(
    alloc: Global,
    matches: &ArgMatches<'a>,
) -> Result<DummiesCall, WordFault<'a>>
    ensures { let words = found_of matches.now in
        MatchResult result (AsksDummies words) (Tells words) }
{
    Ok(DummiesCall {
        columns: names_given(alloc, matches, "columns")?,
        separator: text_given(alloc, matches, "name-separator")?,
        drop_first: matches.get_flag("drop-first"),
    })
}

fn agg_given<'a>(matches: &ArgMatches<'a>) -> Result<Option<Aggregate>, WordFault<'a>>
    ensures { let words = found_of matches.now in
        MatchResult result (λ v. agg_meant words ≡ Some v) (Tells words) }
{
    let Some(word) = matches.get_str("agg") else {
        return Ok(None);
    };
    match agg_named(word) {
        Some(aggregate) => Ok(Some(aggregate)),
        None => Err(WordFault::NoWord(Choice::Aggregate, word)),
    }
}

/// What the words of `muigratu pivot` ask of a table.
///
/// # Errors
///
/// In this order: `EmptyOn`; `NoWord` of `--agg`, where no table has the word. `OutOfMemory` may come at any time.
pub fn pivot_call<'a>(alloc: Global, matches: &ArgMatches<'a>) -> Result<PivotCall, WordFault<'a>>
    ensures { let words = found_of matches.now in
        MatchResult result (AsksPivot words) (Tells words) }
{
    on_words(matches)?;
    let agg = agg_given(matches)?;
    Ok(PivotCall {
        on: all_names(alloc, matches, "on")?,
        index: names_given(alloc, matches, "index")?,
        values: names_given(alloc, matches, "values")?,
        sort_columns: matches.get_flag("sort-columns"),
        agg,
        separator: text_given(alloc, matches, "name-separator")?,
    })
}
