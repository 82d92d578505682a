//! Words that are names, and texts.
ghost use Rattle.std.specs.Prelude.{◌≡◌, [], codes, false, map, option_map, true, unwrap_or, IfOk, MatchResult, None, Some};
ghost use Rattle.std.specs.List.{list_any};
ghost use Rattle.clap.specs.Matches.{first_value, found_of};
ghost use Rattle.tb_words.specs.Words.{given_words, has_blank, is_blank, name_in, stands_alone, words_of};

use crate::fault::WordFault;
use clap::ArgMatches;
use std::alloc::Global;
use tb_value::{OutOfMemory, PlSmallStr};

/// A word that the command can't do without.
///
/// # Errors
///
/// `Wanting` where it isn't there.
pub fn needed<'a>(matches: &ArgMatches<'a>, name: &'static str) -> Result<&'a str, WordFault<'a>>
    ensures { let word = first_value (found_of matches.now) name.now in MatchResult result
        (λ w. word ≡ Some w.now) (λ e. (word ≡ None) × (e ≡ WordFault.Wanting name.entry)) }
{
    match matches.get_str(name) {
        Some(word) => Ok(word),
        None => Err(WordFault::Wanting(name)),
    }
}

/// The part of a word that is a name. A word without `=` is a name as a whole.
#[derive(Clone, Copy)]
pub enum Part {
    Whole,
    BeforeSign,
    BehindSign,
}

/// This part of a word. The sign is its first `=`.
pub fn name_in(part: Part, word: &str) -> &str
    ensures { result.now ≡ name_in part word.now }
{
    match (part, word.split_once('=')) {
        (Part::BeforeSign, Some((before, _))) => before,
        (Part::BehindSign, Some((_, behind))) => behind,
        _ => word,
    }
}

/// This part of each word, if there is one.
///
/// # Errors
///
/// `OutOfMemory` alone, which may come at any time.
pub fn names_of(
    alloc: Global,
    part: Part,
    words: Option<&[&str]>,
) -> Result<Vec<PlSmallStr>, OutOfMemory>
    ensures { IfOk result (λ v.
        v.items ≡ map (name_in part) (unwrap_or (given_words words.entry) [])) }
{
    let mut names = Vec::new(alloc);
    for word in words.unwrap_or(&[]) {
        names.push(PlSmallStr::from_str(alloc, name_in(part, word))?)?;
    }
    Ok(names)
}

fn has_blank(words: &[&str]) -> bool
    ensures { result ≡ list_any is_blank (map (λ w. w.now) words.now) }
{
    for word in words {
        if word.is_empty() {
            return true;
        }
    }
    false
}

/// The words of `--on`.
///
/// # Errors
///
/// `EmptyOn` where one of them is empty.
pub fn on_words<'a, 'm>(matches: &'m ArgMatches<'a>) -> Result<Option<&'m [&'a str]>, WordFault<'a>>
    ensures { let words = words_of (found_of matches.now) (codes "on") in MatchResult result
        (λ o. (given_words o ≡ words) × (has_blank words ≡ false))
        (λ e. (e ≡ WordFault.EmptyOn) × (has_blank words ≡ true)) }
{
    let words = matches.get_strs("on");
    match words {
        Some(given) if has_blank(given) => Err(WordFault::EmptyOn),
        _ => Ok(words),
    }
}

/// The words of an option as names, if it is used.
///
/// # Errors
///
/// `OutOfMemory` alone, which may come at any time.
pub fn names_given(
    alloc: Global,
    matches: &ArgMatches<'_>,
    name: &str,
) -> Result<Option<Vec<PlSmallStr>>, OutOfMemory>
    ensures { IfOk result (λ o.
        option_map (λ v. v.items) o ≡ words_of (found_of matches.now) name.now) }
{
    let words = matches.get_strs(name);
    match words {
        Some(_) => Ok(Some(names_of(alloc, Part::Whole, words)?)),
        None => Ok(None),
    }
}

/// The text of an option, if it is used.
///
/// # Errors
///
/// `OutOfMemory` alone, which may come at any time.
pub fn text_given(
    alloc: Global,
    matches: &ArgMatches<'_>,
    name: &str,
) -> Result<Option<PlSmallStr>, OutOfMemory>
    ensures { IfOk result (λ o. o ≡ first_value (found_of matches.now) name.now) }
{
    match matches.get_str(name) {
        Some(word) => Ok(Some(PlSmallStr::from_str(alloc, word)?)),
        None => Ok(None),
    }
}

/// Whether the option was used without a word, perhaps among other uses.
pub fn stands_alone(matches: &ArgMatches<'_>, name: &str) -> bool
    ensures { result ≡ stands_alone (found_of matches.now) name.now }
{
    let Some(uses) = matches.get_raw_occurrences(name) else {
        return false;
    };
    for names in uses {
        if names.is_empty() {
            return true;
        }
    }
    false
}
