//! What the words of `muigratu join` ask.
ghost use Rattle.std.specs.Prelude.{◌≡◌, codes, false, not, IfOk, MatchResult, Some};
ghost use Rattle.std.specs.List.{position};
ghost use Rattle.clap.specs.Matches.{first_value, found_of};
ghost use Rattle.tb_frame.specs.Promise.Naming.{is_among};
ghost use Rattle.tb_words.specs.Words.{stands_alone};
ghost use Rattle.tb_asked.specs.Faults.{GivesNulls, Tells};
ghost use Rattle.tb_asked.specs.Joins.{coalesce_meant, how_meant, left_keys, order_meant, order_word, validation_meant, AsksJoin, AsksJoinArgs, IsSliceOf};

use clap::ArgMatches;
use std::alloc::Global;
use tb_calls::JoinCall;
use tb_frame::{
    JoinArgs, JoinCoalesce, JoinNulls, JoinType, JoinValidation, MaintainOrderJoin, name_set,
};
use tb_front::named_flags;
use tb_request::{coalesce_named, how_named, order_named, validation_named};
use tb_value::{OutOfMemory, PlSmallStr};
use tb_words::{
    Choice, Part, WordFault, names_given, names_of, on_words, slice_of, stands_alone, text_given,
};

fn how_given<'a>(matches: &ArgMatches<'a>) -> Result<JoinType, WordFault<'a>>
    ensures { let words = found_of matches.now in
        MatchResult result (λ v. how_meant words ≡ Some v) (Tells words) }
{
    let Some(word) = matches.get_str("how") else {
        return Ok(JoinType::Inner);
    };
    how_named(word).ok_or(WordFault::NoWord(Choice::How, word))
}

fn validation_given<'a>(matches: &ArgMatches<'a>) -> Result<JoinValidation, WordFault<'a>>
    ensures { let words = found_of matches.now in
        MatchResult result (λ v. validation_meant words ≡ Some v) (Tells words) }
{
    let Some(word) = matches.get_str("validate") else {
        return Ok(JoinValidation::ManyToMany);
    };
    validation_named(word).ok_or(WordFault::NoWord(Choice::Validation, word))
}

fn coalesce_given<'a>(matches: &ArgMatches<'a>) -> Result<JoinCoalesce, WordFault<'a>>
    ensures { let words = found_of matches.now in
        MatchResult result (λ v. coalesce_meant words ≡ Some v) (Tells words) }
{
    let Some(word) = matches.get_str("coalesce") else {
        return Ok(JoinCoalesce::JoinSpecific);
    };
    coalesce_named(word).ok_or(WordFault::NoWord(Choice::Coalesce, word))
}

// A hyphen may stand for the line between two words.
fn order_word(word: &str) -> Option<MaintainOrderJoin>
    ensures { result ≡ order_word word.now }
{
    match word {
        "left-right" => Some(MaintainOrderJoin::LeftRight),
        "right-left" => Some(MaintainOrderJoin::RightLeft),
        _ => order_named(word),
    }
}

fn order_given<'a>(
    how: JoinType,
    matches: &ArgMatches<'a>,
) -> Result<MaintainOrderJoin, WordFault<'a>>
    ensures { let words = found_of matches.now in
        MatchResult result (λ v. order_meant how words ≡ Some v) (Tells words) }
{
    let Some(word) = matches.get_str("order") else {
        return Ok(match how {
            JoinType::Inner | JoinType::Full => MaintainOrderJoin::LeftRight,
            _ => MaintainOrderJoin::None,
        });
    };
    order_word(word).ok_or(WordFault::NoWord(Choice::Order, word))
}

fn slice_given<'a>(matches: &ArgMatches<'a>) -> Result<Option<(i64, usize)>, WordFault<'a>>
    ensures { let words = found_of matches.now in
        MatchResult result (IsSliceOf (first_value words (codes "slice"))) (Tells words) }
{
    let Some(word) = matches.get_str("slice") else {
        return Ok(None);
    };
    match slice_of(word) {
        Some(slice) => Ok(Some(slice)),
        None => Err(WordFault::NoSlice(word)),
    }
}

// The place of the first name that is no key.
fn unknown_key(
    alloc: Global,
    keys: &[PlSmallStr],
    names: &[PlSmallStr],
) -> Result<Option<usize>, OutOfMemory>
    ensures { IfOk result (λ o. o ≡ position (λ n. not (is_among keys.now n)) names.now) }
{
    let known = name_set(alloc, keys)?;
    Ok(names.iter().position(|name| !known.contains(name)))
}

// The word of --join-nulls at a place.
fn word_at<'a>(matches: &ArgMatches<'a>, place: usize) -> &'a str {
    matches
        .get_strs("join-nulls")
        .unwrap_or(&[])
        .get(place)
        .copied()
        .unwrap_or("")
}

fn named_nulls<'a>(
    alloc: Global,
    keys: &[PlSmallStr],
    matches: &ArgMatches<'a>,
) -> Result<JoinNulls, WordFault<'a>>
    requires { stands_alone (found_of matches.now) (codes "join-nulls") ≡ false }
    ensures { GivesNulls keys.now (found_of matches.now) result }
{
    let Some(names) = names_given(alloc, matches, "join-nulls")? else {
        return Ok(JoinNulls::All(false));
    };
    match unknown_key(alloc, keys, &names)? {
        Some(place) => Err(WordFault::NoKey(word_at(matches, place))),
        None => Ok(JoinNulls::Each(named_flags(alloc, keys, &names)?)),
    }
}

// In which keys absent fields match: in all where no key is named at some use, else in those that are named.
fn nulls_given<'a>(
    alloc: Global,
    keys: &[PlSmallStr],
    matches: &ArgMatches<'a>,
) -> Result<JoinNulls, WordFault<'a>>
    ensures { GivesNulls keys.now (found_of matches.now) result }
{
    if stands_alone(matches, "join-nulls") {
        Ok(JoinNulls::All(true))
    } else {
        named_nulls(alloc, keys, matches)
    }
}

fn join_args<'a>(
    alloc: Global,
    keys: &[PlSmallStr],
    matches: &ArgMatches<'a>,
) -> Result<JoinArgs, WordFault<'a>>
    ensures { let words = found_of matches.now in MatchResult result
        (AsksJoinArgs words keys.now)
        (λ e. keys.now ≡ left_keys words → Tells words e) }
{
    let how = how_given(matches)?;
    let validation = validation_given(matches)?;
    let coalesce = coalesce_given(matches)?;
    let maintain_order = order_given(how, matches)?;
    let slice = slice_given(matches)?;
    let suffix = text_given(alloc, matches, "suffix")?;
    let join_nulls = nulls_given(alloc, keys, matches)?;
    Ok(JoinArgs {
        how,
        validation,
        suffix,
        slice,
        join_nulls,
        coalesce,
        maintain_order,
    })
}

/// What the words of `muigratu join` ask of two tables.
///
/// # Errors
///
/// In this order: `EmptyOn`; `NoWord` of `--how`, `--validate`, `--coalesce` and `--order`, where no table has the word; `NoSlice`;
/// `NoKey`, of the first name of `--join-nulls` that is no left key. `OutOfMemory` may come at any time.
pub fn join_call<'a>(alloc: Global, matches: &ArgMatches<'a>) -> Result<JoinCall, WordFault<'a>>
    ensures { let words = found_of matches.now in
        MatchResult result (AsksJoin words) (Tells words) }
{
    let keys = on_words(matches)?;
    let left_on = names_of(alloc, Part::BeforeSign, keys)?;
    let right_on = names_of(alloc, Part::BehindSign, keys)?;
    match join_args(alloc, &left_on, matches) {
        Ok(args) => Ok(JoinCall {
            left_on,
            right_on,
            args,
        }),
        Err(fault) => Err(fault),
    }
}
