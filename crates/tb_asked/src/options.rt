//! How files are read and answers are written, as words say it.
ghost use Rattle.std.specs.Prelude.{◌≡◌, ◌≤◌, [], codes, map, unwrap_or, IfOk, MatchResult, None, Some};
ghost use Rattle.clap.specs.Matches.{first_value, found_of};
ghost use Rattle.tb_pool.specs.declared.exec.TheConstants.{MAX_WORKERS};
ghost use Rattle.tb_words.specs.Words.{given_words};
ghost use Rattle.tb_asked.specs.Faults.{IsNoType, IsTypeFault, Tells};
ghost use Rattle.tb_asked.specs.Options.{form_meant, form_word, separator_asked, type_given, type_named, typed_name, AreTyped, AskTypes, AsksCsv, AsksOptions, IsThreadsOf, IsWidthOf};

use clap::ArgMatches;
use std::alloc::Global;
use tb_csv::{CsvOptions, FieldType, TypeOf};
use tb_frame::check_repeated;
use tb_front::{TextForm, TextOptions};
use tb_pool::{Exec, MAX_WORKERS};
use tb_value::{OutOfMemory, PlSmallStr, PolarsError};
use tb_words::{Choice, WordFault, separator_of, threads_of, width_of};

/// What a command runs on.
#[derive(Clone, Copy)]
pub struct Host {
    /// How many columns the screen has that the answer goes to, if it goes to one.
    pub screen: Option<usize>,
    /// Whether somebody at a terminal reads standard error.
    pub attended: bool,
    /// How many processors there are.
    pub processors: u32,
}

fn type_named(word: &str) -> Option<FieldType>
    ensures { result ≡ type_named word.now }
{
    match word {
        "bool" => Some(FieldType::Boolean),
        "i8" => Some(FieldType::Int8),
        "i16" => Some(FieldType::Int16),
        "i32" => Some(FieldType::Int32),
        "i64" => Some(FieldType::Int64),
        "i128" => Some(FieldType::Int128),
        "u8" => Some(FieldType::UInt8),
        "u16" => Some(FieldType::UInt16),
        "u32" => Some(FieldType::UInt32),
        "u64" => Some(FieldType::UInt64),
        "str" => Some(FieldType::String),
        "date" => Some(FieldType::Date),
        _ => None,
    }
}

// The type is the part behind the last `=`, so that a name may have one.
fn type_of_word<'a>(alloc: Global, word: &'a str) -> Result<TypeOf, WordFault<'a>>
    ensures { MatchResult result (λ t. Some (typed_name t) ≡ type_given word.entry.now)
        (IsNoType word.entry) }
{
    let Some((name, type_name)) = word.rsplit_once('=') else {
        return Err(WordFault::NoType(word));
    };
    match type_named(type_name) {
        Some(field_type) => Ok(TypeOf {
            name: PlSmallStr::from_str(alloc, name)?,
            field_type,
        }),
        None => Err(WordFault::NoType(word)),
    }
}

fn types_of<'a>(alloc: Global, words: Option<&[&'a str]>) -> Result<Vec<TypeOf>, WordFault<'a>>
    ensures { let given = unwrap_or (given_words words.entry) [] in
        MatchResult result (λ v. AreTyped given v.items) (IsTypeFault given) }
{
    let mut types = Vec::new(alloc);
    for word in words.unwrap_or(&[]) {
        types.push(type_of_word(alloc, word)?)?;
    }
    Ok(types)
}

fn names_in(alloc: Global, types: &[TypeOf]) -> Result<Vec<PlSmallStr>, OutOfMemory>
    ensures { IfOk result (λ v. v.items ≡ map (λ t. t.name) types.now) }
{
    let mut names = Vec::with_capacity(alloc, types.len())?;
    for given in types {
        names.push(given.name.copy(alloc)?)?;
    }
    Ok(names)
}

// The name of this text, as a word has it.
fn name_among<'a>(words: Option<&[&'a str]>, name: &PlSmallStr) -> &'a str {
    for word in words.unwrap_or(&[]) {
        if let Some((given, _)) = word.rsplit_once('=') {
            if given == name.as_str() {
                return given;
            }
        }
    }
    ""
}

// The types that are given, of which no two are for one name.
fn types_given<'a>(alloc: Global, matches: &ArgMatches<'a>) -> Result<Vec<TypeOf>, WordFault<'a>>
    ensures { let words = found_of matches.now in
        MatchResult result (λ v. AskTypes words v.items) (Tells words) }
{
    let words = matches.get_strs("types");
    let types = types_of(alloc, words)?;
    let names = names_in(alloc, &types)?;
    match check_repeated(alloc, &names) {
        Ok(()) => Ok(types),
        Err(PolarsError::Duplicate(name)) => Err(WordFault::TypedTwice(name_among(words, &name))),
        Err(_) => Err(WordFault::OutOfMemory),
    }
}

fn separator_given<'a>(matches: &ArgMatches<'a>) -> Result<u8, WordFault<'a>>
    ensures { let words = found_of matches.now in
        MatchResult result (λ b. separator_asked words ≡ Some b) (Tells words) }
{
    let Some(word) = matches.get_str("separator") else {
        return Ok(b',');
    };
    separator_of(word).ok_or(WordFault::NoSeparator(word))
}

// The width that is given, or that of the screen, or one that cuts nothing.
fn width_given<'a>(screen: Option<usize>, matches: &ArgMatches<'a>) -> Result<usize, WordFault<'a>>
    ensures { let words = found_of matches.now in
        MatchResult result (IsWidthOf screen (first_value words (codes "width"))) (Tells words) }
{
    let Some(word) = matches.get_str("width") else {
        return Ok(screen.unwrap_or(usize::MAX));
    };
    width_of(word).ok_or(WordFault::NoWidth(word))
}

fn form_word(width: usize, word: &str) -> Option<TextForm>
    ensures { result ≡ form_word width word.now }
{
    match word {
        "csv" => Some(TextForm::Csv),
        "json" => Some(TextForm::Json),
        "table" => Some(TextForm::Layout(width)),
        _ => None,
    }
}

fn form_given<'a>(width: usize, matches: &ArgMatches<'a>) -> Result<TextForm, WordFault<'a>>
    ensures { let words = found_of matches.now in
        MatchResult result (λ v. form_meant width words ≡ Some v) (Tells words) }
{
    let Some(word) = matches.get_str("as") else {
        return Ok(TextForm::Csv);
    };
    form_word(width, word).ok_or(WordFault::NoWord(Choice::Form, word))
}

// One for each processor, as far as a call takes so many.
fn threads_for(processors: u32) -> u32
    ensures { IsThreadsOf processors None result }
{
    processors.clamp(1, MAX_WORKERS)
}

// The number of threads that is given, or one for each processor.
fn threads_given<'a>(processors: u32, matches: &ArgMatches<'a>) -> Result<u32, WordFault<'a>>
    ensures { let words = found_of matches.now in MatchResult result
        (IsThreadsOf processors (first_value words (codes "threads"))) (Tells words) }
{
    let Some(word) = matches.get_str("threads") else {
        return Ok(threads_for(processors));
    };
    threads_of(word).ok_or(WordFault::NoThreads(word))
}

// Work for so many threads, in twice as many parts, so that none waits long for another.
fn exec_for(threads: u32) -> Exec
    requires { (1 ≤ threads) × (threads ≤ MAX_WORKERS) }
    ensures { result.workers ≡ threads }
{
    let standard = Exec::standard();
    let partitions = (threads * 2).clamp(8, MAX_WORKERS);
    match Exec::new(threads, partitions, standard.small(), 1, 1) {
        Ok(exec) => exec,
        Err(_) => standard,
    }
}

/// How files are read.
///
/// # Errors
///
/// In this order: `NoSeparator`; `NoType`, of the first word of `--types` that is none; `TypedTwice`, of the first name that stands
/// twice there. `OutOfMemory` may come at any time.
pub fn csv_options<'a>(alloc: Global, matches: &ArgMatches<'a>) -> Result<CsvOptions, WordFault<'a>>
    ensures { let words = found_of matches.now in
        MatchResult result (AsksCsv words) (Tells words) }
{
    let separator = separator_given(matches)?;
    let types = types_given(alloc, matches)?;
    Ok(CsvOptions { separator, types })
}

/// How files are read, the form of the answer, and how many threads work on it. Tables for people are as wide as the screen where no
/// width is given, if there is one.
///
/// # Errors
///
/// In this order: `NoWidth`; `NoWord` of `--as`, where no table has the word; `NoThreads`; those of `csv_options`. `OutOfMemory` may
/// come at any time.
pub fn text_options<'a>(
    alloc: Global,
    host: &Host,
    matches: &ArgMatches<'a>,
) -> Result<TextOptions, WordFault<'a>>
    ensures { let words = found_of matches.now in
        MatchResult result (AsksOptions host.now words) (Tells words) }
{
    let width = width_given(host.screen, matches)?;
    let form = form_given(width, matches)?;
    let exec = exec_for(threads_given(host.processors, matches)?);
    let csv = csv_options(alloc, matches)?;
    Ok(TextOptions { csv, form, exec })
}
