//! The files of the tables that a plan names.
ghost use Rattle.std.specs.Prelude.{◌≡◌, [], map, unwrap_or, IfOk, MatchResult, Some};
ghost use Rattle.clap.specs.Matches.{found_of};
ghost use Rattle.tb_words.specs.Words.{given_words};
ghost use Rattle.tb_asked.specs.Faults.{IsFileFault, IsNoFile, Tells};
ghost use Rattle.tb_asked.specs.Plans.{file_named, named_file, AskFiles};

use clap::ArgMatches;
use std::alloc::Global;
use tb_frame::check_repeated;
use tb_value::{OutOfMemory, PlSmallStr, PolarsError};
use tb_words::{Part, WordFault, name_in};

/// A file under the name that a plan has for its table.
#[derive(Drop)]
pub struct NamedFile<'a> {
    pub name: PlSmallStr,
    pub file: &'a str,
}

// The name is the part before the first `=`.
fn file_of<'a>(alloc: Global, word: &'a str) -> Result<NamedFile<'a>, WordFault<'a>>
    ensures { MatchResult result (λ f. Some (named_file f) ≡ file_named word.entry.now)
        (IsNoFile word.entry) }
{
    let Some((name, file)) = word.split_once('=') else {
        return Err(WordFault::NoNamedFile(word));
    };
    Ok(NamedFile {
        name: PlSmallStr::from_str(alloc, name)?,
        file,
    })
}

fn files_of<'a>(
    alloc: Global,
    words: Option<&[&'a str]>,
) -> Result<Vec<NamedFile<'a>>, WordFault<'a>>
    ensures { let given = unwrap_or (given_words words.entry) [] in MatchResult result
        (λ v. map Some (map named_file v.items) ≡ map file_named given) (IsFileFault given) }
{
    let mut files = Vec::new(alloc);
    for word in words.unwrap_or(&[]) {
        files.push(file_of(alloc, word)?)?;
    }
    Ok(files)
}

fn names_in(alloc: Global, files: &[NamedFile<'_>]) -> Result<Vec<PlSmallStr>, OutOfMemory>
    ensures { IfOk result (λ v. v.items ≡ map (λ f. f.name) files.now) }
{
    let mut names = Vec::with_capacity(alloc, files.len())?;
    for file in files {
        names.push(file.name.copy(alloc)?)?;
    }
    Ok(names)
}

// The name of this text, as a word has it.
fn name_among<'a>(words: Option<&[&'a str]>, name: &PlSmallStr) -> &'a str {
    for word in words.unwrap_or(&[]) {
        let given = name_in(Part::BeforeSign, word);
        if given == name.as_str() {
            return given;
        }
    }
    ""
}

/// The files of a plan's tables, of which no two have one name.
///
/// # Errors
///
/// In this order: `NoNamedFile`, of the first word without `=`; `NamedTwice`, of the first name that stands twice. `OutOfMemory` may
/// come at any time.
pub fn named_files<'a>(
    alloc: Global,
    matches: &ArgMatches<'a>,
) -> Result<Vec<NamedFile<'a>>, WordFault<'a>>
    ensures { let words = found_of matches.now in
        MatchResult result (λ v. AskFiles words v.items) (Tells words) }
{
    let words = matches.get_strs("TABLES");
    let files = files_of(alloc, words)?;
    let names = names_in(alloc, &files)?;
    match check_repeated(alloc, &names) {
        Ok(()) => Ok(files),
        Err(PolarsError::Duplicate(name)) => Err(WordFault::NamedTwice(name_among(words, &name))),
        Err(_) => Err(WordFault::OutOfMemory),
    }
}
