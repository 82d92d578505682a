//! The command that tells why the text of a file is no request.

use crate::files::{read_json, write_text};
use clap::ArgMatches;
use std::alloc::Global;
use std::io::Input;
use std::rt::Files;
use tb_sentences::Failure;
use tb_text::Text;
use tb_why::{command_named, why_not};
use tb_why_told::FaultSentence;
use tb_words::{Choice, WordFault, needed};

/// Tells whether the file holds a request of the command, or why not and where. The status is 0 or 3.
pub(crate) fn tell_why<'a>(
    rt: &(impl Files + Input + Print),
    alloc: Global,
    matches: &ArgMatches<'a>,
) -> Result<u8, Failure<'a>> {
    let word = needed(matches, "COMMAND")?;
    let Some(command) = command_named(word) else {
        return Err(Failure::Words(WordFault::NoWord(Choice::Command, word)));
    };
    let file = needed(matches, "REQUEST")?;
    let text = read_json(rt, alloc, file)?;
    match why_not(alloc, command, &text)? {
        Some(fault) => {
            let sentence = format!(in alloc; "not a request: {}\n", FaultSentence(&fault))?;
            write_text(rt, alloc, None, &Text::from_string(alloc, sentence)?)?;
            Ok(3)
        }
        None => {
            let sentence = format!(in alloc; "a request of {word}\n")?;
            write_text(rt, alloc, None, &Text::from_string(alloc, sentence)?)?;
            Ok(0)
        }
    }
}
