//! The command that groups a table that lies in a file.

use crate::files::read_text;
use clap::ArgMatches;
use std::alloc::Global;
use std::io::Input;
use std::rt::Files;
use std::thread::Threads;
use tb_asked::group_call;
use tb_front::TextOptions;
use tb_group_front::group_text;
use tb_sentences::{Failure, text_or_failure};
use tb_text::Text;
use tb_words::needed;

/// The text of the groups of the table that the words name.
pub(crate) fn grouped<'a>(
    rt: &(impl Files + Input + Threads + Sync),
    alloc: Global,
    options: &TextOptions,
    matches: &ArgMatches<'a>,
) -> Result<Text, Failure<'a>> {
    let file = needed(matches, "TABLE")?;
    let call = group_call(alloc, matches)?;
    let text = read_text(rt, alloc, file)?;
    text_or_failure(&[file], group_text(rt, alloc, text, &call, options))
}
