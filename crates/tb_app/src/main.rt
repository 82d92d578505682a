//! The program: a request in, a text out, and a status that says which.
#![tactic(auto)]

ghost use Rattle.std.specs.Prelude.{◌≡◌, IfOk};
ghost use Rattle.std.specs.Process.{exit_status};
ghost use Rattle.tb_run.specs.Promise.Statuses.{code_of};
ghost use Rattle.tb_app.specs.Promise.Words.{word_from};

use std::alloc::Global;
use std::env::{Env, FillError};
use std::process::ExitCode;
use tb_run::{Status, StdSink, StdSource, run};
use tb_value::{OutOfMemory, PlSmallStr};

// A longer word is none that the program knows.
const LONGEST_WORD: usize = 256;

fn main(rt: HostRuntime) -> ExitCode {
    let status = match words_given(&rt) {
        Ok(words) => {
            let mut source = StdSource::new(rt.stdin());
            let mut sink = StdSink::new(rt.stdout());
            run(&rt, rt.alloc(), &words, &mut source, &mut sink)
        }
        Err(OutOfMemory) => Status::OutOfMemory,
    };
    exit_code(status)
}

fn exit_code(status: Status) -> ExitCode
    ensures { exit_status result ≡ code_of status }
{
    ExitCode::from(status.code())
}

// The words after the program's name. The empty text stands for one that is not UTF-8.
fn words_given(rt: &(impl Env + AllocGlobal)) -> Result<Vec<PlSmallStr>, OutOfMemory> {
    let mut all = Vec::new(rt.alloc());
    for i in 1..usize::MAX {
        match word_at(rt, i)? {
            Some(word) => all.push(word)?,
            None => break,
        }
    }
    Ok(all)
}

fn word_at(rt: &(impl Env + AllocGlobal), i: usize) -> Result<Option<PlSmallStr>, OutOfMemory> {
    let mut room = [0u8; LONGEST_WORD];
    match rt.arg(i, &mut room) {
        Ok(n) => Ok(Some(word_of(rt.alloc(), &room[..n])?)),
        Err(FillError::TooLong) => Ok(Some(PlSmallStr::from_str(rt.alloc(), "")?)),
        Err(FillError::NotPresent) => Ok(None),
    }
}

// The word, or the empty text where the bytes are none.
#[tactic(auto, using(crate::proofs::WordTexts::word_of_text, crate::proofs::WordTexts::word_of_none))]
fn word_of(alloc: Global, bytes: &[u8]) -> Result<PlSmallStr, OutOfMemory>
    ensures { IfOk result (λ word. word ≡ word_from bytes.now) }
{
    match str::from_utf8(bytes) {
        Ok(text) => PlSmallStr::from_str(alloc, text),
        Err(_) => PlSmallStr::from_str(alloc, ""),
    }
}
