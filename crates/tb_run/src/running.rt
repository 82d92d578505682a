//! One run of the program.
ghost use Rattle.std.specs.Prelude.{◌≡◌, ◌≢◌, ◌<◌, ◌≤◌, ◌⊎◌, ◌↔◌, List, ℕ, Some, IsTrue, IfOk, string_bytes};
ghost use Rattle.std.specs.Io.KnownBytes.{Appends};
ghost use Rattle.tb_run.specs.declared.words.Command.{Command};
ghost use Rattle.tb_run.specs.declared.status.Status.{Status};
ghost use Rattle.tb_run.specs.Promise.Due.{due, IsDue, IsSampleText};
ghost use Rattle.tb_run.specs.Promise.Exactly.{Comes, TellFaults};
ghost use Rattle.tb_run.specs.Due.{DoneFor, HasText, IsCommand, IsKnown, IsValid};
ghost use Rattle.tb_run.specs.Ends.{Rose, AppendsPart};
ghost use Rattle.tb_run.specs.Reading.{CountsReads};
ghost use Rattle.tb_run.specs.Promise.Words.{form};
ghost use Rattle.tb_run.specs.Run.{IsReply};

use crate::answering::{Answer, answer_request};
use crate::ends::{Sink, Source};
use crate::never::{NeverSink, NeverSource};
use crate::reading::{Input, ReadError, read_request};
use crate::status::Status;
use crate::words::{Command, Form, form_of};
use crate::writing::{write_pieces, write_text};
use std::alloc::Global;
use std::thread::Threads;
use tb_sample::{sample, text_of_summary};
use tb_text::Text;
use tb_value::{OutOfMemory, PlSmallStr};

const USAGE: &str = "{\"error\":\"Usage\"}\n";

const TOO_LONG: &str = "{\"error\":\"TooLong\"}\n";

/// Does what the words ask, from the source to the sink, and says how that ended. A request is read
/// to its end and its answer is made whole before the first write.
pub fn run<S: Source, K: Sink>(
    rt: &(impl Threads + Sync),
    alloc: Global,
    words: &[PlSmallStr],
    source: &mut S,
    sink: &mut K,
) -> Status
    // 0 under a command: the source's bytes, read to their end, are a request that nothing refuses, and its answer was written.
    ensures done { result ≡ Status.Done → (command : Command) → form words.now ≡ Form.Reads command
        → DoneFor command (S.left source.old) (S.left source.new) (K.written sink.old) (K.written sink.new) }

    // 0, 1, 2, 3 and 7 are due for the words and the source's bytes, and the text that is due was written.
    ensures answered { HasText result → (text : List ℕ)
        × IsDue (form words.now) (S.left source.old) (S.left source.new) result text
        × Appends (K.written sink.old) (K.written sink.new) text }

    // 4: under a command, where a read failed.
    ensures read_fault { result ≡ Status.ReadFault
        → IsCommand (form words.now) × Rose (S.faults source.old) (S.faults source.new) × (sink.new ≡ sink.old) }

    // 5: where a write failed in the course of a text that is due, of which a front was written.
    ensures write_fault { result ≡ Status.WriteFault
        → Rose (K.faults sink.old) (K.faults sink.new) × ((status : Status) × (text : List ℕ)
        × IsDue (form words.now) (S.left source.old) (S.left source.new) status text
        × AppendsPart (K.written sink.old) (K.written sink.new) text) }

    // 6: at any time, but not for words of no form. Nothing was written.
    ensures out_of_memory { result ≡ Status.OutOfMemory
        → IsKnown (form words.now) × (sink.new ≡ sink.old) }

    // Counts never fall.
    ensures kept { (S.faults source.old ≤ S.faults source.new)
        × (K.faults sink.old ≤ K.faults sink.new) }

    // No read failed but under 4, and no write but under 5: counts that are exact are as they were.
    ensures reads_well { IsTrue S.is_exact → result ≢ Status.ReadFault
        → S.faults source.new ≡ S.faults source.old }
    ensures writes_well { IsTrue K.is_exact → result ≢ Status.WriteFault
        → K.faults sink.new ≡ K.faults sink.old }

    // Each status exactly where it comes, over a source that tells its bytes and counts that tell each fault, if there is memory.
    ensures exactly { TellFaults S.is_exact K.is_exact (S.faults source.new) (K.faults sink.new) → result ≢ Status.OutOfMemory
        → (bytes : List ℕ) → S.left source.old ≡ Some bytes → (status : Status)
        → (result ≡ status) ↔ Comes words.now bytes (S.faults source.old < S.faults source.new) (K.faults sink.old < K.faults sink.new) status }

    // A valid request of ends that don't fail is answered, if there is memory.
    ensures complete { IsValid (form words.now) (S.left source.old)
        → ¬ (Rose (S.faults source.old) (S.faults source.new)) → ¬ (Rose (K.faults sink.old) (K.faults sink.new))
        → (result ≡ Status.Done) ⊎ (result ≡ Status.OutOfMemory) }

    // Nothing is read for words of no form.
    ensures reads_for_a_command { IsCommand (form words.now) ⊎ (source.new ≡ source.old) }
{
    match form_of(words) {
        Form::Unknown => reply(sink, Status::Usage, USAGE),
        Form::Sample(rows) => match sampled(rt, alloc, rows) {
            Ok(text) => reply(sink, Status::Done, text.as_str()),
            Err(OutOfMemory) => Status::OutOfMemory,
        },
        Form::Reads(command) => match respond(rt, alloc, command, source) {
            Ok(answer) => reply_text(sink, answer.status, &answer.text),
            Err(ReadError::Failed) => Status::ReadFault,
            Err(ReadError::OutOfMemory) => Status::OutOfMemory,
        },
    }
}

// Reads a request and answers it.
fn respond<S: Source>(
    rt: &(impl Threads + Sync),
    alloc: Global,
    command: Command,
    source: &mut S,
) -> Result<Answer, ReadError>
    ensures due { IfOk result (λ a.
        IsDue (Form.Reads command) (S.left source.old) (S.left source.new) a.status
        a.text) }
    ensures count { CountsReads S.is_exact (S.faults source.old) (S.faults source.new) result }
{
    match read_request(alloc, source)? {
        Input::Whole(bytes) => Ok(answer_request(rt, alloc, command, bytes)?),
        Input::TooLong => Ok(Answer {
            status: Status::TooLong,
            text: Text::from_string(alloc, String::from_str(alloc, TOO_LONG)?)?,
        }),
    }
}

// The text that tells of a sample of so many rows.
fn sampled(rt: &(impl Threads + Sync), alloc: Global, rows: u32) -> Result<String, OutOfMemory>
    requires some { 1 ≤ rows }
    requires few { rows ≤ 2000000 }
    ensures { IfOk result (λ text. IsSampleText rows (string_bytes text)) }
{
    let summary = sample(rt, alloc, rows)?;
    text_of_summary(alloc, &summary)
}

// Writes a text, and answers with its status.
fn reply<K: Sink>(sink: &mut K, status: Status, text: &str) -> Status
    ensures ends { IsReply K.is_exact (K.written sink.old) (K.written sink.new) (K.faults sink.old)
        (K.faults sink.new) status text.now result }
    ensures kept { K.faults sink.old ≤ K.faults sink.new }
{
    match write_text(sink, text.as_bytes()) {
        Ok(()) => status,
        Err(_) => Status::WriteFault,
    }
}

// The same of a text in pieces.
fn reply_text<K: Sink>(sink: &mut K, status: Status, text: &Text) -> Status
    ensures ends { IsReply K.is_exact (K.written sink.old) (K.written sink.new) (K.faults sink.old)
        (K.faults sink.new) status text.now result }
    ensures kept { K.faults sink.old ≤ K.faults sink.new }
{
    match write_pieces(sink, text.pieces()) {
        Ok(()) => status,
        Err(_) => Status::WriteFault,
    }
}

/// The same over ends that never fail: the status that is due, or want of memory.
pub fn run_calm(
    rt: &(impl Threads + Sync),
    alloc: Global,
    words: &[PlSmallStr],
    bytes: Vec<u8>,
) -> Status
    ensures { (result ≡ Status.OutOfMemory)
        ⊎ ((text : List ℕ) × due words.now bytes.items result text) }
{
    let mut source = NeverSource::new(bytes);
    let mut sink = NeverSink::new();
    run(rt, alloc, words, &mut source, &mut sink)
}
