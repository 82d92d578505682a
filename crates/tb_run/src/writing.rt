//! Writing a text to its end.
ghost use Rattle.std.specs.Prelude.{OnOk, OnErr};
ghost use Rattle.std.specs.Io.KnownBytes.{Appends};
ghost use Rattle.tb_text.specs.Pieces.{bytes_of};
ghost use Rattle.tb_run.specs.Ends.{Counts, AppendsPart};

use crate::ends::{Failed, Sink};

pub(crate) fn write_text<K: Sink>(sink: &mut K, text: &[u8]) -> Result<(), Failed>
    ensures whole { OnOk result (Appends (K.written sink.old) (K.written sink.new) text.now) }
    ensures part { OnErr result (AppendsPart (K.written sink.old) (K.written sink.new) text.now) }
    ensures count { Counts K.is_exact (K.faults sink.old) (K.faults sink.new) result }
{
    let mut rest = text;
    while !rest.is_empty() {
        let n = sink.write(rest)?;
        rest = &rest[n..];
    }
    Ok(())
}

/// The pieces of a text, one after another.
pub(crate) fn write_pieces<K: Sink>(sink: &mut K, pieces: &[Vec<u8>]) -> Result<(), Failed>
    ensures whole { OnOk result
        (Appends (K.written sink.old) (K.written sink.new) (bytes_of pieces.now)) }
    ensures part { OnErr result
        (AppendsPart (K.written sink.old) (K.written sink.new) (bytes_of pieces.now)) }
    ensures count { Counts K.is_exact (K.faults sink.old) (K.faults sink.new) result }
{
    for piece in pieces {
        write_text(sink, piece)?;
    }
    Ok(())
}
