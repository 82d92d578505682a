//! The records of a text, of which each piece is read by a thread of its own.
ghost use Rattle.std.specs.Prelude.{◌≡◌, ◌≢◌, ◌<◌, ◌≤◌, List, [], ◌∷◌, None, IfOk, OnOk};
ghost use Rattle.std.specs.List.{AllZip, flat_map};
ghost use Rattle.csv.specs.Machine.{line_feed};
ghost use Rattle.tb_value.specs.declared.limits.TheConstants.{MAX_ROWS};
ghost use Rattle.tb_csv.specs.Promise.Faults.{text_fault};
ghost use Rattle.tb_csv.specs.Read.{AreRunsFrom, IsLevel, IsRead, rows_in};
ghost use Rattle.tb_csv.specs.Promise.Records.{Record, line_of, records_of};

use crate::cuts::{cut, pieces_of};
use crate::fault::CsvFault;
use crate::lines::check_height;
use crate::records::Records;
use crate::run::Run;
use crate::runs::runs_of;
use crate::whole::records_of_whole;
use rayon::prelude::*;
use std::alloc::Global;
use std::thread::Threads;
use tb_value::{OutOfMemory, PlSmallStr};

// The names that the line before the rows has, or a fault where it is no record of names.
fn names_of(alloc: Global, line: &[u8], separator: u8) -> Result<Vec<PlSmallStr>, CsvFault>
    ensures sound { OnOk result (text_fault separator line.now ≡ None) }
    ensures names { IfOk result (λ names. (r : Record) × (records_of separator line.now ≡ r ∷ [])
        × (names.items ≡ line_of r)) }
{
    let head = records_of_whole(alloc, line, separator)?;
    if head.height == 0 {
        Ok(head.names)
    } else {
        Err(CsvFault::Empty)
    }
}

// The rows of each piece, side by side.
fn runs_of_each(
    rt: &(impl Threads + Sync),
    alloc: Global,
    pieces: &[&[u8]],
    separator: u8,
    width: usize,
) -> Result<Vec<Vec<Run>>, CsvFault>
    ensures { IfOk result (λ v.
        AllZip (λ p r. AreRunsFrom separator width p.now r.items) pieces.now v.items) }
{
    pieces
        .par_iter()
        .with_min_len(1)
        .map(
            |piece: &&[u8]| -> Result<Vec<Run>, CsvFault>
                ensures { IfOk result (λ r.
                    AreRunsFrom separator width piece.now.now r.items) }
            { runs_of(alloc, piece, separator, width) },
        )
        .collect(rt, alloc)?
}

// The runs of all pieces, one behind another.
fn in_one_list(alloc: Global, parts: Vec<Vec<Run>>) -> Result<Vec<Run>, OutOfMemory>
    ensures { IfOk result (λ v. v.items ≡ flat_map (λ p. p.items) parts.items) }
{
    let mut runs = Vec::new(alloc);
    for mut part in parts {
        runs.append(&mut part)?;
    }
    Ok(runs)
}

// How many rows there are.
fn height_of(runs: &[Run]) -> Result<usize, CsvFault>
    ensures { IfOk result (λ height. (height ≡ rows_in runs.now) × (height ≤ MAX_ROWS)) }
{
    let mut height = 0usize;
    for run in runs {
        height = height.saturating_add(run.height);
        check_height(height)?;
    }
    Ok(height)
}

/// What `records_of_csv` gives, where pieces of so many bytes at least are read side by side. Where the text has a fault, or one of
/// its pieces begins in quotes, some fault is told, and not the first.
pub(crate) fn records_of_pieces(
    rt: &(impl Threads + Sync),
    alloc: Global,
    text: &[u8],
    separator: u8,
    least: usize,
) -> Result<Records, CsvFault>
    requires separator { separator ≢ line_feed }
    requires some { 0 < least }
    ensures sound { OnOk result (text_fault separator text.now ≡ None) }
    ensures read { IfOk result (λ r. IsRead r (records_of separator text.now)) }
    ensures level { IfOk result (λ r. IsLevel r) }
{
    let (line, rows) = cut(text, 0);
    let names = names_of(alloc, line, separator)?;
    let pieces = pieces_of(alloc, rows, least)?;
    let runs = runs_of_each(rt, alloc, &pieces, separator, names.len())?;
    let runs = in_one_list(alloc, runs)?;
    let height = height_of(&runs)?;
    Ok(Records {
        names,
        runs,
        height,
    })
}
