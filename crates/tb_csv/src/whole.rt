//! The records of a text, found by one pass over it.
ghost use Rattle.std.specs.Prelude.{◌≡◌, ◌*◌, ◌≤◌, Bool, List, drop, length, IfOk};
ghost use Rattle.csv.specs.Records.{fields_of};
ghost use Rattle.tb_value.specs.declared.limits.TheConstants.{MAX_ROWS};
ghost use Rattle.tb_csv.specs.Promise.Faults.{text_fault};
ghost use Rattle.tb_csv.specs.Faults.{Settles};
ghost use Rattle.tb_csv.specs.Places.{MarkAlike};
ghost use Rattle.tb_csv.specs.Read.{AreLines, IsLevel, IsRead};
ghost use Rattle.tb_csv.specs.Promise.Records.{Line, marked_records, records_of};

use crate::fault::CsvFault;
use crate::lines::{Lines, read_lines};
use crate::marks::marks_of;
use crate::records::Records;
use crate::run::{Run, RunFields, TextFields};
use std::alloc::Global;
use tb_value::OutOfMemory;

// The marks behind the first so many.
fn marks_behind(alloc: Global, marks: &[bool], count: usize) -> Result<Vec<bool>, OutOfMemory>
    ensures { IfOk result (λ v. v.items ≡ drop count marks.now) }
{
    if marks.len() < count {
        Ok(Vec::new(alloc))
    } else {
        Ok(Vec::from_slice(alloc, &marks[count..])?)
    }
}

// Names and rows with the marks of all their fields.
fn marked_lines(alloc: Global, lines: Lines, marks: &[bool]) -> Result<Records, OutOfMemory>
    requires full { length (fields_of lines.fields) ≡ lines.height * length lines.names.items }
    requires few { lines.height ≤ MAX_ROWS }
    ensures read { (qs : List Bool) (ls : List Line) → MarkAlike marks.now qs → AreLines lines ls
        → IfOk result (λ r. IsRead r (marked_records qs ls)) }
    ensures level { IfOk result (λ r. IsLevel r) }
{
    let Lines {
        names,
        fields,
        height,
    } = lines;
    let marks = marks_behind(alloc, marks, names.len())?;
    let mut runs = Vec::with_capacity(alloc, 1)?;
    let fields = RunFields::Rows(TextFields { fields, marks });
    runs.push(Run { fields, height })?;
    Ok(Records {
        names,
        runs,
        height,
    })
}

/// What `records_of_csv` gives, found by one pass over the text.
pub(crate) fn records_of_whole(
    alloc: Global,
    text: &[u8],
    separator: u8,
) -> Result<Records, CsvFault>
    ensures settles { Settles result (text_fault separator text.now) }
    ensures read { IfOk result (λ r. IsRead r (records_of separator text.now)) }
    ensures level { IfOk result (λ r. IsLevel r) }
{
    let marks = marks_of(alloc, text, separator)?;
    if marks.is_open {
        return Err(CsvFault::OpenQuote);
    }
    let lines = read_lines(alloc, text, separator)?;
    Ok(marked_lines(alloc, lines, &marks.marks)?)
}
