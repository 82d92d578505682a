//! What is told of a table: its height, and the sums of two columns.
ghost use Rattle.std.specs.Prelude.{◌≡◌, ◌<◌, ◌≤◌, IfOk, None, codes, get_or, length, map, pos, string_bytes, unwrap_or};
ghost use Rattle.std.specs.List.{find};
ghost use Rattle.std.specs.Option.{option_copied};
ghost use Rattle.tb_value.specs.Promise.Datum.{int};
ghost use Rattle.tb_value.specs.Promise.Kind.{int64};
ghost use Rattle.tb_value.specs.Promise.Names.{same_name};
ghost use Rattle.tb_chunk.specs.Chunk.{or_null};
ghost use Rattle.tb_chunk.specs.Promise.Col.{Col, concatenation, values};
ghost use Rattle.tb_agg.specs.Promise.Aggregates.{total};
ghost use Rattle.tb_frame.specs.Promise.Table.{table_of};
ghost use Rattle.tb_sample.specs.Bounds.{IsSumOf};
ghost use Rattle.tb_sample.specs.Promise.Sample.{sum_of, summary, text_of_summary};
ghost use Rattle.tb_sample.specs.Sample.{HasNumbers};

use std::alloc::Global;
use tb_frame::DataFrame;
use tb_store::{Cells, Chunks, Column, Series};
use tb_value::{MAX_ROWS, OutOfMemory};

/// What is told of a table with columns `key` and `w`.
#[derive(Clone, Copy, PartialEq, Eq, Debug)]
pub struct Summary {
    /// The number of rows.
    pub height: usize,
    /// The sum of `key`.
    pub key_sum: i128,
    /// The sum of `w`.
    pub w_sum: i128,
}

// The number of a row, 0 where there is none.
fn number_at(cells: &Cells<i64>, row: usize) -> i64
    requires { row < length cells.now }
    ensures { result ≡ unwrap_or (get_or cells.now row None) (pos 0) }
{
    match cells.get(row) {
        Some(number) => *number,
        None => 0,
    }
}

fn cells_sum(cells: &Cells<i64>) -> i128
    requires { length cells.now ≤ MAX_ROWS }
    ensures sum { result ≡ total (map (or_null int) cells.now) }
    ensures near { IsSumOf (length cells.now) result }
{
    let mut sum = 0;
    for row in 0..cells.len() {
        sum += i128::from(number_at(cells, row));
    }
    sum
}

fn chunks_sum(chunks: &[Cells<i64>]) -> i128
    requires { length (concatenation (map (λ c. map (or_null int) c) chunks.now)) ≤ MAX_ROWS }
    ensures { result ≡ total (concatenation (map (λ c. map (or_null int) c) chunks.now)) }
{
    let mut sum = 0;
    for chunk in chunks {
        sum += cells_sum(chunk);
    }
    sum
}

fn column_sum(column: &Series) -> i128
    requires { column.now.kind ≡ int64 }
    ensures { result ≡ total (values column.now) }
{
    let _len = column.len();
    match column.chunks() {
        Chunks::Int64Type(chunks) => chunks_sum(chunks),
        _ => unreachable!(),
    }
}

fn find_column<'a>(columns: &'a [Column], name: &str) -> Option<&'a Column>
    ensures { option_copied result ≡ find (λ (c : Col). same_name c.name name.now) columns.now }
{
    columns.iter().find(|column| column.name().as_str() == name)
}

fn sum_of(table: &DataFrame, name: &str) -> i128
    requires { HasNumbers name.now (table_of table.now) }
    ensures { result ≡ sum_of name.now (table_of table.now) }
{
    match find_column(table.get_columns(), name) {
        Some(column) => column_sum(column.as_materialized_series()),
        None => 0,
    }
}

/// What is told of the table.
pub(crate) fn summary_of(table: &DataFrame) -> Summary
    requires key { HasNumbers (codes "key") (table_of table.now) }
    requires w { HasNumbers (codes "w") (table_of table.now) }
    ensures { result ≡ summary (table_of table.now) }
{
    Summary {
        height: table.height(),
        key_sum: sum_of(table, "key"),
        w_sum: sum_of(table, "w"),
    }
}

/// The text `{"height":H,"key_sum":K,"w_sum":W}`, with the newline that ends it.
#[tactic(auto, unfolding(crate::specs::Promise::Sample::text_of_summary))]
pub fn text_of_summary(alloc: Global, summary: &Summary) -> Result<String, OutOfMemory>
    ensures { IfOk result (λ s. string_bytes s ≡ text_of_summary summary.now) }
{
    let (height, key_sum, w_sum) = (summary.height, summary.key_sum, summary.w_sum);
    Ok(format!(in alloc; "{{\"height\":{height},\"key_sum\":{key_sum},\"w_sum\":{w_sum}}}\n")?)
}
