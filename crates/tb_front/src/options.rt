//! How texts are read and written, and how work is run.

use tb_csv::CsvOptions;
use tb_pool::Exec;

/// The form that an answer is written in.
#[derive(Clone, Copy)]
pub enum TextForm {
    /// Comma-separated values, with the separator that the texts are read with.
    Csv,
    /// JSON, as `tb_json` writes a table.
    Json,
    /// Lines for people, as `tb_layout` lays a table out on a terminal of this many columns.
    Layout(usize),
}

/// How texts are read, the form of the answer, and how what is made of tables is run, on which no answer depends.
#[derive(Drop)]
pub struct TextOptions {
    pub csv: CsvOptions,
    pub form: TextForm,
    pub exec: Exec,
}
