//! Tables read from texts of comma-separated values, and written to them.
#![tactic(auto)]

mod cells;
mod columns;
mod cuts;
mod digits;
mod fault;
mod field_column;
mod field_columns;
mod field_text;
mod field_type;
mod fields;
mod in_pieces;
mod keys;
pub mod laws;
mod lent;
mod line_numbers;
mod lines;
mod marks;
mod numbers;
mod options;
mod pieces;
mod plain;
mod read;
mod reading;
mod records;
mod row_field;
mod rows;
mod run;
mod runs;
mod spans;
mod table;
mod text;
mod whole;

pub use fault::CsvFault;
pub use field_type::FieldType;
pub use keys::types_with_keys;
pub use line_numbers::fault_line;
pub use options::{CsvOptions, TypeOf};
pub use pieces::push_rows;
pub use read::{records_of_csv, records_of_two};
pub use records::Records;
pub use table::{table_of_csv, table_of_records};
pub use text::csv_of_table;
