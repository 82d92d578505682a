//! How a text is read.

use crate::field_type::FieldType;
use tb_value::PlSmallStr;

/// The type that the fields of the column of a name are read as.
#[derive(Debug, Drop)]
pub struct TypeOf {
    pub name: PlSmallStr,
    pub field_type: FieldType,
}

/// How a text is read.
#[derive(Drop)]
pub struct CsvOptions {
    /// The byte between two fields.
    pub separator: u8,
    /// Types of columns; the first counts where a name has several. A name that no column has changes nothing.
    pub types: Vec<TypeOf>,
}
