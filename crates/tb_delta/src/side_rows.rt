//! The rows of one side.

use crate::key::RowKey;
use std::collections::BTreeMap;
use tb_value::{AnyValue, Field, PlSmallStr};

// A row, and beside it its key, by which its group is found in no memory.
#[derive(Drop)]
pub(crate) struct StoredRow {
    pub key: RowKey,
    pub values: Vec<AnyValue>,
}

// The columns, the name and the place of the key, the rows under their ids, and how many there ever were.
#[derive(Drop)]
pub(crate) struct SideRows {
    pub columns: Vec<Field>,
    pub on: PlSmallStr,
    pub key: usize,
    pub rows: BTreeMap<u32, StoredRow>,
    pub ever: u32,
}
