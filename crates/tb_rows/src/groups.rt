//! The groups of rows.
ghost use Rattle.std.specs.Prelude.{◌≡◌, ◌≤◌, ◌<◌, All, IfOk, length};
ghost use Rattle.tb_numbered.specs.Numbered.{grouped_rows, numbered_rows, row_from};

use std::alloc::Global;
use tb_numbered::{RowsByNumber, rows_by_number};
use tb_value::{IdxSize, MAX_ROWS, OutOfMemory};

/// Rows in groups, in the order of the groups' first rows.
#[derive(Drop)]
pub struct Groups {
    firsts: Vec<IdxSize>,
    numbers: Vec<IdxSize>,
    members: RowsByNumber,
    ghost whole: { members ≡ grouped_rows (row_from 0) numbers.items (length firsts.items) },
}

impl Groups {
    /// The groups with these first rows, where each row has the number of one.
    pub(crate) fn of_numbers(
        alloc: Global,
        firsts: Vec<IdxSize>,
        numbers: Vec<IdxSize>,
    ) -> Result<Groups, OutOfMemory>
        requires below { All (λ k. k < length firsts.items) numbers.items }
        requires few { length numbers.items ≤ MAX_ROWS }
        requires fewer { length firsts.items ≤ MAX_ROWS }
        ensures firsts { IfOk result (λ g. g.firsts.items ≡ firsts.items) }
        ensures numbers { IfOk result (λ g. g.numbers.items ≡ numbers.items) }
    {
        let members = rows_by_number(alloc, &numbers, firsts.len() as u32, 0)?;
        Ok(Groups {
            firsts,
            numbers,
            members,
        })
    }

    /// How many groups there are.
    pub fn len(&self) -> usize
        ensures { result ≡ length self.now.firsts.items }
    {
        self.firsts.len()
    }

    /// The first row of each group.
    pub fn firsts(&self) -> &[IdxSize]
        ensures { result.now ≡ self.now.firsts.items }
    {
        &self.firsts
    }

    /// For each row the place of its group among the groups.
    pub fn numbers(&self) -> &[IdxSize]
        ensures { result.now ≡ self.now.numbers.items }
    {
        &self.numbers
    }

    /// The rows of a group, ascending.
    pub fn rows(&self, group: usize) -> &[IdxSize]
        requires { group < length self.now.firsts.items }
        ensures { result.now ≡ numbered_rows self.now.numbers.items group }
    {
        self.members.rows(group)
    }
}
