//! What a join over texts tells on its way.

use tb_join::JoinTrace;

/// Who is told how far a join of texts is. No answer depends on it.
pub trait Watch: Drop {
    /// Both texts are read: they are tables of so many rows.
    fn read(&mut self, left: usize, right: usize);

    /// The tables are joined, to one of so many rows, and this is how it went.
    fn joined(&mut self, rows: usize, trace: &JoinTrace);
}
