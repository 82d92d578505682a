//! Whether keys stand on two rows.
ghost use Rattle.std.specs.Prelude.{◌≡◌, ◌≤◌, length, IfOk};
ghost use Rattle.tb_build.specs.Keys.{key_twins};

use crate::keys::KeyCode;
use crate::lent::KeyList;
use crate::packed::packed_table;
use std::alloc::Global;
use tb_value::{MAX_ROWS, OutOfMemory};

/// Whether a key of the list matches one before it; absent ones match where `join_nulls` says so. All keys are put
/// into one table.
pub fn have_twins<K: KeyCode, L: KeyList<K>>(
    alloc: Global,
    list: &L,
    join_nulls: bool,
) -> Result<bool, OutOfMemory>
    requires { length (L.list list.now) ≤ MAX_ROWS }
    ensures { IfOk result (λ b. b ≡ key_twins K.eq join_nulls (L.list list.now)) }
{
    let len = list.len();
    let table = packed_table(alloc, list, len)?;
    if table.has_twins() {
        return Ok(true);
    }
    Ok(join_nulls && table.bare_rows().len() > 1)
}
