//! How many pairs of rows match.
ghost use Rattle.std.specs.Prelude.{◌≡◌, length, nat_lt, sum_by};
ghost use Rattle.std.specs.BTreeMap.{values};
ghost use Rattle.tb_value.specs.declared.error.Side.{Side};
ghost use Rattle.tb_value.specs.declared.limits.TheConstants.{MAX_ROWS};
ghost use Rattle.tb_delta.specs.Groups.{ids_at};
ghost use Rattle.tb_delta.specs.declared.side_rows.StoredRow.{StoredRow};

use crate::groups::Groups;
use crate::side_rows::SideRows;
use tb_value::{MAX_ROWS, Side};

/// Whether more ids of right rows stand under the keys of the left rows than a table may have rows. It takes no memory.
pub(crate) fn are_too_many(left: &SideRows, groups: &Groups) -> bool
    ensures { result
        ≡ nat_lt MAX_ROWS
        (sum_by (λ (s : StoredRow). length (ids_at groups.now Side.Right s.key))
        (values left.now.rows)) }
{
    let mut pairs = 0;
    for row in left.rows.values() {
        pairs += groups.ids(Side::Right, &row.key).len();
        if pairs > MAX_ROWS {
            return true;
        }
    }
    false
}
