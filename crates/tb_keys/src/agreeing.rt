//! Whether the keys of two rows match.
ghost use Rattle.std.specs.Prelude.{◌≡◌, ◌<◌};
ghost use Rattle.tb_value.specs.Promise.Datum.{is_null};
ghost use Rattle.tb_value.specs.See.{lent_value};
ghost use Rattle.tb_value.specs.Promise.Same.{agrees};
ghost use Rattle.tb_frame.specs.Promise.Join.{matches};
ghost use Rattle.tb_frame.specs.Promise.Table.{table_of, height};
ghost use Rattle.tb_keys.specs.Asked.{asked_request};

use crate::request::LentRequest;
use tb_value::{ValueRef, same_value};

/// Whether the value is absent.
pub(crate) fn is_null(value: ValueRef<'_>) -> bool
    ensures { result ≡ is_null (lent_value value.entry) }
{
    matches!(value, ValueRef::Null)
}

// Whether two fields agree: both are there and the same, or both are absent where absent ones match.
fn agree(null_matches: bool, first: ValueRef<'_>, second: ValueRef<'_>) -> bool
    ensures { result ≡ agrees null_matches (lent_value first.entry) (lent_value second.entry) }
{
    if is_null(first) {
        is_null(second) && null_matches
    } else {
        !is_null(second) && same_value(first, second)
    }
}

/// Whether a left row and a right row match.
pub(crate) fn rows_match(request: &LentRequest<'_>, i: usize, j: usize) -> bool
    requires left { i < height (table_of request.now.left.now) }
    requires right { j < height (table_of request.now.right.now) }
    ensures { result ≡ matches (asked_request request.now) i j }
{
    for p in 0..request.places() {
        let left = request.left_keys[p].get(i);
        let right = request.right_keys[p].get(j);
        if !agree(request.args.join_nulls.flag_at(p), left, right) {
            return false;
        }
    }
    true
}
