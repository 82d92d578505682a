//! Whether two tables can be joined by two keys.
ghost use Rattle.std.specs.Prelude.{◌≡◌, ◌∷◌, []};
ghost use Rattle.tb_value.specs.Refusals.{Settles};
ghost use Rattle.tb_frame.specs.Join.{lent_request};
ghost use Rattle.tb_frame.specs.Promise.Table.{table_of};
ghost use Rattle.tb_delta.specs.Promise.Now.{columns_refusal, kept_args};

use std::alloc::Global;
use tb_frame::{
    DataFrame, JoinArgs, JoinCoalesce, JoinNulls, JoinType, JoinValidation, MaintainOrderJoin,
};
use tb_keys::{NamedRequest, check_columns};
use tb_value::{PlSmallStr, PolarsResult};

/// The join that a view keeps: Inner, by the left rows and then the right ones, with nothing else asked.
pub(crate) fn kept_args(join_nulls: bool) -> JoinArgs
    ensures { result ≡ kept_args join_nulls }
{
    JoinArgs {
        how: JoinType::Inner,
        validation: JoinValidation::ManyToMany,
        suffix: None,
        slice: None,
        join_nulls: JoinNulls::All(join_nulls),
        coalesce: JoinCoalesce::JoinSpecific,
        maintain_order: MaintainOrderJoin::LeftRight,
    }
}

/// Refuses, in this order, a key that is no column of its table (ColumnNotFound), the left one first, keys of two types
/// (KeyTypes), keys of a type that has none (KeyKind), and the first repeated name of the joined table (Duplicate).
pub(crate) fn check_tables(
    alloc: Global,
    left: &DataFrame,
    right: &DataFrame,
    left_on: &PlSmallStr,
    right_on: &PlSmallStr,
    join_nulls: bool,
) -> PolarsResult<()>
    ensures { Settles result
        (columns_refusal
        (lent_request left.now right.now (left_on.now ∷ []) (right_on.now ∷ [])
        (kept_args join_nulls))) }
{
    let left_on = [left_on.copy(alloc)?];
    let right_on = [right_on.copy(alloc)?];
    let args = kept_args(join_nulls);
    let named = NamedRequest {
        left,
        right,
        left_on: &left_on,
        right_on: &right_on,
        args: &args,
    };
    let keys = named.key_columns(alloc)?;
    check_columns(alloc, &named.with_keys(&keys))
}
