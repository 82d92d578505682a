//! Names with a suffix, and tables side by side.
ghost use Rattle.std.specs.Prelude.{◌≡◌, ◌++◌, IfOk};
ghost use Rattle.tb_value.specs.Refusals.{Settles};
ghost use Rattle.tb_frame.specs.Promise.Refusal.{repeated_among};
ghost use Rattle.tb_frame.specs.Promise.Table.{names_of, table_of};
ghost use Rattle.tb_join.specs.AnswerColumns.{side_by_side};
ghost use Rattle.tb_dispatch.specs.Standing.{AreLevel, suffix_or};

use std::alloc::Global;
use tb_frame::DataFrame;
use tb_join::side_by_side;
use tb_value::{OutOfMemory, PlSmallStr, PolarsResult};

/// The name, and the suffix behind it.
pub fn _join_suffix_name(alloc: Global, name: &str, suffix: &str) -> Result<PlSmallStr, OutOfMemory>
    ensures { IfOk result (λ s. s ≡ name.now ++ suffix.now) }
{
    PlSmallStr::from_str(alloc, name)?.followed_by(alloc, suffix)
}

/// The suffix that is asked for, or else `_right`.
pub(crate) fn suffix_text(suffix: &Option<PlSmallStr>) -> &str
    ensures { result.now ≡ suffix_or suffix.now }
{
    match suffix {
        Some(suffix) => suffix.as_str(),
        None => "_right",
    }
}

/// The columns of the left table, and then those of the right one, whose names the suffix follows where a left column
/// has them; `_right` where no suffix is given. Both tables have one height, or one of them has no column.
///
/// # Errors
///
/// `Duplicate` of the first name that stood before, or `OutOfMemory`.
pub fn _finish_join(
    alloc: Global,
    df_left: DataFrame,
    df_right: DataFrame,
    suffix: Option<PlSmallStr>,
) -> PolarsResult<DataFrame>
    requires { AreLevel df_left df_right }
    ensures settles { Settles result
        (repeated_among (names_of (table_of (side_by_side (suffix_or suffix) df_left df_right)))) }
    ensures columns { IfOk result (λ t. t ≡ side_by_side (suffix_or suffix) df_left df_right) }
{
    let _left = df_left.get_columns();
    let _right = df_right.get_columns();
    let suffix = suffix_text(&suffix);
    let left = df_left.into_columns();
    let right = df_right.into_columns();
    let columns = side_by_side(alloc, left, right, suffix)?;
    DataFrame::new(alloc, columns)
}
