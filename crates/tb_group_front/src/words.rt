//! The columns that words ask for.
ghost use Rattle.std.specs.Prelude.{◌≡◌, IfOk};
ghost use Rattle.tb_group_front.specs.Promise.Words.{agg_of_word};

use std::alloc::Global;
use tb_group::GroupAgg;
use tb_request::agg_named;
use tb_value::{OutOfMemory, PlSmallStr};

/// The column that a word asks for, as `total=sum:cents`: its name stands before the first `=`, what is made (`first`, `last`, `sum`,
/// `min`, `max` or `count`) behind it and before the next `:`, and behind that the name of the column of which it is made. Other words
/// ask for none.
///
/// # Errors
///
/// `OutOfMemory` alone, which may come at any time.
pub fn agg_of_word(alloc: Global, word: &str) -> Result<Option<GroupAgg>, OutOfMemory>
    ensures { IfOk result (λ o. o ≡ agg_of_word word.now) }
{
    let Some((name, made)) = word.split_once('=') else {
        return Ok(None);
    };
    let Some((agg, column)) = made.split_once(':') else {
        return Ok(None);
    };
    let Some(agg) = agg_named(agg) else {
        return Ok(None);
    };
    Ok(Some(GroupAgg {
        column: PlSmallStr::from_str(alloc, column)?,
        agg,
        name: PlSmallStr::from_str(alloc, name)?,
    }))
}
