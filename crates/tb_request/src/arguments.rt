//! The arguments of a join.
ghost use Rattle.std.specs.Prelude.{◌≡◌, ◌∷◌, [], IfOk};
ghost use Rattle.tb_tree.specs.View.{view, item_view};
ghost use Rattle.tb_request.specs.Promise.Written.{how_named, side_named, validation_named, coalesce_named, order_named, how_of, validation_of, slice_from, slice_in, slice_of, nulls_in, nulls_of, coalesce_of, order_of, args_of};

use crate::known::args_members;
use crate::members::{has_only, text_at, truths_of};
use std::alloc::Global;
use tb_frame::{
    Flags, JoinArgs, JoinCoalesce, JoinNulls, JoinType, JoinValidation, MaintainOrderJoin,
};
use tb_tree::{Item, Value};
use tb_value::{OutOfMemory, Side};

/// The kind of join that a word names.
pub fn how_named(text: &str) -> Option<JoinType>
    ensures { result ≡ how_named text.now }
{
    match text {
        "inner" => Some(JoinType::Inner),
        "left" => Some(JoinType::Left),
        "right" => Some(JoinType::Right),
        "full" => Some(JoinType::Full),
        "semi" => Some(JoinType::Semi),
        "anti" => Some(JoinType::Anti),
        _ => None,
    }
}

/// The side of a join that a word names.
pub fn side_named(text: &str) -> Option<Side>
    ensures { result ≡ side_named text.now }
{
    match text {
        "left" => Some(Side::Left),
        "right" => Some(Side::Right),
        _ => None,
    }
}

/// The validation that a word names.
pub fn validation_named(text: &str) -> Option<JoinValidation>
    ensures { result ≡ validation_named text.now }
{
    match text {
        "m:m" => Some(JoinValidation::ManyToMany),
        "m:1" => Some(JoinValidation::ManyToOne),
        "1:m" => Some(JoinValidation::OneToMany),
        "1:1" => Some(JoinValidation::OneToOne),
        _ => None,
    }
}

/// What a word says of the two key columns of a pair.
pub fn coalesce_named(text: &str) -> Option<JoinCoalesce>
    ensures { result ≡ coalesce_named text.now }
{
    match text {
        "specific" => Some(JoinCoalesce::JoinSpecific),
        "coalesce" => Some(JoinCoalesce::CoalesceColumns),
        "keep" => Some(JoinCoalesce::KeepColumns),
        _ => None,
    }
}

/// The order of the rows of an answer that a word names.
pub fn order_named(text: &str) -> Option<MaintainOrderJoin>
    ensures { result ≡ order_named text.now }
{
    match text {
        "none" => Some(MaintainOrderJoin::None),
        "left" => Some(MaintainOrderJoin::Left),
        "right" => Some(MaintainOrderJoin::Right),
        "left_right" => Some(MaintainOrderJoin::LeftRight),
        "right_left" => Some(MaintainOrderJoin::RightLeft),
        _ => None,
    }
}

fn how_of(args: &Value) -> Option<JoinType>
    ensures { result ≡ how_of (view args.now) }
{
    how_named(args.get("how")?.as_str()?)
}

fn validation_of(args: &Value) -> Option<JoinValidation>
    ensures { result ≡ validation_of (view args.now) }
{
    match args.get("validation") {
        Some(member) => validation_named(member.as_str()?),
        None => Some(JoinValidation::ManyToMany),
    }
}

fn coalesce_of(args: &Value) -> Option<JoinCoalesce>
    ensures { result ≡ coalesce_of (view args.now) }
{
    match args.get("coalesce") {
        Some(member) => coalesce_named(member.as_str()?),
        None => Some(JoinCoalesce::JoinSpecific),
    }
}

fn order_of(args: &Value) -> Option<MaintainOrderJoin>
    ensures { result ≡ order_of (view args.now) }
{
    match args.get("maintain_order") {
        Some(member) => order_named(member.as_str()?),
        None => Some(MaintainOrderJoin::None),
    }
}

fn slice_from(offset: Item<'_>, len: Item<'_>) -> Option<(i64, usize)>
    ensures { result ≡ slice_from (item_view offset.entry ∷ item_view len.entry ∷ []) }
{
    let offset = offset.as_i64()?;
    let len = len.as_u64()?;
    Some((offset, len as usize))
}

/// The offset and the length of a slice, or None where the value is no list of these two.
pub fn slice_in(value: &Value) -> Option<Option<(i64, usize)>>
    ensures { result ≡ slice_in (view value.now) }
{
    let items = value.as_array()?;
    if items.len() != 2 {
        return None;
    }
    slice_from(items.at(0), items.at(1)).map(Some)
}

// No slice where the member is absent.
fn slice_of(args: &Value) -> Option<Option<(i64, usize)>>
    ensures { result ≡ slice_of (view args.now) }
{
    match args.get("slice") {
        Some(member) => slice_in(member),
        None => Some(None),
    }
}

// One truth value for all keys, or a list of one for each.
fn nulls_in(alloc: Global, value: &Value) -> Result<Option<JoinNulls>, OutOfMemory>
    ensures { IfOk result (λ o. o ≡ nulls_in (view value.now)) }
{
    if let Some(all) = value.as_bool() {
        return Ok(Some(JoinNulls::All(all)));
    }
    match truths_of(alloc, value)? {
        Some(flags) => Ok(Some(JoinNulls::Each(Flags::from_vec(flags)))),
        None => Ok(None),
    }
}

// No absent keys match where the member is absent.
fn nulls_of(alloc: Global, args: &Value) -> Result<Option<JoinNulls>, OutOfMemory>
    ensures { IfOk result (λ o. o ≡ nulls_of (view args.now)) }
{
    match args.get("join_nulls") {
        Some(member) => nulls_in(alloc, member),
        None => Ok(Some(JoinNulls::All(false))),
    }
}

/// The arguments of a join, or None where the value has not the form of them.
#[tactic(auto, unfolding(crate::specs::Promise::Written::args_of))]
pub fn args_of(alloc: Global, value: &Value) -> Result<Option<JoinArgs>, OutOfMemory>
    ensures { IfOk result (λ o. o ≡ args_of (view value.now)) }
{
    if !has_only(value, args_members()) {
        return Ok(None);
    }
    let Some(how) = how_of(value) else {
        return Ok(None);
    };
    let Some(validation) = validation_of(value) else {
        return Ok(None);
    };
    let Some(slice) = slice_of(value) else {
        return Ok(None);
    };
    let Some(coalesce) = coalesce_of(value) else {
        return Ok(None);
    };
    let Some(maintain_order) = order_of(value) else {
        return Ok(None);
    };
    let Some(suffix) = text_at(alloc, value, "suffix")? else {
        return Ok(None);
    };
    let Some(join_nulls) = nulls_of(alloc, value)? else {
        return Ok(None);
    };
    Ok(Some(JoinArgs {
        how,
        validation,
        suffix,
        slice,
        join_nulls,
        coalesce,
        maintain_order,
    }))
}
