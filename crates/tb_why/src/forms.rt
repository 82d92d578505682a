//! The forms of values.
ghost use Rattle.std.specs.Prelude.{◌≡◌, is_some, IfOk};
ghost use Rattle.std.specs.List.{list_all};
ghost use Rattle.serde_json.specs.Find.{as_str};
ghost use Rattle.tb_tree.specs.View.{item_view, listed};
ghost use Rattle.tb_json.specs.Promise.Lists.{as_list};
ghost use Rattle.tb_request.specs.declared.known.Form as Form;
ghost use Rattle.tb_request.specs.Promise.HasForm.{has_form, is_word};

use crate::tree::{Tree, Trees, count, dtype, is_object, is_truth, list, slice, text, whole};
use std::alloc::Global;
use tb_pool::MAX_WORKERS;
use tb_request::{
    Form, Word, agg_named, coalesce_named, flag_named, how_named, order_named, side_named,
    validation_named,
};
use tb_value::OutOfMemory;

fn is_word(word: Word, text: &str) -> bool
    ensures { result ≡ is_word word text.now }
{
    match word {
        Word::How => how_named(text).is_some(),
        Word::Validation => validation_named(text).is_some(),
        Word::Coalesce => coalesce_named(text).is_some(),
        Word::Order => order_named(text).is_some(),
        Word::Sorted => flag_named(text).is_some(),
        Word::Aggregate => agg_named(text).is_some(),
        Word::Side => side_named(text).is_some(),
        Word::Test => text == "is_null" || text == "is_not_null",
    }
}

fn is_text_among(word: Word, value: Tree<'_>) -> bool
    ensures { result ≡ has_form (Form.Word word) (item_view value.entry) }
{
    match text(value) {
        Some(text) => is_word(word, text),
        None => false,
    }
}

fn all_texts(items: Trees<'_>) -> bool
    ensures { result ≡ list_all (λ d. is_some (as_str d)) (listed items.entry) }
{
    for i in 0..items.len() {
        if text(items.at(i)).is_none() {
            return false;
        }
    }
    true
}

fn are_texts(value: Tree<'_>) -> bool
    ensures { result ≡ has_form Form.Texts (item_view value.entry) }
{
    match list(value) {
        Some(items) => all_texts(items),
        None => false,
    }
}

fn all_lists(items: Trees<'_>) -> bool
    ensures { result ≡ list_all (λ d. is_some (as_list d)) (listed items.entry) }
{
    for i in 0..items.len() {
        if list(items.at(i)).is_none() {
            return false;
        }
    }
    true
}

fn are_lists(value: Tree<'_>) -> bool
    ensures { result ≡ has_form Form.Chunks (item_view value.entry) }
{
    match list(value) {
        Some(items) => all_lists(items),
        None => false,
    }
}

fn is_format(value: Tree<'_>) -> bool
    ensures { result ≡ has_form Form.Format (item_view value.entry) }
{
    matches!(whole(value), Some(1 | 2))
}

fn is_worker_count(value: Tree<'_>) -> bool
    ensures { result ≡ has_form Form.Workers (item_view value.entry) }
{
    match count(value) {
        Some(count) => 1 <= count && count <= MAX_WORKERS,
        None => false,
    }
}

fn is_divisor(value: Tree<'_>) -> bool
    ensures { result ≡ has_form Form.Divisor (item_view value.entry) }
{
    match count(value) {
        Some(count) => 1 <= count,
        None => false,
    }
}

// A word that is a test, or an object that may be one.
fn is_test(value: Tree<'_>) -> bool
    ensures { result ≡ has_form Form.Test (item_view value.entry) }
{
    match text(value) {
        Some(text) => is_word(Word::Test, text),
        None => is_object(value),
    }
}

fn is_compared(value: Tree<'_>) -> bool
    ensures { result ≡ has_form Form.Compared (item_view value.entry) }
{
    is_truth(value) || text(value).is_some() || value.as_i128().is_some()
}

/// Whether the value has the form.
pub(crate) fn has_form(alloc: Global, form: Form, value: Tree<'_>) -> Result<bool, OutOfMemory>
    ensures { IfOk result (λ b. b ≡ has_form form (item_view value.entry)) }
{
    match form {
        Form::Object => Ok(is_object(value)),
        Form::Values => Ok(list(value).is_some()),
        Form::Chunks => Ok(are_lists(value)),
        Form::Runs => Ok(list(value).is_some()),
        Form::Text => Ok(text(value).is_some()),
        Form::Texts => Ok(are_texts(value)),
        Form::Truth => Ok(is_truth(value)),
        Form::Nulls => Ok(is_truth(value) || list(value).is_some()),
        Form::Type => Ok(dtype(alloc, value)?.is_some()),
        Form::Format => Ok(is_format(value)),
        Form::Slice => Ok(slice(value).is_some()),
        Form::Count => Ok(count(value).is_some()),
        Form::Workers => Ok(is_worker_count(value)),
        Form::Divisor => Ok(is_divisor(value)),
        Form::Test => Ok(is_test(value)),
        Form::Compared => Ok(is_compared(value)),
        Form::Word(word) => Ok(is_text_among(word, value)),
    }
}
