//! The JSON values that requests are: all that is read of them is read here.
ghost use Rattle.std.specs.Prelude.{◌≡◌, map, is_some, option_map, IfOk, IfSome, MatchResult, Ok, Err};
ghost use Rattle.std.specs.List.{All};
ghost use Rattle.serde_json.specs.Find.{as_bool, as_object, as_str, get};
ghost use Rattle.tb_tree.specs.View.{view, item_view, listed, pair_of};
ghost use Rattle.tb_value.specs.See.{data_of, datum};
ghost use Rattle.tb_value.specs.SeeKind.{kind_of};
ghost use Rattle.tb_value.specs.Promise.Typed.{HasType};
ghost use Rattle.tb_chunk.specs.Made.{lists_of, IsTyped};
ghost use Rattle.tb_chunk.specs.RunLayout.{data_runs, AreRunsOf};
ghost use Rattle.tb_json.specs.Promise.Cells.{cell_in};
ghost use Rattle.tb_json.specs.Promise.Kinds.{kind_in};
ghost use Rattle.tb_json.specs.Promise.Lists.{as_list, each};
ghost use Rattle.tb_request.specs.declared.request.Reason.TheVariants.{Json};
ghost use Rattle.tb_request.specs.Promise.Reading.{value_of};
ghost use Rattle.tb_request.specs.Promise.Written.{count_of, flag_of, format_of, slice_in, whole_of};
ghost use Rattle.tb_why.specs.Columns.{items_of, items_at, chunks_at, runs_at, run_at, times_at};
ghost use Rattle.tb_request.specs.Promise.Members.{known_views, names_of};
ghost use Rattle.tb_why.specs.Members.{unknown_in};

use std::alloc::Global;
use tb_json::{item_of, type_of};
use tb_request::{
    Format, Known, RequestFault, count_of, flag_of, format_of, is_among, slice_in, times_of,
};
use tb_tree::{Item, Items, Value};
use tb_value::{AnyValue, DataType, IsSorted, OutOfMemory};

/// A value of a JSON text, or of an array in one.
pub(crate) type Tree<'v> = Item<'v>;

/// The values of an array.
pub(crate) type Trees<'v> = Items<'v>;

/// The line, counted from 1, and the column at which a text stops being JSON.
#[derive(Clone, Copy)]
pub(crate) struct TextPlace {
    pub line: usize,
    pub column: usize,
}

// Where the bytes stop being a JSON text, as `serde_json` tells.
fn place_of(alloc: Global, bytes: &[u8]) -> Result<TextPlace, OutOfMemory>
    requires { value_of bytes.now ≡ Err Json }
{
    match serde_json::Value::from_slice(alloc, bytes) {
        Ok(_) => unreachable!(),
        Err(error) if error.is_memory() => Err(OutOfMemory),
        Err(error) => Ok(TextPlace {
            line: error.line(),
            column: error.column(),
        }),
    }
}

/// The value that the bytes are, or where they stop being the text of one.
pub(crate) fn tree_of(alloc: Global, bytes: &[u8]) -> Result<Result<Value, TextPlace>, OutOfMemory>
    ensures { IfOk result (λ r.
        MatchResult r (λ v. value_of bytes.now ≡ Ok (view v)) (λ p.
        value_of bytes.now ≡ Err Json)) }
{
    match tb_request::value_of(alloc, bytes) {
        Ok(value) => Ok(Ok(value)),
        Err(fault) => match fault {
            RequestFault::OutOfMemory => Err(OutOfMemory),
            RequestFault::NoRequest(_) => Ok(Err(place_of(alloc, bytes)?)),
        },
    }
}

/// The member of this name.
pub(crate) fn member<'v>(object: Tree<'v>, name: &str) -> Option<Tree<'v>>
    ensures { option_map item_view result ≡ get name.now (item_view object.entry) }
{
    object.get(name)
}

/// The text that the value is.
pub(crate) fn text<'v>(value: Tree<'v>) -> Option<&'v str>
    ensures { option_map (λ s. s.now) result ≡ as_str (item_view value.entry) }
{
    value.as_str()
}

/// The whole number of 64 bits without sign that the value is.
pub(crate) fn whole(value: Tree<'_>) -> Option<u64>
    ensures { result ≡ whole_of (item_view value.entry) }
{
    value.as_u64()
}

/// The values of an array.
pub(crate) fn list<'v>(value: Tree<'v>) -> Option<Trees<'v>>
    ensures { option_map listed result ≡ as_list (item_view value.entry) }
{
    value.as_array()
}

/// The same, and none where the value is no array.
pub(crate) fn items<'v>(value: Tree<'v>) -> Trees<'v>
    ensures { listed result ≡ items_of (item_view value.entry) }
{
    list(value).unwrap_or(Items::Values(&[]))
}

/// The values of a member that is an array, and none where it is none.
pub(crate) fn items_at<'v>(object: Tree<'v>, name: &str) -> Trees<'v>
    ensures { listed result ≡ items_at name.now (item_view object.entry) }
{
    match member(object, name) {
        Some(value) => items(value),
        None => Items::Values(&[]),
    }
}

/// The value and the count of a run, where it is a list of two.
pub(crate) fn parts<'v>(run: Tree<'v>) -> Option<(Tree<'v>, Tree<'v>)>
    ensures { option_map (λ p. (item_view p.0, item_view p.1)) result
        ≡ pair_of (item_view run.entry) }
{
    match run {
        Item::Whole(_) => None,
        Item::Lent(value) => value.as_pair(),
    }
}

/// How often the value of a run stands.
pub(crate) fn times_at(run: Tree<'_>) -> u64
    ensures { result ≡ times_at (item_view run.entry) }
{
    match parts(run) {
        Some((_, times)) => whole(times).unwrap_or(0),
        None => 0,
    }
}

/// Whether the value is an object.
pub(crate) fn is_object(value: Tree<'_>) -> bool
    ensures { result ≡ is_some (as_object (item_view value.entry)) }
{
    value.as_object().is_some()
}

/// The first member of an object that is not of these names, in the order of the names.
pub(crate) fn unknown_in<'v>(object: Tree<'v>, known: &[Known]) -> Option<&'v str>
    ensures { option_map (λ s. s.now) result
        ≡ unknown_in (names_of (known_views known.now)) (item_view object.entry) }
{
    let members = object.as_object()?;
    for name in members.keys() {
        if !is_among(name.as_str(), known) {
            return Some(name.as_str());
        }
    }
    None
}

/// Whether the value is true or false.
pub(crate) fn is_truth(value: Tree<'_>) -> bool
    ensures { result ≡ is_some (as_bool (item_view value.entry)) }
{
    value.as_bool().is_some()
}

/// The type that the value is.
pub(crate) fn dtype(alloc: Global, value: Tree<'_>) -> Result<Option<DataType>, OutOfMemory>
    ensures { IfOk result (λ o. option_map kind_of o ≡ kind_in (item_view value.entry)) }
{
    match value {
        Item::Whole(number) => type_of(alloc, &Value::whole(number)),
        Item::Lent(value) => type_of(alloc, value),
    }
}

/// How the columns of a request are written, or None where its member `format` tells no format.
pub(crate) fn format(request: Tree<'_>) -> Option<Format>
    ensures { result ≡ format_of (item_view request.entry) }
{
    match request {
        Item::Whole(number) => format_of(&Value::whole(number)),
        Item::Lent(value) => format_of(value),
    }
}

/// The order that a column claims, or None where its member `sorted` is no word of an order.
pub(crate) fn flag(column: Tree<'_>) -> Option<IsSorted>
    ensures { result ≡ flag_of (item_view column.entry) }
{
    match column {
        Item::Whole(number) => flag_of(&Value::whole(number)),
        Item::Lent(value) => flag_of(value),
    }
}

/// The whole number below 2^32 that the value is.
pub(crate) fn count(value: Tree<'_>) -> Option<u32>
    ensures { result ≡ count_of (item_view value.entry) }
{
    match value {
        Item::Whole(number) => count_of(&Value::whole(number)),
        Item::Lent(value) => count_of(value),
    }
}

/// The offset and the length of a slice that the value is.
pub(crate) fn slice(value: Tree<'_>) -> Option<Option<(i64, usize)>>
    ensures { result ≡ slice_in (item_view value.entry) }
{
    match value {
        Item::Whole(number) => slice_in(&Value::whole(number)),
        Item::Lent(value) => slice_in(value),
    }
}

/// Whether the value is one of the type.
pub(crate) fn is_cell(alloc: Global, dtype: &DataType, value: Tree<'_>) -> Result<bool, OutOfMemory>
    ensures { IfOk result (λ b. b ≡ is_some (cell_in (kind_of dtype.now) (item_view value.entry))) }
{
    Ok(item_of(alloc, value, dtype)?.is_some())
}

// The values of a chunk, or None where one is none of the type.
fn chunk_values(
    alloc: Global,
    dtype: &DataType,
    chunk: Tree<'_>,
) -> Result<Option<Vec<AnyValue>>, OutOfMemory>
    ensures values { IfOk result (λ o. option_map (λ v. data_of v.items) o
        ≡ each (cell_in (kind_of dtype.now)) (items_of (item_view chunk.entry))) }
    ensures typed { IfOk result (λ o. IfSome o
        (λ v. All (HasType (kind_of dtype.now)) (data_of v.items))) }
{
    let items = items(chunk);
    let len = items.len();
    let mut values = Vec::with_capacity(alloc, len)?;
    for i in 0..len {
        let Some(value) = item_of(alloc, items.at(i), dtype)? else {
            return Ok(None);
        };
        values.push(value)?;
    }
    Ok(Some(values))
}

/// The values of a column, chunk by chunk, or None where one is none of the type.
pub(crate) fn chunk_lists(
    alloc: Global,
    dtype: &DataType,
    column: Tree<'_>,
) -> Result<Option<Vec<Vec<AnyValue>>>, OutOfMemory>
    ensures chunks { IfOk result (λ o. option_map (λ v. lists_of v.items) o
        ≡ each (each (cell_in (kind_of dtype.now))) (chunks_at (item_view column.entry))) }
    ensures typed { IfOk result (λ o. IfSome o
        (λ v. IsTyped (kind_of dtype.now) (lists_of v.items))) }
{
    let chunks = items_at(column, "chunks");
    let len = chunks.len();
    let mut lists = Vec::with_capacity(alloc, len)?;
    for i in 0..len {
        let Some(values) = chunk_values(alloc, dtype, chunks.at(i))? else {
            return Ok(None);
        };
        lists.push(values)?;
    }
    Ok(Some(lists))
}

// The value of a run with its count, or None where it is none of a column of the type.
fn run_at(
    alloc: Global,
    dtype: &DataType,
    run: Tree<'_>,
) -> Result<Option<(AnyValue, u64)>, OutOfMemory>
    ensures run { IfOk result (λ o. option_map (λ r. (datum r.0, r.1)) o
        ≡ run_at (kind_of dtype.now) (item_view run.entry)) }
    ensures typed { IfOk result (λ o. IfSome o (λ r. HasType (kind_of dtype.now) (datum r.0))) }
{
    let Some((value, times)) = parts(run) else {
        return Ok(None);
    };
    let Some(times) = whole(times).and_then(|n| times_of(dtype, n)) else {
        return Ok(None);
    };
    match item_of(alloc, value, dtype)? {
        Some(value) => Ok(Some((value, times))),
        None => Ok(None),
    }
}

/// The values of the runs of a column with their counts, or None where one is none of a column of the type.
pub(crate) fn run_values(
    alloc: Global,
    dtype: &DataType,
    column: Tree<'_>,
) -> Result<Option<Vec<(AnyValue, u64)>>, OutOfMemory>
    ensures runs { IfOk result (λ o. option_map (λ v. data_runs v.items) o
        ≡ each (run_at (kind_of dtype.now)) (runs_at (item_view column.entry))) }
    ensures typed { IfOk result (λ o. IfSome o
        (λ v. AreRunsOf (kind_of dtype.now) (data_runs v.items))) }
{
    let runs = items_at(column, "runs");
    let len = runs.len();
    let mut values = Vec::with_capacity(alloc, len)?;
    for i in 0..len {
        let Some(value) = run_at(alloc, dtype, runs.at(i))? else {
            return Ok(None);
        };
        values.push(value)?;
    }
    Ok(Some(values))
}
