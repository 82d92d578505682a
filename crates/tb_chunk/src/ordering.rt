//! Whether values ascend, or descend.
ghost use Rattle.std.specs.Prelude.{◌≡◌, ◌<◌, ◌≤◌, ◌^◌, ◌+◌, if◌then◌else◌, is_some, option_map, length, get_or, map, take, drop};
ghost use Rattle.tb_value.specs.Promise.Datum.{null, is_null};
ghost use Rattle.tb_value.specs.See.{lent_value};
ghost use Rattle.tb_cell.specs.Promise.Order.{last_in_order, keeps_order};
ghost use Rattle.tb_chunk.specs.Promise.Col.{concatenation};
ghost use Rattle.tb_chunk.specs.Seen.{chunk_lists};

use crate::chunk::Chunk;
use crate::chunks::{Chunks, nulls_in, rows_in, value_in};
use crate::each::for_chunks;
use tb_cell::may_follow;
use tb_value::ValueRef;

// The last of these rows of a chunk, or the value before them where there are none. None where the
// rows are not in order.
fn follow_chunk<'a, C: Chunk>(
    chunk: &'a C,
    from: usize,
    count: usize,
    before: ValueRef<'a>,
    descending: bool,
) -> Option<ValueRef<'a>>
    requires { from + count ≤ length (C.shown chunk.now) }
    ensures { option_map lent_value result
        ≡ last_in_order descending (lent_value before.entry)
        (take count (drop from (C.shown chunk.now))) }
{
    let _rows = chunk.len();
    let mut last = before;
    for i in 0..count {
        let value = chunk.value(from + i);
        if !may_follow(last, value, descending) {
            return None;
        }
        last = value;
    }
    Some(last)
}

// Whether the `len` rows from `start` on are in order.
fn follow<C: Chunk>(chunks: &[C], start: usize, len: usize, descending: bool) -> bool
    requires { start + len ≤ length (concatenation (map C.shown chunks.now)) }
    ensures { result
        ≡ is_some
        (last_in_order descending null
        (take len (drop start (concatenation (map C.shown chunks.now))))) }
{
    let mut skip = start;
    let mut left = len;
    let mut last = ValueRef::Null;
    for chunk in chunks {
        let rows = chunk.len();
        let from = skip.min(rows);
        let count = left.min(rows - from);
        match follow_chunk(chunk, from, count, last, descending) {
            Some(value) => last = value,
            None => return false,
        }
        skip -= from;
        left -= count;
    }
    true
}

fn starts_with_null<C: Chunk>(chunks: &[C]) -> bool
    requires { length (concatenation (map C.shown chunks.now)) < 2 ^ 64 }
    ensures { result ≡ is_null (get_or (concatenation (map C.shown chunks.now)) 0 null) }
{
    if rows_in(chunks) == 0 {
        return true;
    }
    match value_in(chunks, 0) {
        ValueRef::Null => true,
        _ => false,
    }
}

// Where the values start that are present, if the nulls stand at one end.
fn present_from<C: Chunk>(chunks: &[C], nulls: usize) -> usize
    requires { length (concatenation (map C.shown chunks.now)) < 2 ^ 64 }
    ensures exact { result
        ≡ (if is_null (get_or (concatenation (map C.shown chunks.now)) 0 null) then nulls else 0) }
    ensures within { result ≤ nulls }
{
    if starts_with_null(chunks) { nulls } else { 0 }
}

/// Whether the values that are present ascend, or descend, and the nulls stand at one end.
#[tactic(auto, using(tb_cell::proofs::Nulls::nulls_at_most), unfolding(tb_cell::specs::Promise::Order::keeps_order))]
pub fn keeps_order<C: Chunk>(chunks: &[C], descending: bool) -> bool
    requires { length (concatenation (map C.shown chunks.now)) < 2 ^ 64 }
    ensures { result ≡ keeps_order descending (concatenation (map C.shown chunks.now)) }
{
    let nulls = nulls_in(chunks);
    let start = present_from(chunks, nulls);
    follow(chunks, start, rows_in(chunks) - nulls, descending)
}

impl Chunks {
    /// Whether the values that are present ascend, or descend, and the nulls stand at one end.
    pub fn keeps_order(&self, descending: bool) -> bool
        requires { length (concatenation (chunk_lists self.now)) < 2 ^ 64 }
        ensures { result ≡ keeps_order descending (concatenation (chunk_lists self.now)) }
    {
        for_chunks!(self, chunks => keeps_order(chunks, descending))
    }
}
