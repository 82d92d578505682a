//! What `==` says of each type: that contracts see the same. Each is the contract of a function whose
//! body is the comparison.
ghost use Rattle.std.specs.Prelude.{◌≡◌, ◌↔◌, IsTrue};
ghost use Rattle.tb_value.specs.See.{datum};
ghost use Rattle.tb_value.specs.SeeKind.{kind_of, part, parts};

use crate::any_value::{AnyValue, Values};
use crate::bytes::Bytes;
use crate::chunk_id::ChunkId;
use crate::dtype::{DataType, Field, Fields, TimeUnit};
use crate::error::{ComputeCause, InvalidCause, PolarsError, Side};
use crate::index::{JoinPair, NullableIdxSize};
use crate::pl_str::PlSmallStr;
use crate::sorted::IsSorted;

pub fn same_names(a: &PlSmallStr, b: &PlSmallStr) -> bool
    ensures { IsTrue result ↔ (a.now ≡ b.now) }
{
    a == b
}

pub fn same_bytes(a: &Bytes, b: &Bytes) -> bool
    ensures { IsTrue result ↔ (a.now ≡ b.now) }
{
    a == b
}

pub fn same_values(a: &AnyValue, b: &AnyValue) -> bool
    ensures { IsTrue result ↔ (datum a.now ≡ datum b.now) }
{
    a == b
}

pub fn same_types(a: &DataType, b: &DataType) -> bool
    ensures { IsTrue result ↔ (kind_of a.now ≡ kind_of b.now) }
{
    a == b
}

pub fn same_lists(a: &Values, b: &Values) -> bool
    ensures { IsTrue result ↔ (a.now ≡ b.now) }
{
    a == b
}

pub fn same_fields(a: &Field, b: &Field) -> bool
    ensures { IsTrue result ↔ (part a.now ≡ part b.now) }
{
    a == b
}

pub fn same_structs(a: &Fields, b: &Fields) -> bool
    ensures { IsTrue result ↔ (parts a.now ≡ parts b.now) }
{
    a == b
}

pub fn same_row_numbers(a: &NullableIdxSize, b: &NullableIdxSize) -> bool
    ensures { IsTrue result ↔ (a.now ≡ b.now) }
{
    a == b
}

pub fn same_pairs(a: &JoinPair, b: &JoinPair) -> bool
    ensures { IsTrue result ↔ (a.now ≡ b.now) }
{
    a == b
}

pub fn same_units(a: &TimeUnit, b: &TimeUnit) -> bool
    ensures { IsTrue result ↔ (a.now ≡ b.now) }
{
    a == b
}

pub fn same_flags(a: &IsSorted, b: &IsSorted) -> bool
    ensures { IsTrue result ↔ (a.now ≡ b.now) }
{
    a == b
}

pub fn same_sides(a: &Side, b: &Side) -> bool
    ensures { IsTrue result ↔ (a.now ≡ b.now) }
{
    a == b
}

pub fn same_invalid_causes(a: &InvalidCause, b: &InvalidCause) -> bool
    ensures { IsTrue result ↔ (a.now ≡ b.now) }
{
    a == b
}

pub fn same_compute_causes(a: &ComputeCause, b: &ComputeCause) -> bool
    ensures { IsTrue result ↔ (a.now ≡ b.now) }
{
    a == b
}

pub fn same_errors(a: &PolarsError, b: &PolarsError) -> bool
    ensures { IsTrue result ↔ (a.now ≡ b.now) }
{
    a == b
}

pub fn same_chunk_ids<const B: u64>(a: &ChunkId<B>, b: &ChunkId<B>) -> bool
    ensures { IsTrue result ↔ (a.now ≡ b.now) }
{
    a == b
}
