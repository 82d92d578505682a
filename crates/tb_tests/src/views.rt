//! A column of texts taken apart into views and buffers, and made of them again.
ghost use Rattle.std.specs.Prelude.{◌≡◌, ◌⊎◌, ◌<◌, IfOk, length};
ghost use Rattle.tb_value.specs.Promise.Kind as kind;

use std::alloc::Global;
use std::process::Abort;
use std::test::Fail;
use tb_store::{
    AnyValue, Bytes, ChunkedArray, DataType, OutOfMemory, PlSmallStr, Series, StringType,
};
use tb_value::same_value;

// The same buffers, which share their bytes with these.
fn copied_buffers(alloc: Global, buffers: &[Bytes]) -> Result<Vec<Bytes>, OutOfMemory>
    ensures { IfOk result (λ v. v.items ≡ buffers.now) }
{
    let mut copies = Vec::with_capacity(alloc, buffers.len())?;
    for buffer in buffers {
        copies.push(buffer.copy(alloc)?)?;
    }
    Ok(copies)
}

// The column of the first chunk of another, made of its views over its buffers.
fn made_again(alloc: Global, column: &Series) -> Result<Series, OutOfMemory>
    requires text { (column.now.kind ≡ kind.string) ⊎ (column.now.kind ≡ kind.binary) }
    requires chunk { 0 < length column.now.chunks }
{
    let name = column.name().copy(alloc)?;
    let dtype = column.dtype().copy(alloc)?;
    let views = Vec::from_slice(alloc, column.views(0))?;
    let buffers = copied_buffers(alloc, column.data_buffers(0))?;
    Series::from_views(alloc, name, dtype, views, buffers)
}

fn check_again(rt: &impl Abort, alloc: Global, column: &Series) -> Result<(), Fail>
    requires text { column.now.kind ≡ kind.string }
    requires chunk { 0 < length column.now.chunks }
{
    let again = made_again(alloc, column)?;
    assert_eq!(rt; again.len(), column.len());
    for row in 0..column.len() {
        assert!(rt; same_value(again.get(row), column.get(row)));
    }
    Ok(())
}

fn text(alloc: Global, text: &str) -> Result<AnyValue, OutOfMemory> {
    Ok(AnyValue::String(PlSmallStr::from_str(alloc, text)?))
}

// A long text that stands twice, and a Null.
fn three_texts(alloc: Global) -> Result<Series, Fail>
    ensures text { IfOk result (λ s. s.kind ≡ kind.string) }
    ensures chunk { IfOk result (λ s. 0 < length s.chunks) }
{
    let mut runs = Vec::new(alloc);
    runs.push((text(alloc, "1 loooooooooooong string")?, 2))?;
    runs.push((AnyValue::Null, 1))?;
    Ok(Series::from_runs(alloc, "s", DataType::String, runs)?)
}

#[test]
fn texts_by_their_views(rt: HostRuntime) -> Result<(), Fail> {
    let column = three_texts(rt.alloc())?;
    check_again(&rt, rt.alloc(), &column)
}

// A column lends the views and buffers of its series, and so does an array of texts.
#[test]
fn views_of_a_column_and_an_array(rt: HostRuntime) -> Result<(), Fail> {
    let column = three_texts(rt.alloc())?.into_column();
    assert_eq!(rt; column.views(0).len(), 3);
    assert_eq!(rt; column.data_buffers(0).len(), 1);
    let array = ChunkedArray::<StringType>::from_series(column.take_materialized_series())?;
    assert_eq!(rt; array.views(0).len(), 3);
    assert_eq!(rt; array.data_buffers(0).len(), 1);
    Ok(())
}
