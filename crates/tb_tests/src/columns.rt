//! Columns and arrays asked by the calls that no program makes.

use std::alloc::Global;
use std::test::Fail;
use tb_store::{
    AnyValue, ChunkedArray, Column, DataType, Int64Type, OutOfMemory, PolarsDataType, ValueRef,
};

// A number and a Null.
fn number_and_null(alloc: Global, int: i128) -> Result<Vec<AnyValue>, Fail> {
    let mut chunk = Vec::new(alloc);
    chunk.push(AnyValue::Int(int))?;
    chunk.push(AnyValue::Null)?;
    Ok(chunk)
}

// These in two chunks.
fn two_chunks(alloc: Global) -> Result<Vec<Vec<AnyValue>>, Fail> {
    let mut chunks = Vec::new(alloc);
    for number in [1, 255] {
        chunks.push(number_and_null(alloc, number)?)?;
    }
    Ok(chunks)
}

// A column of the type of one byte.
fn byte_column(alloc: Global) -> Result<Column, Fail> {
    let chunks = two_chunks(alloc)?;
    Ok(Column::from_chunks(alloc, "s", DataType::UInt8, chunks)?)
}

fn in_one_chunk(alloc: Global, column: &Column) -> Result<usize, OutOfMemory> {
    Ok(column.rechunk(alloc)?.n_chunks())
}

#[test]
fn a_column_of_one_byte(rt: HostRuntime) -> Result<(), Fail> {
    let column = byte_column(rt.alloc())?;
    assert!(rt; column.len() == 4 && column.null_count() == 2);
    assert!(rt; in_one_chunk(rt.alloc(), &column)? == 1);
    Ok(())
}

// An array, where the way to store values is known by a marker.
fn array_of<T: PolarsDataType>(alloc: Global, dtype: DataType) -> Result<ChunkedArray<T>, Fail> {
    let chunks = two_chunks(alloc)?;
    Ok(ChunkedArray::from_chunks(alloc, "s", dtype, chunks)?)
}

fn copy_in_one_chunk<T: PolarsDataType>(
    alloc: Global,
    array: &ChunkedArray<T>,
) -> Result<ChunkedArray<T>, OutOfMemory> {
    let copy = array.copy(alloc)?;
    copy.rechunk(alloc)
}

// The row before the last, through a copy in one chunk.
fn third_row<T: PolarsDataType>(
    alloc: Global,
    array: &ChunkedArray<T>,
) -> Result<ChunkedArray<T>, OutOfMemory> {
    let whole = copy_in_one_chunk(alloc, array)?;
    whole.slice(alloc, -2, 1)
}

fn is_third_number<T: PolarsDataType>(array: &ChunkedArray<T>) -> bool {
    array.n_chunks() == 1 && array.len() == 1 && matches!(array.get(0), ValueRef::Int(255))
}

fn has_third_number<T: PolarsDataType>(
    alloc: Global,
    array: &ChunkedArray<T>,
) -> Result<bool, OutOfMemory> {
    let row = third_row(alloc, array)?;
    Ok(is_third_number(&row))
}

#[test]
fn an_array_of_times(rt: HostRuntime) -> Result<(), Fail> {
    let array = array_of::<Int64Type>(rt.alloc(), DataType::Time)?;
    assert!(rt; has_third_number(rt.alloc(), &array)?);
    Ok(())
}
