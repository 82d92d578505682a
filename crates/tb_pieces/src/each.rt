//! What is done to the chunks of a column, whatever the type by which they are stored.

// The answer for the chunks, whichever they are.
macro_rules! for_chunks {
    ($column:expr, $chunks:ident => $answer:expr) => {
        match $column {
            Chunks::BooleanType($chunks) => $answer,
            Chunks::Int8Type($chunks) => $answer,
            Chunks::Int16Type($chunks) => $answer,
            Chunks::Int32Type($chunks) => $answer,
            Chunks::Int64Type($chunks) => $answer,
            Chunks::Int128Type($chunks) => $answer,
            Chunks::UInt8Type($chunks) => $answer,
            Chunks::UInt16Type($chunks) => $answer,
            Chunks::UInt32Type($chunks) => $answer,
            Chunks::UInt64Type($chunks) => $answer,
            Chunks::StringType($chunks) => $answer,
            Chunks::BinaryType($chunks) => $answer,
            Chunks::ListType($chunks) => $answer,
            Chunks::StructType($chunks) => $answer,
            Chunks::Null($chunks) => $answer,
        }
    };
}

pub(crate) use for_chunks;
