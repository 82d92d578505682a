//! Which buffers a gather keeps.

/// Which buffers stand behind the texts that are gathered from some chunks.
#[derive(Clone, Copy)]
pub(crate) enum Keep {
    /// Those of all chunks.
    All,
    /// Those that the texts lie in, where there are more chunks than one and than ids; else those of all chunks.
    Used,
}
