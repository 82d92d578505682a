//! How two lists of keys are joined.

use std::alloc::Global;
use tb_frame::{JoinType, JoinValidation};
use tb_pool::Exec;

/// How the keys of two sides are joined: by a join of this kind, where each key may be asked to stand once on a side, and
/// absent keys match or match none. The work is run by `exec`.
#[derive(Clone, Copy)]
pub struct KeyJoin<'a> {
    pub alloc: Global,
    pub how: JoinType,
    pub validate: JoinValidation,
    pub join_nulls: bool,
    pub exec: &'a Exec,
}
