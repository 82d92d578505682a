//! Tables, and the arguments of a join.
#![tactic(auto)]

mod args;
mod arranging;
mod chunking;
mod coalescing;
mod equality;
mod frame;
mod joined_names;
pub mod laws;
mod lookup;
mod names;
mod null_flags;
mod order;
mod right_columns;
mod validated;

pub use args::{Direction, JoinArgs, JoinCoalesce, JoinType, JoinValidation, MaintainOrderJoin};
pub use arranging::{arrange, cut_pairs, kept_part};
pub use chunking::are_cut_alike;
pub use coalescing::coalesce_columns;
pub use equality::same_type;
pub use frame::{DataFrame, IntoDf, column_name_set};
pub use joined_names::{answer_names, check_joined_names};
pub use lookup::{NamedColumns, lend_columns};
pub use names::{NameSet, check_distinct, check_repeated, copy_names, name_set, push_names};
pub use null_flags::{Flags, JoinNulls};
pub use order::direction_of;
pub use right_columns::{
    gone_left, gone_right, has_right, left_rows, right_name, right_rows, right_side, suffix_of,
};
pub use tb_store::slice_offsets;
