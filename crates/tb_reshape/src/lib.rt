//! Tables reshaped: made long and made wide, columns replaced by dummies, rows in groups, and the law between tables made
//! long and tables made wide. The calls of the crates below stand here too, so that a caller finds all of them in one.
#![tactic(auto)]

mod grouping;
pub mod laws;

pub use grouping::GroupBy;
pub use tb_dummies::DataFrameOps;
pub use tb_pivot::{
    Aggregate, CellMaker, ExprFault, PhysicalAggExpr, PivotAgg, pivot, pivot_by, pivot_stable,
};
pub use tb_rows::Groups;
pub use tb_unpivot::{UnpivotArgsIR, UnpivotDF};
