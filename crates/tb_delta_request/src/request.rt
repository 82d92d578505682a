//! The request.

use tb_delta::Step;
use tb_frame::DataFrame;
use tb_value::PlSmallStr;

/// A request to keep the Inner join of two tables while rows are put in and taken out.
#[derive(Drop)]
pub struct DeltaRequest {
    pub left: DataFrame,
    pub right: DataFrame,
    /// The name of the left table's key.
    pub left_on: PlSmallStr,
    /// The name of the right table's key.
    pub right_on: PlSmallStr,
    /// Whether Null keys match.
    pub join_nulls: bool,
    /// What is put in and taken out, in order.
    pub steps: Vec<Step>,
}
