//! What makes the values of cells.
ghost use Rattle.tb_value.specs.Refusals.{Settles};

use std::alloc::Global;
use tb_agg::{Aggregate, aggregated};
use tb_rows::Groups;
use tb_store::Series;
use tb_value::{DataType, PolarsResult};

/// What makes one value for each group of rows. Contracts see the way in which it does.
pub trait CellMaker {
    ghost use Rattle.std.specs.Prelude.{◌≡◌, IfOk, length};
    ghost use Rattle.tb_value.specs.Refusals.{Settles};
    ghost use Rattle.tb_value.specs.SeeKind.{kind_of};
    ghost use Rattle.tb_chunk.specs.Promise.Col.{values};
    ghost use Rattle.tb_agg.specs.Grouped.{AreGroupsOf};
    ghost use Rattle.tb_pivot.specs.Made.{made_cause, takes, IsMade};
    ghost use Rattle.tb_pivot.specs.Promise.Refusal.{is_one_row};
    ghost use Rattle.tb_pivot.specs.Promise.Request.{Way};

    ghost way: { Self → Way };

    /// That it makes cells in its way.
    ghost IsReady: { Self → Type 0 };

    /// Whether values of the type are taken.
    fn takes(&self, dtype: &DataType) -> bool
        ensures { result ≡ takes (way self.now) (kind_of dtype.now) };

    /// Whether a group is to have one row.
    fn wants_one_row(&self) -> bool
        ensures { result ≡ is_one_row (way self.now) };

    /// The column of one value for each group, of a column whose rows are in the groups.
    ///
    /// # Errors
    ///
    /// What the way has to say of the values, or `OutOfMemory`.
    fn made(&self, alloc: Global, column: &Series, groups: &Groups) -> PolarsResult<Series>
        requires ready { IsReady self.now }
        requires groups { AreGroupsOf (length (values column.now)) groups.now }
        ensures settles { Settles result (made_cause (way self.now) groups.now column.now) }
        ensures made { IfOk result (IsMade (way self.now) groups.now column.now) };
}

/// An aggregate, and without one the value of the one row.
impl CellMaker for Option<Aggregate> {
    ghost use Rattle.std.specs.Prelude.{⊤};
    ghost use Rattle.tb_pivot.specs.Promise.Request.{way_of};

    ghost way = { way_of };

    ghost IsReady = { λ _. ⊤ };

    fn takes(&self, dtype: &DataType) -> bool {
        match self {
            Some(agg) => agg.takes(dtype),
            None => true,
        }
    }

    fn wants_one_row(&self) -> bool {
        self.is_none()
    }

    fn made(&self, alloc: Global, column: &Series, groups: &Groups) -> PolarsResult<Series> {
        match self {
            Some(agg) => aggregated(alloc, column, groups, *agg),
            None => aggregated(alloc, column, groups, Aggregate::First),
        }
    }
}
