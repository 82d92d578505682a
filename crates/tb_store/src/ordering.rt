//! Whether the values of a column ascend, or descend.
ghost use Rattle.std.specs.Prelude.{◌↔◌, IsTrue};
ghost use Rattle.tb_value.specs.declared.sorted.IsSorted.TheVariants.{Ascending, Descending};
ghost use Rattle.tb_chunk.specs.Promise.Col.{values};
ghost use Rattle.tb_chunk.specs.Flag.{FlagHolds, IsOrdered};
ghost use Rattle.tb_cell.specs.Promise.Order.{order_of};

use crate::column::Column;
use crate::series::Series;

impl Series {
    /// Whether the flag Ascending would be true of the values. Its steps are in their number.
    pub fn is_ascending(&self) -> bool
        ensures { IsTrue result ↔ FlagHolds Ascending self.now.kind (values self.now) }
    {
        self.is_ordered(false)
    }

    /// Whether the flag Descending would be true of the values. Its steps are in their number.
    pub fn is_descending(&self) -> bool
        ensures { IsTrue result ↔ FlagHolds Descending self.now.kind (values self.now) }
    {
        self.is_ordered(true)
    }

    fn is_ordered(&self, descending: bool) -> bool
        ensures { IsTrue result ↔ IsOrdered (order_of descending) self.now.kind (values self.now) }
    {
        let _len = self.len();
        self.dtype().is_key() && self.chunks().keeps_order(descending)
    }
}

impl Column {
    /// As `Series::is_ascending`.
    pub fn is_ascending(&self) -> bool
        ensures { IsTrue result ↔ FlagHolds Ascending self.now.kind (values self.now) }
    {
        self.as_materialized_series().is_ascending()
    }

    /// As `Series::is_descending`.
    pub fn is_descending(&self) -> bool
        ensures { IsTrue result ↔ FlagHolds Descending self.now.kind (values self.now) }
    {
        self.as_materialized_series().is_descending()
    }
}
