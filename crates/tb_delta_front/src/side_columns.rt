//! The columns of a side, with their names as a set.
ghost use Rattle.std.specs.Prelude.{◌≡◌};
ghost use Rattle.tb_value.specs.Promise.Names.{Name};
ghost use Rattle.tb_frame.specs.NameSets.{has_name};
ghost use Rattle.tb_frame.specs.Promise.Naming.{is_among};
ghost use Rattle.tb_frame.specs.Promise.Table.{names_of, table_of};

use tb_frame::NameSet;
use tb_store::Column;

/// The columns of a side, and their names, among which those of each row's members are looked up.
#[derive(Drop)]
pub(crate) struct SideColumns<'a> {
    pub columns: &'a [Column],
    pub names: NameSet<'a>,
    ghost known: { (n : Name) → has_name names n ≡ is_among (names_of (table_of columns.now)) n },
}
