//! The laws of tables in parts: functions that do nothing, whose contracts are theorems.
ghost use Rattle.tb_split.specs.Laws.{SplitMeets};

/// Two tables that are parted by the keys of a join meet part by part.
pub fn split_meets()
    ensures { SplitMeets }
{}
