//! What holds of the definitions of a column, as the contract of an empty function.
ghost use Rattle.std.specs.Prelude.{ℕ, ℤ, List, length};
ghost use Rattle.tb_value.specs.Promise.Datum.{Datum};
ghost use Rattle.tb_value.specs.Promise.Kind.{Kind};
ghost use Rattle.tb_value.specs.declared.sorted.IsSorted.{IsSorted};
ghost use Rattle.tb_chunk.specs.Flag.{FlagHolds};
ghost use Rattle.tb_chunk.specs.Window.{window};

/// A flag that is true of values is true of each part of them: a slice of an ascending column ascends.
pub fn parts_keep_flags()
    ensures { (flag : IsSorted) (t : Kind) (vs : List Datum) (offset : ℤ) (len : ℕ)
        → FlagHolds flag t vs → FlagHolds flag t (window (length vs) offset len vs) }
{}
