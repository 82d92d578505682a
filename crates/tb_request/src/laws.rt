//! What holds of the definitions, each as the contract of an empty function.
ghost use Rattle.std.specs.Prelude.{◌↔◌, List, IsTrue};
ghost use Rattle.tb_value.specs.Promise.Datum.{Datum};
ghost use Rattle.tb_value.specs.Promise.Kind.{Kind};
ghost use Rattle.tb_value.specs.declared.sorted.IsSorted.{IsSorted};
ghost use Rattle.tb_chunk.specs.Flag.{FlagHolds};
ghost use Rattle.tb_request.specs.Promise.Flags.{flag_holds};

/// The test of a flag says whether it is true.
pub fn flag_tests()
    ensures { (flag : IsSorted) (kind : Kind) (values : List Datum)
        → (IsTrue (flag_holds flag kind values) ↔ FlagHolds flag kind values) }
{}
