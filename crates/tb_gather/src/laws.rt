//! What holds of the definitions of a gather, as contracts of empty functions.
ghost use Rattle.std.specs.Prelude.{◌≡◌, ◌∷◌, [], ℕ, List, All, IsSome, map};
ghost use Rattle.std.specs.List.{sum};
ghost use Rattle.tb_value.specs.Promise.Datum.{Datum};
ghost use Rattle.tb_value.specs.declared.sorted.IsSorted.{IsSorted};
ghost use Rattle.tb_chunk.specs.Promise.Col.{Col, concatenation, values};
ghost use Rattle.tb_chunk.specs.Col.{IsColumn};
ghost use Rattle.tb_chunk.specs.Flag.{FlagHolds};
ghost use Rattle.tb_chunk.specs.Made.{IsOf};
ghost use Rattle.tb_view.specs.Promise.ViewArrays.{ViewArray};
ghost use Rattle.tb_frame.specs.Frame.{lens, lengths};
ghost use Rattle.tb_gather.specs.Ids.{Id, NamesRow, StandInOrder, row_or_none};
ghost use Rattle.tb_gather.specs.Gathered.{NameRows, gathered_column};
ghost use Rattle.tb_gather.specs.Kept.{kept_buffers};

/// A flag that is true of a column and one that is true of ids make a flag that is true of what they gather.
pub fn gathers_keep_flags()
    ensures { (c : Col) (ids : List Id) (sorted : IsSorted) → IsColumn c → All (λ (id : Id). IsSome id) ids →
        NameRows ids c → StandInOrder sorted ids → FlagHolds (gathered_column ids sorted c).flag c.kind (values (gathered_column ids sorted c)) }
{}

/// Cutting the chunks of a column anew changes no gather whose ids are mapped along, that is, which name the same rows, but
/// for the buffers that its texts lie in, of which there are more or fewer by the number of chunks.
pub fn rechunked()
    ensures { (c : Col) (chunks : List (List Datum)) (runs : List ViewArray) (ids along : List Id) (sorted : IsSorted) →
        concatenation chunks ≡ values c →
        map (row_or_none (lengths chunks)) along ≡ map (row_or_none (lens c)) ids →
        IsOf c.name c.kind (gathered_column ids sorted c).chunks (gathered_column ids sorted c).flag (gathered_column along sorted (record c { chunks = chunks; view_arrays = runs })) }
{}

/// A gather keeps the buffers of the only chunk; where there are more chunks than ids, those that its texts lie in; else those of
/// all chunks.
pub fn keeps_buffers()
    ensures { (c : Col) (ids : List Id) (sorted : IsSorted)
        → map (λ r. r.buffers) (gathered_column ids sorted c).view_arrays
        ≡ kept_buffers c.view_arrays ids
        ∷ [] }
{}

/// However as many rows are cut anew, each id can be mapped along: an id that names a row of one cut has one that
/// names the same row of the other.
pub fn mapped_along()
    ensures { (before after : List ℕ) (id : Id) → sum before ≡ sum after → NamesRow before id →
        (along : Id) × NamesRow after along × (row_or_none after along ≡ row_or_none before id) }
{}
