//! The flags of gathered values.
ghost use Rattle.std.specs.Prelude.{◌≡◌};
ghost use Rattle.tb_gather.specs.Gathered as gather;

use tb_value::IsSorted;

/// How the values of a column run that are taken by ids which run so: Ascending where both run in one direction,
/// Descending where in opposite ones, Not where either is Not.
pub(crate) fn gathered_flag(column: IsSorted, ids: IsSorted) -> IsSorted
    ensures { result ≡ gather.gathered_flag column ids }
{
    match (column, ids) {
        (IsSorted::Ascending, IsSorted::Ascending) => IsSorted::Ascending,
        (IsSorted::Ascending, IsSorted::Descending) => IsSorted::Descending,
        (IsSorted::Descending, IsSorted::Ascending) => IsSorted::Descending,
        (IsSorted::Descending, IsSorted::Descending) => IsSorted::Ascending,
        _ => IsSorted::Not,
    }
}
