//! The laws over the definitions of the join: functions that do nothing, whose contracts are theorems.
ghost use Rattle.tb_join.specs.Laws.{OneAnswer, SomeAnswer, EachOnce, Parts, Kept, Turned, TurnedOrder, MatchesMean, SameValue, NullKeys, EqualFlags, FlaggedKeys, FlaggedTwins, RefusedFlags, FullRightLeft, SlicedRows, LeftByRight, TwoKeys, SplitTexts, RepeatedKeys, Validations, RefusedKeys, RefusedColumns};

/// Two answers to one request whose order is fixed are equal tables.
pub fn one_answer()
    ensures { OneAnswer }
{}

/// A request of two tables that is not refused has an answer. Where a coalesced Full join coalesces columns, they must
/// have one type.
pub fn some_answer()
    ensures { SomeAnswer }
{}

/// No pair stands twice in a listing, whichever rows match.
pub fn each_once()
    ensures { EachOnce }
{}

/// Each left row stands in exactly one of the Semi and Anti listings, and once.
pub fn parts()
    ensures { Parts }
{}

/// Each left row stands in a pair of a Left listing, and in one alone if the listing is as long as the left table.
pub fn kept()
    ensures { Kept }
{}

/// A Right join is the Left join of the exchanged request, with its pairs turned round.
pub fn turned()
    ensures listing { Turned }
    ensures order { TurnedOrder }
{}

/// Two rows match exactly where at every place their fields are present and equal, or both are Null and Nulls match.
pub fn matches_mean()
    ensures rows { MatchesMean }
    ensures values { SameValue }
{}

/// Null keys match none, or each other where that is asked.
pub fn null_keys()
    ensures { NullKeys }
{}

/// A flag for each key lists the same pairs as one flag for all keys, where each is that flag.
pub fn null_flags()
    ensures { EqualFlags }
{}

/// Two keys, of which each has its own flag: which rows match, and which count where keys are to be single; and flags
/// that are not as many as the keys.
pub fn flagged_keys()
    ensures pairs { FlaggedKeys }
    ensures twins { FlaggedTwins }
    ensures refused { RefusedFlags }
{}

/// A Full join in the order of the right table, by both ways to coalesce.
pub fn full_right_left()
    ensures { FullRightLeft }
{}

/// Slices that begin before the first row, have no length, begin after the last row, and end after it.
pub fn sliced_rows()
    ensures { SlicedRows }
{}

/// A left row without a match comes last in the order of the right table.
pub fn left_by_right()
    ensures { LeftByRight }
{}

/// A Right join on two keys lacks the left keys, and has Null where there is no left row.
pub fn two_keys()
    ensures { TwoKeys }
{}

/// Keys are compared one by one.
pub fn split_texts()
    ensures { SplitTexts }
{}

/// A left row with two matches stands once in a Semi join.
pub fn repeated_keys()
    ensures { RepeatedKeys }
{}

/// Validation asks one side, and does not count Null keys unless they match.
pub fn validations()
    ensures { Validations }
{}

/// Unknown, absent, uneven and repeated keys; types that differ or have no keys, and a name that is taken.
pub fn refusals()
    ensures keys { RefusedKeys }
    ensures columns { RefusedColumns }
{}
