//! The laws of joins in parts: functions that do nothing, whose contracts are theorems.
ghost use Rattle.tb_parts.specs.Laws.{EachListing, AllListings, PartListing, PartListings, PartOrder, PartNames, PartColumns, PartRows, PartAnswers, PartValidation, PartCauses, PartsValid};

/// However rows are parted so that those that match have one part, the listings of the parts are the whole listing.
pub fn listings()
    ensures each { EachListing }
    ensures all { AllListings }
{}

/// A join is the joins of its parts: rows fall into parts by any function of the fields of their keys. Nothing is said of
/// slices, and of a whole with too many pairs of which each part has few.
pub fn parts_join()
    ensures each { PartListing }
    ensures listing { PartListings }
    ensures order { PartOrder }
    ensures names { PartNames }
    ensures columns { PartColumns }
    ensures rows { PartRows }
    ensures answer { PartAnswers }
    ensures validation { PartValidation }
    ensures causes { PartCauses }
    ensures valid { PartsValid }
{}
