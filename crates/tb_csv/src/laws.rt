//! What holds of texts and tables, as the contracts of empty functions.
ghost use Rattle.tb_csv.specs.Laws.{CellsBack, MarksFit, PiecesFit, RecordsBack, RoundTrip};

/// The records of a text have the bytes that the toolchain's reader reads, and each of their fields has a mark.
pub fn marks_fit()
    ensures { MarksFit }
{}

/// The records of a text are those of its pieces one after another, where it is cut before a line feed outside quotes.
pub fn pieces_fit()
    ensures { PiecesFit }
{}

/// The records of the text of a table are its names and the fields of its rows.
pub fn records_back()
    ensures { RecordsBack }
{}

/// A value is what its field is at its type, unless it is a Null among texts that stand alone in their records, or a day outside the
/// years 0 to 9999.
pub fn cells_back()
    ensures { CellsBack }
{}

/// A table, written with commas and read back with its types given, is the same table, if it has columns, its days are of the
/// years 0 to 9999, and it is no single column of texts with a Null among them.
pub fn csv_round_trip()
    ensures { RoundTrip }
{}
