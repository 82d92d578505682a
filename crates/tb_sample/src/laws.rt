//! What holds of the sample, whatever the number of rows: functions that do nothing, whose contracts are theorems.
ghost use Rattle.tb_sample.specs.Laws.{HasSummary, IsOne, IsValid};

/// No cause refuses the join of the two tables, and there is a summary of an answer to it.
pub fn always_done()
    ensures valid { IsValid }
    ensures summary { HasSummary }
{}

/// Whichever answer is summed up, the summary is the same: the height is the number of rows, and the sums are those of the right
/// table's columns.
pub fn one_summary()
    ensures { IsOne }
{}
