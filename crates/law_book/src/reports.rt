//! Laws of reports.
ghost use Rattle.fq_model.specs.Ranks.{OneAtRank};
ghost use Rattle.lag_report.specs.Laws.{AutoSlotServes, RowsCountSubmits};

/// At a rank of samples stands one number at most.
pub fn one_at_rank()
    ensures { OneAtRank }
{}

/// The automatic slot may be asked for, and gives no legal history too many cells.
pub fn auto_slot_serves()
    ensures { AutoSlotServes }
{}

/// The requests of all tenants' rows are the Submits of the history.
pub fn rows_count_submits()
    ensures { RowsCountSubmits }
{}
