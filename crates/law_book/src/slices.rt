//! Laws of work slice by slice.
ghost use Rattle.gate_rules.specs.Slices.{SlicesGoOn};
ghost use Rattle.gate_rules.specs.Stepping.{StepsCountUp};

/// A job of which each slice is handed the counters of the slice before comes to its total, and ends there.
pub fn slices_go_on()
    ensures { SlicesGoOn }
{}

/// Steps come to the cost, in no more slices than a request may have, and each slice before the last comes to a whole
/// number of steps.
pub fn steps_count_up()
    ensures { StepsCountUp }
{}
