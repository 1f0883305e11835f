//! Laws of rounding.
ghost use Rattle.vt_fixed.specs.Rounding.{LengthIsMonotone, LengthFallsWithWeight, LengthCovers, CostIsReadBack, DecayIsMonotone, PartIsAtMostLength};

/// A greater cost has no smaller length.
pub fn length_is_monotone()
    ensures { LengthIsMonotone }
{}

/// A greater weight has no greater length.
pub fn length_falls_with_weight()
    ensures { LengthFallsWithWeight }
{}

/// A length times the weight covers the cost, and no smaller number does.
pub fn length_covers()
    ensures { LengthCovers }
{}

/// A length tells its cost, at a weight of no more than the steps of a virtual unit.
pub fn cost_is_read_back()
    ensures { CostIsReadBack }
{}

/// A greater number has no smaller decay.
pub fn decay_is_monotone()
    ensures { DecayIsMonotone }
{}

/// A part is at most its length (and never below 0, since it is a natural number).
pub fn part_is_at_most_length()
    ensures { PartIsAtMostLength }
{}
