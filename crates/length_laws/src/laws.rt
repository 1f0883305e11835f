//! The laws, one function a law: its contract is the law, and its body is empty.
ghost use Rattle.length_laws.specs.Laws.{LengthsAreForetold, WorstLeadIsForetold};

/// Where no estimate, use or cost of two tenants passes c, and neither weight falls below w, no request of the two is
/// longer than c at weight w.
pub fn lengths_are_foretold()
    ensures { LengthsAreForetold }
{}

/// So while both wait, neither gets ahead of the other by more than it was where both began to wait, or by n + 1 times
/// that length, on n workers.
pub fn worst_lead_is_foretold()
    ensures { WorstLeadIsForetold }
{}
