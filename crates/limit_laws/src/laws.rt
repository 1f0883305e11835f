//! The laws, one function a law: its contract is the law, and its body is empty.
ghost use Rattle.limit_laws.specs.Laws.{LimitsChangeNoNumber, LimitsChangeNoChoice, NumbersKeepLimits, NumbersKeepText, TextKeepsLimits, LegalWeights, FitsUnderLimits, LegalUnderLimits, LegalUnderText, TextIsLegal, AnswersAreAlike, OutcomesAreAlike, TextOutcomesAreAlike};

/// Weights, charges, estimates, virtual time, tags and keys of a history are the same under any limits.
pub fn limits_change_no_number()
    ensures { LimitsChangeNoNumber }
{}

/// A worker takes the same request, at the same estimate, under any limits.
pub fn limits_change_no_choice()
    ensures { LimitsChangeNoChoice }
{}

/// A configuration whose numbers are within other limits passes the check under these.
pub fn numbers_keep_limits()
    ensures { NumbersKeepLimits }
{}

/// So does one whose numbers are within the limits of texts.
pub fn numbers_keep_text()
    ensures { NumbersKeepText }
{}

/// The configuration of a text passes the check under all limits.
pub fn text_keeps_limits()
    ensures { TextKeepsLimits }
{}

/// A legal history gives no weight above the limits that its configuration keeps.
pub fn legal_weights()
    ensures { LegalWeights }
{}

/// An act that fits under some limits fits under others, if it gives no weight above these.
pub fn fits_under_limits()
    ensures { FitsUnderLimits }
{}

/// A history that is legal under some limits is legal under others, if it gives no weight above these.
pub fn legal_under_limits()
    ensures { LegalUnderLimits }
{}

/// So a history is legal under the limits of texts, if it is legal under some limits and gives no weight above those of
/// texts.
pub fn legal_under_text()
    ensures { LegalUnderText }
{}

/// A history that is legal under the limits of texts is legal under all limits.
pub fn text_is_legal()
    ensures { TextIsLegal }
{}

/// A call that asks for no weight above either limits is answered alike under both.
pub fn answers_are_alike()
    ensures { AnswersAreAlike }
{}

/// So are calls one by one.
pub fn outcomes_are_alike()
    ensures { OutcomesAreAlike }
{}

/// Calls that ask for no weight above those of texts have the same replies and the same history under all limits.
pub fn text_outcomes_are_alike()
    ensures { TextOutcomesAreAlike }
{}
