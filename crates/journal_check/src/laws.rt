//! Laws of verdicts and explanations.
ghost use Rattle.journal_check.specs.Laws.{OneVerdict, LegalIsLegal, OneExplanation};

/// The entries of a journal have one verdict at most.
pub fn one_verdict()
    ensures { OneVerdict }
{}

/// The verdict is that the entries are legal where and only where their history is.
pub fn legal_is_legal()
    ensures { LegalIsLegal }
{}

/// The explanations of a request of legal entries have one text.
pub fn one_explanation()
    ensures { OneExplanation }
{}
