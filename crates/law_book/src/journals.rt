//! Laws of journals and their texts.
ghost use Rattle.law_book.specs.Journals.{JournalsTellHistories, JournalsReadBack, StreamedReadBack};
ghost use Rattle.law_book.specs.Journals.{LegalEntriesFit, LegalIsJudgedLegal, StreamedIsJudgedLegal};

/// Two histories with equal journals are equal, where the configuration and the names are the same.
pub fn journals_tell_histories()
    ensures { JournalsTellHistories }
{}

/// Reading the text of a journal gives the document that was printed: its configuration, its names and its entries.
/// The configuration is within its limits, its history is one that may be kept whole, the names are lawful and differ,
/// and each number fits its type.
pub fn journals_read_back()
    ensures { JournalsReadBack }
{}

/// And so does reading the journal that was written as its entries came.
pub fn streamed_read_back()
    ensures { StreamedReadBack }
{}

/// In a legal history each number of an entry fits its type, where the callers' numbers and the labels do.
pub fn legal_entries_fit()
    ensures { LegalEntriesFit }
{}

/// The printed journal of a legal history that may be kept whole is judged legal where it is read.
pub fn legal_is_judged_legal()
    ensures { LegalIsJudgedLegal }
{}

/// And so is the journal that was written as its entries came.
pub fn streamed_is_judged_legal()
    ensures { StreamedIsJudgedLegal }
{}
