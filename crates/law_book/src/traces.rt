//! Laws of traces and their texts, and of generated traces.
ghost use Rattle.law_book.specs.Traces.{ReadsBack, GeneratedReadsBack, GeneratedIsShort};

/// Reading the text of a lawful trace, whose kinds are in the order of their first requests, gives the trace.
pub fn reads_back()
    ensures { ReadsBack }
{}

/// Reading the text of a generated trace gives the trace.
pub fn generated_reads_back()
    ensures { GeneratedReadsBack }
{}

/// The simulated history of a generated trace under the default options has room in a history.
pub fn generated_is_short()
    ensures { GeneratedIsShort }
{}
