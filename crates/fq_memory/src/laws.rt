//! Laws of sources and sinks that fail only where they must, for proofs above this crate. Nothing here runs.
ghost use Rattle.fq_memory.specs.Laws.{CleanSourceNeverFails, CleanSinkNeverFails};

/// Reading a clean source never fails.
pub fn clean_source_never_fails()
    ensures { CleanSourceNeverFails }
{}

/// Writing a text to a fresh clean sink with more room than the text has bytes never fails.
pub fn clean_sink_never_fails()
    ensures { CleanSinkNeverFails }
{}
