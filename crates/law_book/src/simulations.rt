//! Laws of simulated histories.
ghost use Rattle.law_book.specs.Simulations.{OneSimulated, SomeSimulated, EntriesNeeded, AllAreDone};

/// A trace and its options fix the simulated history.
pub fn one_simulated()
    ensures { OneSimulated }
{}

/// Where the entries that are needed are not too many, there is one.
pub fn some_simulated()
    ensures { SomeSimulated }
{}

/// It has just those entries.
pub fn entries_needed()
    ensures { EntriesNeeded }
{}

/// All that it submits is done.
pub fn all_are_done()
    ensures { AllAreDone }
{}
