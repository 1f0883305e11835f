//! Tests of traces: read, generated and printed, and shaped; and of the best of some rows.
#![tactic(auto)]

#[cfg(test)]
mod best_tests;
#[cfg(test)]
mod reading_tests;
#[cfg(test)]
mod samples;
#[cfg(test)]
mod shaping_tests;
