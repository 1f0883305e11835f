//! Tests of the program as a library, and of its devices, each of which fails at any one of its calls.
#![tactic(auto)]

#[cfg(test)]
mod clean_tests;
#[cfg(test)]
mod compared_tests;
#[cfg(test)]
mod device_tests;
#[cfg(test)]
mod io_tests;
#[cfg(test)]
mod live_tests;
#[cfg(test)]
mod overlap_tests;
#[cfg(test)]
mod samples;
#[cfg(test)]
mod stop_tests;
#[cfg(test)]
mod worked_tests;
