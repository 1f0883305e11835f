//! Tests of the scheduler and of its parts, as callers use them.
#![tactic(auto)]

#[cfg(test)]
mod account_tests;
#[cfg(test)]
mod caller_tests;
#[cfg(test)]
mod charge_tests;
#[cfg(test)]
mod choosers;
#[cfg(test)]
mod clock_tests;
#[cfg(test)]
mod estimate_tests;
#[cfg(test)]
mod fitted_tests;
#[cfg(test)]
mod foresee_tests;
#[cfg(test)]
mod gap_tests;
#[cfg(test)]
mod index_tests;
#[cfg(test)]
mod key_tests;
#[cfg(test)]
mod lead_tests;
#[cfg(test)]
mod list_tests;
#[cfg(test)]
mod order_tests;
#[cfg(test)]
mod policy_tests;
#[cfg(test)]
mod recent_tests;
#[cfg(test)]
mod samples;
#[cfg(test)]
mod shared_tests;
#[cfg(test)]
mod simulation_tests;
#[cfg(test)]
mod tree_tests;
#[cfg(test)]
mod wide_tests;
