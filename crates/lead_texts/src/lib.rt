//! The answer of `lead` to its input: a crate beside `command_texts`, whose other commands need not wait for the proofs
//! of leads.
#![tactic(auto)]

pub mod leading;
