//! The gate, which runs a job slice by slice and counts its use, the rules that costs and kinds come from, and the rows
//! that a submitter hands in.
#![tactic(auto)]

pub mod cost_rule;
pub mod counters;
pub mod gate;
pub mod kind_rule;
pub mod logged_gate;
pub mod rows;
pub mod steps;
