//! A chooser that looks at the keys of all heads, under every policy.
#![tactic(auto)]

pub mod plain;
