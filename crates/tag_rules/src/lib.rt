//! The charges and the tags of tenants, the keys of their heads, the order of the keys at a turn of a worker, and the
//! traits of a chooser and of one that foresees a choice.
#![tactic(auto)]

pub mod accounts;
pub mod chooser;
pub mod foresees;
pub mod head_keys;
pub mod keys;
pub mod pass;
pub mod scan;
pub mod turn;
