//! How far one tenant that waits may get ahead of another that waits too, at weights and numbers of workers that
//! change: whatever the costs, and where every cost is as declared.
#![tactic(auto)]

pub mod laws;
