//! A chooser that keeps two trees of winners a worker: the heads that are eligible for it, by finish, and the others,
//! by the virtual time from which on they are. A choice looks at the first of a tree in place of all heads.
//!
//! A change of a head's keys concerns the trees of every worker. They are lazy: the change is noted for each worker,
//! and its trees catch up when that worker chooses.
#![tactic(auto)]

pub mod index;
mod keys;
mod marked;
mod noted;
mod trees;
