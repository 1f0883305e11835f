//! How far one tenant gets ahead of another while both wait, whatever requests cost, and what bounds it.
#![tactic(auto)]

mod doubts;
pub mod fault;
mod greatest;
pub mod leads;
mod limits;
mod maxima;
mod measuring;
mod spans;
