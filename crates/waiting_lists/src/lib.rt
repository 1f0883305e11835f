//! Lists of waiting items, one a tenant, linked by index over one vector of slots.
#![tactic(auto)]

mod cells;
pub mod item;
mod links;
pub mod lists;
mod taking;

pub use item::Item;
pub use lists::Lists;
