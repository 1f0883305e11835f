//! How the submitters and workers of a desk, and those who watch it, do their part, each in a thread of its own.
#![tactic(auto)]

pub mod feed;
pub mod pool;
mod watch;
pub mod work;

pub use gate_rules::cost_rule::{Cost, CostRule, WorkCost};
pub use gate_rules::counters::{Counters, NO_COUNTERS};
pub use gate_rules::gate::{Gate, Slice};
pub use gate_rules::kind_rule::{Kind, KindRule};
pub use gate_rules::logged_gate::{Asked, LoggedGate, SliceLog};
pub use gate_rules::rows::{Fed, Row};
