//! A service of many tenants over schedulers: its configuration, its calls and their outcomes, and the definitions that
//! say what each call answers and what the service then is.
#![tactic(auto)]

pub mod call;
pub mod config;
pub mod limits;
pub mod outcome;
pub mod refusal;

pub use call::ServiceCall;
pub use config::{KindLimits, ServiceConfig, ServiceFault};
pub use outcome::{Grant, ServiceOutcome};
pub use refusal::ServiceRefusal;
