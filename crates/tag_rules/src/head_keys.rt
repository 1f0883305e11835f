//! The keys that heads are compared by.
use std::marker::Model;

/// The keys that the head of a tenant is compared by: its start and its length by the estimate, both in steps of
/// virtual time, and its number. A start is 0 to `GREATEST_START`, a length 0 to `GREATEST_LENGTH`: `keys` keeps
/// to these ranges.
#[derive(Clone, Copy, Debug, PartialEq, Eq)]
pub struct Keys {
    pub start: i128,
    pub len: i128,
    pub request: u32,
}

impl Model for Keys {
    ghost use Rattle.fq_model.specs.Keys.{HeadKeys};
    ghost use Rattle.tag_rules.specs.Keys.{IsInRange};

    ghost Value = { HeadKeys };

    ghost view = { λ k. record { start = k.start; len = k.len; request = k.request } };

    ghost invariant = { λ k. IsInRange k.start k.len };

    ghost inverse = { λ k. record { start = k.start; len = k.len; request = k.request } };
}
