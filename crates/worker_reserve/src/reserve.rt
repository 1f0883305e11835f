//! The reserve: the demand of all requests and of visitors', and the answer to a free worker.
ghost use Rattle.std.specs.Prelude.{◌≡◌, ◌≤◌, ◌++◌, ◌∷◌, [], ◌↔◌, IsTrue, if◌then◌else◌};
ghost use Rattle.worker_reserve.specs.Demand.{IsPast};
ghost use Rattle.worker_reserve.specs.Reserve.{ReserveView, demand_beside, end_of, with_end};
ghost use Rattle.worker_reserve.specs.Rule.{Declines, IsInRange};

use crate::class::class_of;
use crate::demand::{Demand, Ended};
use crate::rule::{Budget, Question};
use std::marker::Model;

/// The end of a request: the moment, how long it ran, its estimate and its cost, all in microseconds, and whether it
/// was a visitor's when it was taken.
#[derive(Clone, Copy, Debug)]
pub struct Finished {
    pub moment: u64,
    pub ran: u64,
    pub estimate: u64,
    pub cost: u64,
    pub is_visitor: bool,
}

/// The demand of requests by size, of all and of visitors alone. It takes no memory after opening, and a call takes
/// time for 30 classes. Contracts see the ends of all requests, and those of visitors' alone.
#[derive(Drop)]
pub struct Reserve {
    all: Demand,
    visitors: Demand,
}

impl Model for Reserve {
    ghost use Rattle.worker_reserve.specs.Reserve.{ReserveView};

    ghost Value = { ReserveView };

    ghost view = { λ r. record { ends = r.all; visits = r.visitors } };
}

impl Reserve {
    /// A reserve before any request has ended.
    pub fn new() -> Reserve
        ensures { result ≡ record { ends = []; visits = [] } }
    {
        Reserve {
            all: Demand::new(),
            visitors: Demand::new(),
        }
    }

    /// A request has ended, none later than this one.
    pub fn ended(&mut self, finished: Finished)
        requires in_order { IsPast self.old.ends finished.moment }
        requires visits_in_order { IsPast self.old.visits finished.moment }
        requires estimate { finished.estimate ≤ 1000000000 }
        requires cost { finished.cost ≤ 1000000000 }
        ensures { self.new ≡ with_end self.old finished }
    {
        let end = Ended {
            moment: finished.moment,
            ran: finished.ran,
            class: class_of(finished.estimate.max(finished.cost)),
        };
        self.all.ended(end);
        if finished.is_visitor {
            self.visitors.ended(end);
        }
    }

    /// Whether a free worker declines its choice, of this estimate, and stays free for smaller requests.
    pub fn declines(&self, moment: u64, estimate: u64, budget: &Budget, question: &Question) -> bool
        requires in_order { IsPast self.now.ends moment }
        requires visits_in_order { IsPast self.now.visits moment }
        requires estimate { estimate ≤ 1000000000 }
        requires budget { IsInRange budget.now }
        ensures { IsTrue result ↔ Declines budget.now question.now (demand_beside estimate self.now.ends moment)
            (demand_beside estimate self.now.visits moment) }
    {
        let class = class_of(estimate / 8);
        let smaller = self.all.below(class, moment);
        let visitors = self.visitors.below(class, moment);
        budget.declines(question, smaller, visitors)
    }
}
