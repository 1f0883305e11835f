use crate::samples::{expect_same, expect_true};
use gate_rules::cost_rule::{CostRule, WorkCost};
use gate_rules::counters::{Counters, NO_COUNTERS};
use gate_rules::gate::{Gate, Slice};
use gate_rules::kind_rule::{Kind, KindRule};
use gate_rules::steps::Steps;

fn work(work: u64) -> Counters {
    Counters {
        work,
        items: 0,
        bytes: 0,
    }
}

// Job 0 is worked on by steps; the other jobs have no known course, and never end.
#[derive(Drop)]
struct FirstBySteps {
    steps: Steps,
}

impl Gate<u64> for FirstBySteps {
    ghost use Rattle.std.specs.Prelude.{◌==◌, if◌then◌else◌, Some, None};

    ghost course = { λ gate label. if label == 0 then Some gate.steps else None };

    fn slice(&self, job: &u64, k: u32, last: Counters) -> Slice {
        if *job == 0 {
            self.steps.slice(k, last)
        } else {
            Slice::More(Counters {
                items: last.items.saturating_add(1),
                ..last
            })
        }
    }
}

#[test]
fn gate_by_steps(rt: HostRuntime) {
    let gate = FirstBySteps {
        steps: Steps::new(3, 7),
    };
    let one = Counters {
        work: 0,
        items: 1,
        bytes: 0,
    };
    let told = [
        gate.slice(&0, 0, NO_COUNTERS),
        gate.slice(&0, 1, work(3)),
        gate.slice(&0, 2, work(6)),
        gate.slice(&0, 0, work(5)),
        gate.slice(&1, 9999, NO_COUNTERS),
    ];
    let wanted = [
        Slice::More(work(3)),
        Slice::More(work(6)),
        Slice::End(work(7)),
        Slice::More(work(5)),
        Slice::More(one),
    ];
    expect_same(&rt, told, wanted);
}

#[test]
fn steps_of_a_cost(rt: HostRuntime) {
    let greatest = Steps::new(1, 1000000000);
    // Without refresh, or with more than the cost, it is one slice.
    let told = [
        Steps::new(0, 7).slice(0, NO_COUNTERS),
        Steps::new(8, 7).slice(0, NO_COUNTERS),
        greatest.slice(9998, NO_COUNTERS),
        greatest.slice(9999, work(999900000)),
    ];
    let wanted = [
        Slice::End(work(7)),
        Slice::End(work(7)),
        Slice::More(work(999900000)),
        Slice::End(work(1000000000)),
    ];
    expect_same(&rt, told, wanted);
    // 10,000 slices of 1 are too few for one more, which takes steps of 2.
    let counts = [
        Steps::new(3, 6).count(),
        Steps::new(1, 10000).count(),
        Steps::new(1, 10001).count(),
    ];
    expect_same(&rt, counts, [2, 10000, 5001]);
}

#[test]
fn compared_part_by_part(rt: HostRuntime) {
    let other = Counters {
        work: 1,
        items: 2,
        bytes: 3,
    };
    expect_true(&rt, work(1).is_at_most(other));
    expect_true(&rt, !work(2).is_at_most(other));
    expect_true(&rt, !other.is_at_most(work(2)));
}

#[derive(Drop)]
pub(crate) struct Parity;

impl Kind<u64> for Parity {
    ghost use Rattle.std.specs.Prelude.{◌%◌};

    ghost kind_of = { λ _ job. job % 2 };

    fn kind(&self, job: &u64) -> u32 {
        (*job % 2) as u32
    }
}

#[test]
fn rules_of_costs_and_kinds(rt: HostRuntime) {
    let costs = CostRule::new(WorkCost);
    let told = [costs.cost(work(999999999)), costs.cost(work(u64::MAX))];
    expect_same(&rt, told, [999999999, 1000000000]);
    let kinds = KindRule::new(Parity, 2);
    expect_same(&rt, [kinds.kind(&4), kinds.kind(&5)], [0, 1]);
}
