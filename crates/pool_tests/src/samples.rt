//! Desks of few tokens: how they are opened and ended.
ghost use Rattle.std.specs.Prelude.{◌≡◌, [], ◌∷◌};
ghost use Rattle.history_lock.specs.Passes.{IsOf};
ghost use Rattle.desk.specs.Ending.{HoldsOfEach};

use desk::{Desk, Submitter, Worker};
use fq_model::config::{Checked, Config};
use fq_model::event::Entry;
use sched_state::Scheduler;
use std::alloc::Global;
use std::fmt::{Debug, Display};
use std::process::Abort;
use tag_rules::chooser::Chooser;
use test_samples::sample_config;

/// One tenant of weight 1, and costs as declared.
pub fn configured<R: Abort>(
    rt: &R,
    alloc: Global,
    workers: u32,
    kinds: u32,
    entries: u32,
    requests: u32,
) -> Checked
    ensures { result.kinds ≡ kinds }
{
    let weights = vec![in alloc; 1].expect(rt, "memory for a weight");
    let config = Config {
        workers,
        kinds,
        entries,
        requests,
        ..sample_config(weights)
    };
    config.check().expect(rt, "numbers in their limits")
}

/// The only token of a vector.
pub fn only<T, R: Abort>(rt: &R, mut tokens: Vec<T>) -> T
    ensures { tokens.items ≡ result ∷ [] }
{
    let token = tokens.pop().expect(rt, "a token");
    if !tokens.is_empty() {
        panic!(rt; "no other token")
    }
    tokens.destroy_empty();
    token
}

/// The two tokens of a vector.
pub fn both<T, R: Abort>(rt: &R, mut tokens: Vec<T>) -> (T, T)
    ensures { tokens.items ≡ result.0 ∷ result.1 ∷ [] }
{
    let second = tokens.pop().expect(rt, "a token");
    (only(rt, tokens), second)
}

/// A vector of one token.
pub fn one<T, R: Abort>(rt: &R, alloc: Global, token: T) -> Vec<T>
    ensures { result.items ≡ token ∷ [] }
{
    let mut tokens = Vec::new(alloc);
    tokens.push(token).expect(rt, "memory for a token");
    tokens
}

/// A vector of two tokens.
pub fn two<T, R: Abort>(rt: &R, alloc: Global, first: T, second: T) -> Vec<T>
    ensures { result.items ≡ first ∷ second ∷ [] }
{
    let mut tokens = one(rt, alloc, first);
    tokens.push(second).expect(rt, "memory for a token");
    tokens
}

/// A desk of one submitter and one worker, with its tokens.
pub fn opened<X: Chooser + Drop, R: Abort>(
    rt: &R,
    alloc: Global,
    config: Checked,
) -> (Desk<u64, X>, Submitter, Worker)
    ensures submitter { IsOf result.0.lock result.1.pass × (result.1.pass.number ≡ 0) }
    ensures worker { IsOf result.0.lock result.2.pass }
    ensures config { result.0.lock.frame.config ≡ config }
{
    let opened = Desk::<u64, X>::open(alloc, config, 1);
    let Ok((desk, submitters, workers)) = opened else {
        panic!(rt; "no memory for a desk")
    };
    (desk, only(rt, submitters), only(rt, workers))
}

// The entries of a scheduler that is given up.
fn entries_of<X: Chooser + Drop, R: Abort>(
    rt: &R,
    alloc: Global,
    scheduler: Scheduler<u64, X>,
) -> Vec<Entry> {
    scheduler
        .past()
        .to_vec(alloc)
        .expect(rt, "memory for entries")
}

/// Ends a desk of one submitter and one worker, and gives the entries of its scheduler.
pub fn ended<X: Chooser + Drop, R: Abort>(
    rt: &R,
    alloc: Global,
    desk: Desk<u64, X>,
    who: Submitter,
    worker: Worker,
) -> Vec<Entry>
    requires submitter { IsOf desk.lock who.pass × (who.pass.number ≡ 0) }
    requires worker { IsOf desk.lock worker.pass }
{
    let scheduler = desk
        .finish(one(rt, alloc, who), one(rt, alloc, worker))
        .expect(rt, "each turn was served");
    entries_of(rt, alloc, scheduler)
}

/// A desk of two submitters, with its tokens.
pub fn opened_for_two<X: Chooser + Drop, R: Abort>(
    rt: &R,
    alloc: Global,
    config: Checked,
) -> (Desk<u64, X>, Submitter, Submitter, Vec<Worker>)
    ensures zero { IsOf result.0.lock result.1.pass × (result.1.pass.number ≡ 0) }
    ensures one { IsOf result.0.lock result.2.pass }
    ensures workers { HoldsOfEach (λ t. IsOf result.0.lock t.pass) result.3.items }
{
    let opened = Desk::<u64, X>::open(alloc, config, 2);
    let Ok((desk, submitters, workers)) = opened else {
        panic!(rt; "no memory for a desk")
    };
    let (zero, one) = both(rt, submitters);
    (desk, zero, one, workers)
}

/// Ends a desk of two submitters, and gives the entries of its scheduler.
pub fn ended_for_two<X: Chooser + Drop, R: Abort>(
    rt: &R,
    alloc: Global,
    desk: Desk<u64, X>,
    zero: Submitter,
    one: Submitter,
    workers: Vec<Worker>,
) -> Vec<Entry>
    requires zero { IsOf desk.lock zero.pass × (zero.pass.number ≡ 0) }
    requires one { IsOf desk.lock one.pass }
    requires workers { HoldsOfEach (λ t. IsOf desk.lock t.pass) workers.items }
{
    let scheduler = desk
        .finish(two(rt, alloc, zero, one), workers)
        .expect(rt, "each turn was served");
    entries_of(rt, alloc, scheduler)
}

/// The two are equal.
pub fn expect_same<T: PartialEq + Debug + Drop, R: Abort>(rt: &R, told: T, wanted: T) {
    assert_eq!(rt; told, wanted);
}

/// The two are equal, in this case.
pub fn expect_same_at<D: Display + Drop, T: PartialEq + Debug + Drop, R: Abort>(
    rt: &R,
    case: D,
    told: T,
    wanted: T,
) {
    assert_eq!(rt; told, wanted, "at {case}");
}

/// It is so.
pub fn expect_true<R: Abort>(rt: &R, is_so: bool) {
    assert!(rt; is_so);
}
