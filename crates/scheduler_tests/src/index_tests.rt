ghost use Rattle.std.specs.Prelude.{◌<◌};

use crate::choosers::{opened, with_heads};
use crate::samples::{expect_same, send_away};
use eligible_index::index::IndexChooser;
use fq_model::config::Policy;
use std::alloc::Global;
use std::process::Abort;
use tag_rules::chooser::Chooser;
use tag_rules::keys::keys;
use winner_tree::Key;

// The second worker's trees begin with these keys: of those that are eligible later, and of those that are eligible.
fn expect_trees<R: Abort>(
    rt: &R,
    chooser: &IndexChooser,
    later: Option<(u32, Key)>,
    eligible: Option<(u32, Key)>,
)
    requires { 1 < chooser.now.chooser.setting.most_workers }
{
    let told = [chooser.later(1).first(), chooser.eligible(1).first()];
    expect_same(rt, told, [later, eligible]);
}

// The second of four workers begins a quarter of a length early, the second of two half a length: the first tenant's
// head is eligible from 6 units on, then from 4, the second's from 5.25 units on, then from 5. At 4.5 units the first
// is, once the workers are two.
fn expect_resized_trees<R: Abort>(rt: &R, alloc: Global) {
    let long = keys(8388608, 8, 1, 0);
    let short = keys(5767168, 1, 1, 1);
    let mut chooser = with_heads::<IndexChooser, R>(rt, alloc, Policy::TwoDfq, 4, long, short);
    let of_four = chooser.choose(1, 4718592);
    let second = Key {
        a: 5505024,
        b: 6815744,
        c: 1,
    };
    expect_trees(rt, &chooser, Some((1, second)), None);
    chooser.resize(2);
    let of_two = chooser.choose(1, 4718592);
    let second = Key {
        a: 5242880,
        b: 6815744,
        c: 1,
    };
    let first = Key {
        a: 16777216,
        b: 0,
        c: 0,
    };
    expect_trees(rt, &chooser, Some((1, second)), Some((0, first)));
    chooser.resize(4);
    let told = [of_four, of_two, chooser.choose(1, 4718592)];
    expect_same(rt, told, [Some(1), Some(0), Some(1)]);
    send_away(chooser);
}

#[test]
fn trees_follow_the_number_of_workers(rt: HostRuntime) {
    expect_resized_trees(&rt, rt.alloc());
}

// The head of the first tenant goes and comes between two choices, and goes again before the third.
fn expect_changes<X: Chooser + Drop, R: Abort>(rt: &R, alloc: Global) {
    let mut chooser = opened::<X, R>(rt, alloc, Policy::Wfq, 1, 2);
    chooser.set(0, Some(keys(0, 4, 1, 0)));
    chooser.set(1, Some(keys(0, 5, 1, 1)));
    let at_first = chooser.choose(0, 0);
    chooser.set(0, None);
    chooser.set(0, Some(keys(0, 6, 1, 2)));
    let changed = chooser.choose(0, 0);
    chooser.set(1, None);
    let alone = chooser.choose(0, 0);
    chooser.set(0, None);
    let told = [at_first, changed, alone, chooser.choose(0, 0)];
    expect_same(rt, told, [Some(0), Some(1), Some(0), None]);
}

#[test]
fn a_tenant_changes_twice(rt: HostRuntime) {
    expect_changes::<IndexChooser, HostRuntime>(&rt, rt.alloc());
}
