ghost use Rattle.std.specs.Prelude.{◌≡◌, ◌<◌, pos};
ghost use Rattle.fq_model.specs.declared.config.Policy.TheVariants as policies;
ghost use Rattle.scheduler_tests.specs.ByTenant.{IsByTenant};

use crate::choosers::{UNIT, expect_lesser_first, expect_resized, opened, with_heads};
use crate::samples::expect_same;
use fq_model::config::Policy;
use shared_order::chooser::SharedChooser;
use std::alloc::Global;
use std::process::Abort;
use tag_rules::chooser::Chooser;
use tag_rules::head_keys::Keys;
use tag_rules::keys::keys;

#[test]
fn resized(rt: HostRuntime) {
    expect_resized::<SharedChooser, HostRuntime>(&rt, rt.alloc());
}

#[test]
fn equal_finishes(rt: HostRuntime) {
    expect_lesser_first::<SharedChooser, HostRuntime>(&rt, rt.alloc());
}

// The first head starts at 2 and finishes at 3, the second starts at 1 and finishes at 10. At 0 neither is eligible,
// though one that finishes at 3 and is 9 long would be: the second becomes eligible soonest. At 1 it alone is
// eligible, at 2 both are.
fn expect_not_misled<X: Chooser + Drop, R: Abort>(rt: &R, alloc: Global) {
    let short = keys(2 * UNIT, 1, 1, 0);
    let long = keys(UNIT, 9, 1, 1);
    let mut chooser = with_heads::<X, R>(rt, alloc, Policy::Wf2q, 1, short, long);
    let at_0 = chooser.choose(0, 0);
    let at_1 = chooser.choose(0, UNIT);
    let at_2 = chooser.choose(0, 2 * UNIT);
    expect_same(rt, [at_0, at_1, at_2], [Some(1), Some(1), Some(0)]);
}

#[test]
fn bound_misleads(rt: HostRuntime) {
    expect_not_misled::<SharedChooser, HostRuntime>(&rt, rt.alloc());
}

// Gives a tenant a head of the request that has its number.
fn give<X: Chooser>(chooser: &mut X, tenant: u32, keys: Keys)
    requires tenant { tenant < (X.seen chooser.old).setting.tenants }
    requires own { keys.request ≡ tenant }
    requires by_tenant { IsByTenant (X.seen chooser.old).table }
    ensures setting { (X.seen chooser.new).setting ≡ (X.seen chooser.old).setting }
    ensures latest { (X.seen chooser.new).latest ≡ (X.seen chooser.old).latest }
    ensures by_tenant { IsByTenant (X.seen chooser.new).table }
{
    chooser.set(tenant, Some(keys));
}

// Tenants 0 to 39 finish at 10, 11 and so on and are 1 long, more than a block holds; the last one starts at 0 and
// finishes at 60. Tenant 10, which finishes at 20, is then 15 long.
fn many_heads<X: Chooser, R: Abort>(rt: &R, alloc: Global) -> X
    ensures setting { (X.seen result).setting
        ≡ record { policy = policies.Wf2q; most_workers = 1; workers = 1; tenants = 41 } }
    ensures latest { (X.seen result).latest ≡ pos 0 }
    ensures by_tenant { IsByTenant (X.seen result).table }
{
    let mut chooser = opened::<X, R>(rt, alloc, Policy::Wf2q, 1, 41);
    for tenant in 0..40 {
        let start = (9 + tenant as i128) * UNIT;
        give(&mut chooser, tenant, keys(start, 1, 1, tenant));
    }
    give(&mut chooser, 40, keys(0, 60, 1, 40));
    give(&mut chooser, 10, keys(5 * UNIT, 15, 1, 10));
    chooser
}

// Takes the heads of the tenants before one.
fn take_out<X: Chooser>(chooser: &mut X, before: u32)
    requires { before < (X.seen chooser.old).setting.tenants }
    ensures setting { (X.seen chooser.new).setting ≡ (X.seen chooser.old).setting }
    ensures latest { (X.seen chooser.new).latest ≡ (X.seen chooser.old).latest }
{
    for tenant in 0..before {
        chooser.set(tenant, None);
    }
}

// At 0 the first block holds no eligible head, though one that finishes at 10 and is 15 long would be: the choice
// comes from a later block. Without it none is eligible, and tenant 10 is soonest, which starts at 5; without that
// one tenant 0, at 9.
fn expect_later_blocks<X: Chooser + Drop, R: Abort>(rt: &R, alloc: Global) {
    let mut chooser = many_heads::<X, R>(rt, alloc);
    let of_all = chooser.choose(0, 0);
    chooser.set(40, None);
    let of_few = chooser.choose(0, 0);
    chooser.set(10, None);
    let of_fewer = chooser.choose(0, 0);
    take_out(&mut chooser, 39);
    let of_one = chooser.choose(0, 0);
    chooser.set(39, None);
    let told = [of_all, of_few, of_fewer, of_one, chooser.choose(0, 0)];
    expect_same(rt, told, [Some(40), Some(10), Some(0), Some(39), None]);
}

#[test]
fn later_blocks(rt: HostRuntime) {
    expect_later_blocks::<SharedChooser, HostRuntime>(&rt, rt.alloc());
}
