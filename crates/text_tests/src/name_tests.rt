use crate::samples::{expect_same, expect_same_at};
use std::alloc::Global;
use std::marker::Send;
use std::process::Abort;
use tenant_table::fault::NameFault;
use tenant_table::kinds::Kinds;
use tenant_table::kinds_builder::KindsBuilder;
use tenant_table::tenants::Tenants;
use tenant_table::tenants_builder::TenantsBuilder;

// Only values that may go to another thread can be passed here.
fn send_away<T: Send + Drop>(_sent: T) {}

// Tenants to which these names and weights were given, with these answers.
fn tenants_of<R: Abort>(
    rt: &R,
    alloc: Global,
    rows: &[(&str, u32, Result<u32, NameFault>)],
) -> TenantsBuilder {
    let mut tenants = TenantsBuilder::new(alloc);
    for (name, weight, wanted) in rows {
        expect_same_at(rt, name, tenants.add(name, *weight), *wanted);
    }
    tenants
}

// The tenants of these names have these numbers.
fn expect_found<R: Abort>(rt: &R, tenants: &TenantsBuilder, rows: &[(&str, Option<u32>)]) {
    for (name, wanted) in rows {
        expect_same_at(rt, name, tenants.find(name), *wanted);
    }
}

// The second of two tenants has this name and this weight.
fn expect_second<R: Abort>(rt: &R, tenants: &Tenants, name: &str, weight: u32) {
    assert!(rt; tenants.len() == 2);
    expect_same(rt, tenants.name(1), name);
    expect_same(rt, tenants.weight(1), weight);
}

// The tenants of these names and weights have these numbers.
fn expect_numbers<R: Abort>(
    rt: &R,
    alloc: Global,
    added: &[(&str, u32, Result<u32, NameFault>)],
    found: &[(&str, Option<u32>)],
) {
    let tenants = tenants_of(rt, alloc, added);
    expect_found(rt, &tenants, found);
    let tenants = tenants.finish().expect(rt, "memory for tenants");
    expect_second(rt, &tenants, "a.b-c_9", 1000);
    send_away(tenants);
}

#[test]
fn tenants_are_numbered_in_order(rt: HostRuntime) {
    let added = [
        ("alpha", 1, Ok(0)),
        ("a.b-c_9", 1000, Ok(1)),
        ("", 0, Err(NameFault::Word)),
        ("a b", 0, Err(NameFault::Word)),
        ("é", 7, Err(NameFault::Word)),
        ("alpha", 1001, Err(NameFault::Weight(1001))),
        ("z", 0, Err(NameFault::Weight(0))),
        ("a.b-c_9", 2, Err(NameFault::Twice(1))),
    ];
    let found = [("alpha", Some(0)), ("a.b-c_9", Some(1)), ("Alpha", None)];
    expect_numbers(&rt, rt.alloc(), &added, &found);
}

// Kinds whose names are the letters of a text.
fn kinds_of<R: Abort>(rt: &R, alloc: Global, letters: &str) -> KindsBuilder {
    let mut kinds = KindsBuilder::new(alloc);
    let mut number = 0u32;
    for letter in letters.as_bytes() {
        let name = [*letter];
        let name = std::str::from_utf8(&name).expect(rt, "a letter is a text");
        expect_same_at(rt, name, kinds.add(name), Ok(number));
        number = number.saturating_add(1);
    }
    kinds
}

// Of 64 kinds the last has this name, and one more is refused.
fn expect_full<R: Abort>(rt: &R, kinds: &mut KindsBuilder, more: &str, last: &str) {
    expect_same(rt, kinds.add(more), Err(NameFault::TooMany(64)));
    expect_same(rt, kinds.find(last), Some(63));
}

// There are 64 kinds, and the last has this name.
fn expect_last<R: Abort>(rt: &R, kinds: &Kinds, last: &str) {
    assert!(rt; kinds.len() == 64);
    expect_same(rt, kinds.name(63), last);
}

// Kinds are full once these are named.
fn expect_room_for<R: Abort>(rt: &R, alloc: Global, letters: &str) {
    let mut kinds = kinds_of(rt, alloc, letters);
    expect_full(rt, &mut kinds, ".", "-");
    let kinds = kinds.finish().expect(rt, "memory for kinds");
    expect_last(rt, &kinds, "-");
    send_away(kinds);
}

#[test]
fn there_are_at_most_64_kinds(rt: HostRuntime) {
    let letters = "abcdefghijklmnopqrstuvwxyzABCDEFGHIJKLMNOPQRSTUVWXYZ0123456789_-";
    expect_room_for(&rt, rt.alloc(), letters);
}
