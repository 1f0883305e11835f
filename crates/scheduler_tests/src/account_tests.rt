use crate::samples::{expect_same, send_away};
use std::alloc::Global;
use std::process::Abort;
use tag_rules::accounts::Accounts;

// The accounts of two tenants while the first is charged and raised: twice its credit and its tag, twice its tag, and
// then the tag of the second.
fn told<R: Abort>(rt: &R, alloc: Global) -> [i128; 7] {
    let mut accounts = Accounts::open(alloc, 2).expect(rt, "memory for accounts");
    accounts.charge(0, 1048576);
    let charged = (accounts.credit(0), accounts.tag(0));
    accounts.raise(0, 3000000);
    let raised = (accounts.credit(0), accounts.tag(0));
    accounts.charge(0, -48576);
    let less = accounts.tag(0);
    accounts.raise(0, 2000000);
    let last = (accounts.tag(0), accounts.tag(1));
    send_away(accounts);
    [
        charged.0, charged.1, raised.0, raised.1, less, last.0, last.1,
    ]
}

#[test]
fn tags_catch_up_with_virtual_time(rt: HostRuntime) {
    let wanted = [1048576, 1048576, 1048576, 3000000, 2951424, 2951424, 0];
    expect_same(&rt, told(&rt, rt.alloc()), wanted);
}
