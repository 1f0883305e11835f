use crate::samples::{expect_same, send_away};
use std::alloc::Global;
use std::process::Abort;
use waiting_lists::{Item, Lists};

// A job that is not `Copy`.
#[derive(Debug, PartialEq, Eq, Drop)]
struct Label(u32);

fn item(request: u32) -> Item<Label> {
    Item {
        request,
        kind: 1,
        declared: 10,
        job: Label(request),
    }
}

// Two slots of two tenants fill, and one of them becomes free.
fn fill<R: Abort>(rt: &R, alloc: Global) {
    let mut lists = Lists::<Label>::open(alloc, 2, 2).expect(rt, "memory for lists");
    expect_same(
        rt,
        [lists.push(1, item(0)), lists.push(0, item(1))],
        [Ok(()), Ok(())],
    );
    expect_same(rt, lists.push(1, item(2)), Err(item(2)));
    expect_same(rt, lists.head(1), Some(&item(0)));
    expect_same(rt, [lists.pop(1), lists.pop(1)], [Some(item(0)), None]);
    expect_same(rt, lists.len(), 1);
    send_away(lists);
}

#[test]
fn two_tenants_share_two_slots(rt: HostRuntime) {
    fill(&rt, rt.alloc());
}
