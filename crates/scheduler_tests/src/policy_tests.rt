use crate::choosers::{expect_lesser_first, expect_resized};
use rival_policies::plain::PlainChooser;

#[test]
fn resized(rt: HostRuntime) {
    expect_resized::<PlainChooser, HostRuntime>(&rt, rt.alloc());
}

#[test]
fn equal_finishes(rt: HostRuntime) {
    expect_lesser_first::<PlainChooser, HostRuntime>(&rt, rt.alloc());
}
