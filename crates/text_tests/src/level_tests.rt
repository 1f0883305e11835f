ghost use Rattle.std.specs.Prelude.{◌≤◌, length, All};
ghost use Rattle.fq_model.specs.Limits.{IsTextWeight};
ghost use Rattle.water_level.specs.Backlogs.{IsBacklog};

use crate::samples::expect_same;
use fq_model::level::{Backlog, Level};
use std::process::Abort;
use water_level::gifts::give;
use water_level::levels::level;

// A backlog.
fn backlog(units: u64, weight: u32) -> Backlog
    requires few { units ≤ 100 }
    requires light { IsTextWeight weight }
    ensures { IsBacklog result }
{
    Backlog { units, weight }
}

// The level of these backlogs under this cap is this.
fn expect_level<R: Abort>(rt: &R, cap: u64, rows: &[Backlog], wanted: Level)
    requires few { length rows.now ≤ 4 }
    requires in_range { All IsBacklog rows.now }
{
    let told = level(cap, rows);
    assert!(rt; told == wanted, "for {cap} in {} backlogs", rows.len());
}

#[test]
fn levels(rt: HostRuntime) {
    let three = [backlog(3, 1), backlog(100, 1), backlog(100, 2)];
    expect_level(&rt, 10, &three, Level::At(3071));
    let two = [backlog(4, 1), backlog(6, 1)];
    expect_level(&rt, 10, &two, Level::All);
    expect_level(&rt, 0, &[], Level::All);
    let heavy = [backlog(7, 3), backlog(7, 3)];
    expect_level(&rt, 7, &heavy, Level::At(1365));
}

#[test]
fn gifts(rt: HostRuntime) {
    let told = [
        give(Level::At(3071), backlog(3, 1)),
        give(Level::At(3071), backlog(100, 1)),
        give(Level::At(3071), backlog(100, 2)),
        give(Level::All, backlog(100, 2)),
    ];
    expect_same(&rt, told, [2, 2, 5, 100]);
}

#[test]
fn what_small_backlogs_leave_is_given_on(rt: HostRuntime) {
    let rows = [
        backlog(0, 7),
        backlog(50, 1),
        backlog(1, 1000),
        backlog(50, 1),
    ];
    expect_level(&rt, 41, &rows, Level::At(21503));
    expect_level(&rt, 0, &rows, Level::At(1));
}
