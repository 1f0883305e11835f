use crate::samples::expect_same;
use fq_model::config::Policy;
use tag_rules::keys::{eligible_key, keys};

// A length of 3 microseconds at weight 2 takes one unit and a half.
#[test]
fn keys_of_a_head(rt: HostRuntime) {
    let head = keys(5, 3, 2, 7);
    expect_same(
        &rt,
        [head.start, head.len, head.finish()],
        [5, 1572864, 1572869],
    );
    expect_same(&rt, head.request, 7);
}

// Of two workers the second begins half a length early: from 4 units on a head that starts at 8 and is 8 long, from
// 5.5 units on one that starts at 6 and is 1 long.
#[test]
fn staggered_under_2dfq_and_2dfq_plus(rt: HostRuntime) {
    let long = keys(8388608, 8, 1, 1);
    let short = keys(6291456, 1, 1, 7);
    let told = [
        eligible_key(Policy::TwoDfq, long, 1, 2),
        eligible_key(Policy::TwoDfq, short, 1, 2),
        eligible_key(Policy::TwoDfq, long, 0, 2),
        eligible_key(Policy::TwoDfqPlus, long, 1, 2),
        eligible_key(Policy::Wfq, long, 1, 2),
        eligible_key(Policy::Wf2q, long, 1, 2),
        eligible_key(Policy::Msf2q, long, 1, 2),
    ];
    let wanted = [
        4194304, 5767168, 8388608, 4194304, 8388608, 8388608, 8388608,
    ];
    expect_same(&rt, told, wanted);
}

#[test]
fn eligible_before_time_began(rt: HostRuntime) {
    let key = eligible_key(Policy::TwoDfq, keys(5, 3, 2, 7), 1, 4);
    expect_same(&rt, key, -393211);
}
