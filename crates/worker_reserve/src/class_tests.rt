//! Classes, worked by hand.
use crate::class::class_of;

// A class begins at each power of 2, and 0 is of the first one.
#[test]
fn classes_begin_at_powers(rt: HostRuntime) {
    let sizes = [
        (0, 0),
        (1, 0),
        (2, 1),
        (3, 1),
        (4, 2),
        (7, 2),
        (8, 3),
        (536870911, 28),
        (536870912, 29),
        (1000000000, 29),
        (9223372036854775807, 62),
        (18446744073709551615, 63),
    ];
    for (size, class) in sizes {
        assert!(rt; class_of(size) == class, "at {size}");
    }
}
