//! Classes of size.
ghost use Rattle.std.specs.Prelude.{◌≡◌, ◌≤◌, ◌<◌};
ghost use Rattle.worker_reserve.specs.Classes.{class_of};

/// The class of a size in microseconds: the greatest k for which 2^k is at most the size, and 0 for the size 0. Sizes
/// of up to 1,000,000,000 have 30 classes.
pub fn class_of(size: u64) -> u32
    ensures class { result ≡ class_of size }
    ensures few { size < 1073741824 → result < 30 }
{
    size.max(1).ilog2()
}
