//! Virtual time in two words.
ghost use Rattle.std.specs.Prelude.{◌≡◌, ◌≤ℤ◌, ◌+◌, ◌*◌, ◌^◌, ◌<◌, pos};

const WHOLE: u128 = 18446744073709551616;

/// The low and the high half.
pub(crate) fn halves(vtime: i128) -> (u64, u64)
    requires { pos 0 ≤ℤ vtime }
    ensures value { vtime ≡ pos (result.1 * 2 ^ 64 + result.0) }
    ensures high { result.1 < 2 ^ 63 }
{
    let whole = vtime as u128;
    ((whole % WHOLE) as u64, (whole / WHOLE) as u64)
}

/// The number that has these halves.
pub(crate) fn joined(low: u64, high: u64) -> i128
    requires { high < 2 ^ 63 }
    ensures { result ≡ pos (high * 2 ^ 64 + low) }
{
    (high as u128 * WHOLE + low as u128) as i128
}
