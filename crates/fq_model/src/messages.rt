//! The parts of the messages of faults. Each message is one call of these, which is quickly proved.
use std::fmt;

/// A text without numbers.
pub fn plain<W: fmt::Write>(f: &mut fmt::Formatter<W>, text: &str) -> fmt::Result {
    f.write_str(text)
}

/// A number between two texts.
pub fn numbered<W: fmt::Write>(
    f: &mut fmt::Formatter<W>,
    before: &str,
    number: u64,
    after: &str,
) -> fmt::Result {
    f.write_str(before)?;
    fmt::Display::fmt(&number, f)?;
    f.write_str(after)
}

/// Two numbers with texts around them.
pub fn two_numbers<W: fmt::Write>(
    f: &mut fmt::Formatter<W>,
    before: &str,
    first: u64,
    between: &str,
    second: u64,
    after: &str,
) -> fmt::Result {
    numbered(f, before, first, between)?;
    numbered(f, "", second, after)
}

/// A number of things, and the range of the numbers that there may be.
pub fn out_of_range<W: fmt::Write>(
    f: &mut fmt::Formatter<W>,
    number: u64,
    what: &str,
    least: u64,
    most: u64,
) -> fmt::Result {
    numbered(f, "", number, " ")?;
    f.write_str(what)?;
    two_numbers(f, ", and there may be ", least, " to ", most, "")
}
