//! Numbers in a text.
ghost use Rattle.std.specs.Prelude.{◌≡◌, ◌<◌, length};
ghost use Rattle.program_model.specs.Numbers.{with_digit, with_digits, number_of};

/// The number that a text spells, if it spells one: `0`, or digits of which the first is not `0`, with 64 bits at most.
pub fn number(text: &[u8]) -> Option<u64>
    ensures { result ≡ number_of text.now }
{
    if text.is_empty() || text.len() > 1 && text[0] == b'0' {
        return None;
    }
    digits(text)
}

// The number that digits spell, with 64 bits at most. Std's `parse` asks for a text, so each number would be looked at
// twice, and numbers are most of a script.
fn digits(text: &[u8]) -> Option<u64>
    ensures { result ≡ with_digits 0 text.now }
{
    if text.len() < 20 {
        few_digits(text)
    } else {
        many_digits(text)
    }
}

// The number that digits spell, where they are so few that it always fits, so that no step need see to it.
fn few_digits(text: &[u8]) -> Option<u64>
    requires { length text.now < 20 }
    ensures { result ≡ with_digits 0 text.now }
{
    let mut number = 0;
    for byte in text {
        if !byte.is_ascii_digit() {
            return None;
        }
        number = 10 * number + (*byte - b'0') as u64;
    }
    Some(number)
}

fn many_digits(text: &[u8]) -> Option<u64>
    ensures { result ≡ with_digits 0 text.now }
{
    let mut number = 0;
    for byte in text {
        number = with_digit(number, *byte)?;
    }
    Some(number)
}

// The number with one digit more at its end, with 64 bits at most.
fn with_digit(number: u64, byte: u8) -> Option<u64>
    ensures { result ≡ with_digit number byte }
{
    if !byte.is_ascii_digit() {
        return None;
    }
    number.checked_mul(10)?.checked_add((byte - b'0') as u64)
}
