//! A line of a word and numbers, read in one pass.
ghost use Rattle.std.specs.Prelude.{◌≡◌, ◌≢◌, ◌↔◌, ◌<◌, ◌≤◌, ◌++◌, ◌∷◌, length, slice_index, IsTrue, IfSome};
ghost use Rattle.journal_text.specs.FirstLine.{BeginsWithNumber, HasFirstWords, IsWord};

use crate::words::{MOST_NUMBERS, Words};

/// The words of a text's first line, and the text below it, where the line is a short word and numbers. Most lines are.
/// None for the others: those with no number, with more than seven, with one of 19 digits or more, and with no LF.
pub fn numbers_at_once(text: &[u8]) -> Option<(Words, &[u8])>
    ensures { IfSome result (λ r. HasFirstWords text.now r.0 r.1.now) }
{
    let (word, start) = word_before(text)?;
    let mut numbers = [0; MOST_NUMBERS];
    let mut rest = start;
    for read in 0..MOST_NUMBERS {
        let (number, end, behind) = number_before(rest)?;
        numbers[read] = number;
        if end == b'\n' {
            let line = &start[..start.len() - behind.len() - 1];
            return Some((Words::of_numbers(word, line, numbers, read + 1), behind));
        }
        if end != b' ' {
            return None;
        }
        rest = behind;
    }
    None
}

// The word before the first space of a text, if it is as short as those of calls, and the text behind the space.
fn word_before(text: &[u8]) -> Option<(&[u8], &[u8])>
    ensures { IfSome result (λ r. (text.now ≡ r.0.now ++ (32 ∷ r.1.now)) × IsWord r.0.now) }
{
    for end in 0..text.len().min(9) {
        if text[end] == b' ' {
            return Some((&text[..end], &text[end + 1..]));
        }
        if text[end] == b'\n' {
            return None;
        }
    }
    None
}

// The number at the head of a text, if there is one of 18 digits at most; the byte behind it, and the text behind that.
fn number_before(text: &[u8]) -> Option<(u64, u8, &[u8])>
    ensures { IfSome result (λ r. BeginsWithNumber text.now r.0 (r.1 ∷ r.2.now)) }
{
    let mut number = 0;
    for at in 0..text.len().min(19) {
        let byte = text[at];
        if !byte.is_ascii_digit() {
            if is_spelled(text, at) {
                return Some((number, byte, &text[at + 1..]));
            }
            return None;
        }
        number = 10 * number + (byte - b'0') as u64;
    }
    None
}

// Whether this number of digits at the head of a text spells a number: there is one digit, or the first is not 0.
#[inline(always)]
fn is_spelled(text: &[u8], digits: usize) -> bool
    requires { digits < length text.now }
    ensures { IsTrue result ↔ ((1 ≤ digits) × (2 ≤ digits → slice_index text.now 0 ≢ 48)) }
{
    digits == 1 || digits > 1 && text[0] != b'0'
}
