//! Lines of a text.
ghost use Rattle.std.specs.Prelude.{◌≡◌, ◌==◌, [], MatchOption, position};
ghost use Rattle.journal_text.specs.FirstLine.{IsFirstLine, HasFirstWords};

use crate::at_once::numbers_at_once;
use crate::words::Words;
use memchr::memchr;

/// The words of a text's first line, and the text below it.
#[inline(always)]
pub fn first_words(text: &[u8]) -> Option<(Words, &[u8])>
    ensures { MatchOption result (text.now ≡ []) (λ r. HasFirstWords text.now r.0 r.1.now) }
{
    if let Some(read) = numbers_at_once(text) {
        return Some(read);
    }
    let (line, below) = next_line(text)?;
    Some((Words::of(line), below))
}

/// The first line of a text, and the text below it.
pub fn next_line(text: &[u8]) -> Option<(&[u8], &[u8])>
    ensures { MatchOption result (text.now ≡ []) (λ r. IsFirstLine text.now r.0.now r.1.now) }
{
    if text.is_empty() {
        return None;
    }
    match find(b'\n', text) {
        Some(end) => Some((&text[..end], &text[end + 1..])),
        None => Some((text, &text[text.len()..])),
    }
}

/// The place of the first such byte in a text.
pub fn find(byte: u8, text: &[u8]) -> Option<usize>
    ensures { result ≡ position (λ b. b == byte) text.now }
{
    memchr(byte, text)
}
