//! Lines of a word and numbers.
ghost use Rattle.std.specs.Prelude.{◌≡◌, ◌≤◌, ◌++◌, [], ◌∷◌, length, codes, OnOk, OnErr};
ghost use Rattle.std.specs.Fmt.{decimal};
ghost use Rattle.program_model.specs.JournalText.{numbers_text};
ghost use Rattle.journal_text.specs.Printing.{row_text, IsKept};

use itoa::{Buffer, write_digits};
use std::alloc::AllocError;

/// Appends a line: a word, and numbers, each after a space. Where memory runs out, the text stays as it was.
pub fn add_row(word: &str, numbers: &[u64], text: &mut Vec<u8>) -> Result<(), AllocError>
    ensures added { OnOk result (text.new.items ≡ text.old.items ++ row_text word.now numbers.now) }
    ensures unchanged { OnErr result (text.new.items ≡ text.old.items) }
{
    let start = text.len();
    text.extend_from_slice(word.as_bytes())?;
    let added = add_numbers(numbers, text);
    if added.is_err() {
        text.truncate(start);
    }
    added
}

/// Appends a line of a word alone. Where memory runs out, the text stays as it was.
pub fn add_word(word: &str, text: &mut Vec<u8>) -> Result<(), AllocError>
    ensures added { OnOk result (text.new.items ≡ text.old.items ++ row_text word.now []) }
    ensures unchanged { OnErr result (text.new.items ≡ text.old.items) }
{
    add_row(word, &[], text)
}

/// Appends a line of a word and one number. Where memory runs out, the text stays as it was.
pub fn add_one(word: &str, number: u64, text: &mut Vec<u8>) -> Result<(), AllocError>
    ensures added { OnOk result (text.new.items ≡ text.old.items ++ row_text word.now (number ∷ [])) }
    ensures unchanged { OnErr result (text.new.items ≡ text.old.items) }
{
    add_row(word, &[number], text)
}

/// Appends the rest of a line: numbers, each after a space. Where memory runs out, the text is kept, perhaps with a
/// part of the line after it.
pub fn add_numbers(numbers: &[u64], text: &mut Vec<u8>) -> Result<(), AllocError>
    ensures added { OnOk result (text.new.items ≡ text.old.items ++ numbers_text numbers.now) }
    ensures kept { IsKept text.old.items text.new.items }
{
    let first = numbers.len().saturating_sub(AT_ONCE);
    let mut buffer = Buffer::new();
    for k in 0..first {
        add_number(numbers[k], &mut buffer, text)?;
    }
    add_last(&numbers[first..], text)
}

// Appends a number after a space. Where memory runs out, the text is kept, perhaps with a space after it.
fn add_number(number: u64, buffer: &mut Buffer, text: &mut Vec<u8>) -> Result<(), AllocError>
    ensures added { OnOk result (text.new.items ≡ text.old.items ++ (codes " " ++ decimal number)) }
    ensures kept { IsKept text.old.items text.new.items }
{
    text.push(b' ')?;
    text.extend_from_slice(buffer.format(number).as_bytes())
}

// The most numbers that are appended at once, as many as an entry's line has.
const AT_ONCE: usize = 7;

// The room for as many numbers of 64 bits, each after a space, and for the end of the line.
const ROOM: usize = 148;

// Appends the last numbers of a line. They are put together from the end, and appended at once.
fn add_last(numbers: &[u64], text: &mut Vec<u8>) -> Result<(), AllocError>
    requires { length numbers.now ≤ AT_ONCE }
    ensures added { OnOk result (text.new.items ≡ text.old.items ++ numbers_text numbers.now) }
    ensures unchanged { OnErr result (text.new.items ≡ text.old.items) }
{
    let mut line = [b'\n'; ROOM];
    let mut at = ROOM - 1;
    let mut left = numbers.len();
    'numbers: while left > 0 {
        left -= 1;
        at = write_digits(numbers[left], &mut line, at) - 1;
        line[at] = b' ';
    }
    text.extend_from_slice(&line[at..])
}
