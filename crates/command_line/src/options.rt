//! The options of a command, and their values by words.
ghost use Rattle.std.specs.Prelude.{◌≡◌, IsTrue, IfSome, if◌then◌else◌, length, map};
ghost use Rattle.std.specs.Prelude.{option_and_then, position, bytes_eq, Some, None};
ghost use Rattle.std.specs.String.{string_bytes};
ghost use Rattle.fq_model.specs.Spelling.{is_name};
ghost use Rattle.program_model.specs.Numbers.{number_of};
ghost use Rattle.program_model.specs.Options.{is_value, within, argument_for, absent_value, values_in};
ghost use Rattle.command_line.specs.Rows.{seen_values, seen_row, are_distinct, or_absent, AreValuesOf};

use crate::given::{first_option, is_end};
use program_model::argument::Argument;
use program_model::name::Name;
use program_model::numbers::number;

/// The texts that may be written as the value of an option. None of them is empty, or begins with `-`.
pub enum Values {
    /// A number from `low` to `high`.
    Within { low: u64, high: u64 },
    /// One of these words, which stands for its place among them, counted from 0.
    Among(&'static [&'static str]),
    /// A name.
    Named,
}

/// The meaning of an option that is not given.
pub enum Absent {
    /// The words are no command line.
    Required,
    /// The option has no value.
    Nothing,
    /// The option has the value that this text spells.
    Default(&'static str),
}

/// An option of a command.
pub struct OptionRow {
    /// With its dashes.
    pub name: &'static str,
    pub values: Values,
    pub absent: Absent,
}

/// The value of an option, if it has one.
pub type Value = Option<Argument>;

/// The values of options, in the order of their rows, by the words after a command's own. None where the words are not
/// just these options, each at most once, and then perhaps one `--`; where one is given that is none of its values; and
/// where one is not given that is required.
pub fn values_in<const N: usize>(rows: &[OptionRow], words: &[String]) -> Option<[Value; N]>
    requires count { length rows.now ≡ N }
    requires distinct { IsTrue (are_distinct (map seen_row rows.now)) }
    ensures values { result ≡ values_in (map seen_row rows.now) (map string_bytes words.now) }
    ensures range { IfSome result (AreValuesOf (map seen_row rows.now)) }
{
    let mut values = [None; N];
    let mut left = words;
    while let Some((given, more)) = first_option(left) {
        let k = place_of(rows, given.name)?;
        if values[k].is_some() {
            return None;
        }
        let argument = rows[k].values.argument_for(given.text)?;
        values[k] = Some(argument);
        left = more;
    }
    if !is_end(left) {
        return None;
    }
    for (k, row) in rows.iter().enumerate() {
        values[k] = row.or_absent(values[k])?;
    }
    Some(values)
}

// The place of the option of a name.
fn place_of(rows: &[OptionRow], name: &str) -> Option<usize>
    ensures { result ≡ position (λ row. bytes_eq row.name.now name.now) rows.now }
{
    rows.iter().position(|row| row.name == name)
}

impl OptionRow {
    // The value that is given for the option, or else its value where it is absent.
    fn or_absent(&self, given: Value) -> Option<Value>
        ensures { result ≡ or_absent (seen_row self.now) given }
    {
        match given {
            Some(_) => Some(given),
            None => self.absent_value(),
        }
    }

    // The value of the option where it is not given.
    fn absent_value(&self) -> Option<Value>
        ensures { let row = seen_row self.now in result ≡ absent_value row.values row.absent }
    {
        match self.absent {
            Absent::Required => None,
            Absent::Nothing => Some(None),
            Absent::Default(text) => Some(Some(self.values.argument_for(text)?)),
        }
    }
}

impl Values {
    // The value that a text spells, if it may be a value and is one of these.
    fn argument_for(&self, text: &str) -> Option<Argument>
        ensures { result ≡ argument_for (seen_values self.now) text.now }
    {
        if !is_value(text) {
            return None;
        }
        match self {
            Values::Within { low, high } => {
                Some(Argument::Number(number_within(*low, *high, text)?))
            }
            Values::Among(words) => Some(Argument::Number(place_among(words, text)? as u64)),
            Values::Named => Some(Argument::Name(Name::new(text)?)),
        }
    }
}

// Whether a text may be a value: it is not empty, and does not begin with `-`.
fn is_value(text: &str) -> bool
    ensures { result ≡ is_value text.now }
{
    match text.as_bytes() {
        [] => false,
        [first, ..] => *first != b'-',
    }
}

// The number that a text spells, if it is from low to high.
fn number_within(low: u64, high: u64, text: &str) -> Option<u64>
    ensures { result ≡ option_and_then (within low high) (number_of text.now) }
{
    let n = number(text.as_bytes())?;
    if n < low || n > high { None } else { Some(n) }
}

// The place of a text among words.
fn place_among(words: &[&str], text: &str) -> Option<usize>
    ensures { result ≡ position (λ w. bytes_eq w.now text.now) words.now }
{
    words.iter().position(|word| *word == text)
}
