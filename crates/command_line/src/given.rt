//! Options as words give them.
ghost use Rattle.std.specs.Prelude.{◌≡◌, map, option_map};
ghost use Rattle.std.specs.String.{string_bytes};
ghost use Rattle.command_line.specs.Given.{seen_given, assignment, first_option, is_end};

/// An option as it is given: its name with the dashes, and the text of its value.
#[derive(Clone, Copy)]
pub struct Given<'a> {
    pub name: &'a str,
    pub text: &'a str,
}

/// The option that stands first among words, and the words after it; or none, where no option stands there.
pub fn first_option(words: &[String]) -> Option<(Given<'_>, &[String])>
    ensures { option_map (λ r. (seen_given r.0, map string_bytes r.1.now)) result
        ≡ first_option (map string_bytes words.now) }
{
    match words {
        [] => None,
        [word, more @ ..] => match (assignment(word), more) {
            (Some(given), _) => Some((given, more)),
            (None, [text, more @ ..]) => Some((Given { name: word, text }, more)),
            (None, []) => None,
        },
    }
}

// `<name>=<text>` in one word; the name ends at the first `=`.
fn assignment(word: &str) -> Option<Given<'_>>
    ensures { option_map seen_given result ≡ assignment word.now }
{
    let (name, text) = word.split_once('=')?;
    Some(Given { name, text })
}

/// Whether the words that are left after all options are none, or one `--`.
pub fn is_end(words: &[String]) -> bool
    ensures { result ≡ is_end (map string_bytes words.now) }
{
    match words {
        [] => true,
        [word] => word.as_str() == "--",
        _ => false,
    }
}
