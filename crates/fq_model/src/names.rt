//! The spelling of names.
ghost use Rattle.std.specs.Prelude.{◌≡◌};
ghost use Rattle.std.specs.List.{list_all};
ghost use Rattle.fq_model.specs.Spelling.{is_name_byte, is_name};

/// Whether a text is a name of a tenant or a kind: 1 to 64 bytes, each an ASCII letter, a digit, `_`,
/// `-` or `.`.
pub fn is_name(text: &[u8]) -> bool
    ensures { result ≡ is_name text.now }
{
    text.len() >= 1 && text.len() <= 64 && all_name_bytes(text)
}

fn all_name_bytes(text: &[u8]) -> bool
    ensures { result ≡ list_all is_name_byte text.now }
{
    text.iter().all(|b| is_name_byte(*b))
}

fn is_name_byte(b: u8) -> bool
    ensures { result ≡ is_name_byte b }
{
    b.is_ascii_alphanumeric() || b == b'_' || b == b'-' || b == b'.'
}
