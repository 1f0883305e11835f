//! Names that are held in place, so that a value with a name can be copied.
ghost use Rattle.std.specs.Prelude.{◌≡◌, IsTrue, if◌then◌else◌, Some, None};
ghost use Rattle.fq_model.specs.Spelling.{is_name};

use fq_model::names::is_name;
use std::marker::Model;
use std::str;

/// A name: 1 to 64 ASCII letters, digits, `_`, `-` or `.`.
#[derive(Clone, Copy, PartialEq, Eq)]
pub struct Name {
    // the bytes of the text, and 0 above them
    bytes: [u8; 64],
    // how many bytes the text has
    len: usize,
}

impl Model for Name {
    ghost use Rattle.std.specs.Prelude.{ℕ, List, length, take};
    ghost use Rattle.std.proofs.Common.{sym, ap, ◌∙◌};
    ghost use Rattle.program_model.specs.Names.{padded, HoldsName};

    ghost Value = { List ℕ };

    ghost view = { λ n. take n.len n.bytes };

    ghost inverse = { λ text. record { bytes = padded text; len = length text } };

    ghost invariant = { λ n. HoldsName n.bytes n.len };

    ghost inverse_ok = { λ n h. ap (λ b. record { bytes = b; len = length (take n.len n.bytes) }) (sym h.rest)
        ∙ ap (λ l. record { bytes = n.bytes; len = l }) (sym h.whole) };
}

impl Name {
    /// The name with this text; None where that is no name.
    pub fn new(text: &str) -> Option<Name>
        ensures { result ≡ (if is_name text.now then Some text.now else None) }
    {
        if !is_name(text.as_bytes()) {
            return None;
        }
        let mut bytes = [0; 64];
        bytes[..text.len()].copy_from_slice(text.as_bytes());
        Some(Name {
            bytes,
            len: text.len(),
        })
    }

    /// The text.
    pub fn as_str(&self) -> &str
        ensures text { result.now ≡ self.now }
        ensures spelled { IsTrue (is_name result.now) }
    {
        str::from_utf8(&self.bytes[..self.len]).unwrap()
    }
}
