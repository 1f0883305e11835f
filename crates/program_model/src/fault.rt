//! The faults of scripts, journals and traces.

use fq_model::messages::{numbered, plain};
use std::error::Error;
use std::fmt;

/// The fault of a line of a script or a journal.
#[derive(Clone, Copy, Debug, PartialEq, Eq)]
pub enum ScriptKind {
    /// The first line is not `script` or, for a journal, `journal`, with 1, 2 or 3 behind it.
    Header,
    /// A word that does not stand here: no line begins so at this place, or it is no name, policy or
    /// estimator.
    Word,
    /// This number of words, where the first asks for another number.
    Fields(u64),
    /// This word is not a number; the first is 1.
    Number(u32),
    /// The number at this word is out of its range; the first is 1.
    Range(u32),
    /// The name is taken.
    Twice,
    /// More tenants, kinds or pairs of both than there may be.
    TooMany,
    /// The text ends before its head does.
    Missing,
}

impl fmt::Display for ScriptKind {
    fn fmt<W: fmt::Write>(&self, f: &mut fmt::Formatter<W>) -> fmt::Result {
        match *self {
            ScriptKind::Fields(n) => numbered(
                f,
                "",
                n,
                " words, where the first asks for another number",
            ),
            ScriptKind::Number(word) => numbered(f, "word ", word as u64, " is not a number"),
            ScriptKind::Range(word) => numbered(
                f,
                "the number at word ",
                word as u64,
                " is out of its range",
            ),
            ScriptKind::Header => plain(
                f,
                "the first line does not say that this is a script, or a journal",
            ),
            ScriptKind::Word => plain(f, "a word that does not stand here"),
            ScriptKind::Twice => plain(f, "the name is taken"),
            ScriptKind::TooMany => plain(
                f,
                "more tenants, kinds or pairs of both than there may be",
            ),
            ScriptKind::Missing => plain(f, "the text ends before its head does"),
        }
    }
}

impl Error for ScriptKind {}

/// The fault of a record of a trace.
#[derive(Clone, Copy, Debug, PartialEq, Eq)]
pub enum TraceKind {
    /// A field is not UTF-8.
    NotUtf8,
    /// The first field is no word with which a record begins, or a name is no name.
    Word,
    /// This number of fields, where the first asks for another number.
    Fields(u64),
    /// This field is not a number; the first is 1.
    Number(u32),
    /// The number in this field is out of its range; the first is 1.
    Range(u32),
    /// No earlier record names the tenant.
    UnknownTenant,
    /// The name is taken.
    Twice,
    /// The moment is before that of the request before.
    Backward,
    /// More tenants, kinds, pairs of both or requests than there may be.
    TooMany,
    /// The trace names no tenant.
    NoTenants,
}

impl fmt::Display for TraceKind {
    fn fmt<W: fmt::Write>(&self, f: &mut fmt::Formatter<W>) -> fmt::Result {
        match *self {
            TraceKind::Fields(n) => numbered(
                f,
                "",
                n,
                " fields, where the first asks for another number",
            ),
            TraceKind::Number(field) => numbered(f, "field ", field as u64, " is not a number"),
            TraceKind::Range(field) => numbered(
                f,
                "the number in field ",
                field as u64,
                " is out of its range",
            ),
            TraceKind::NotUtf8 => plain(f, "a field is not UTF-8"),
            TraceKind::Word => plain(f, "a word with which no record begins, or no name"),
            TraceKind::UnknownTenant => plain(f, "no earlier record names the tenant"),
            TraceKind::Twice => plain(f, "the name is taken"),
            TraceKind::Backward => plain(f, "the moment is before that of the request before"),
            TraceKind::TooMany => plain(
                f,
                "more tenants, kinds, pairs of both or requests than there may be",
            ),
            TraceKind::NoTenants => plain(f, "the trace names no tenant"),
        }
    }
}

impl Error for TraceKind {}
