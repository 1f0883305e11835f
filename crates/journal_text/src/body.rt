//! The body of a document: the lines below its head, read one at a time.
ghost use Rattle.std.specs.Prelude.{◌≡◌, ◌+◌, ◌^◌, ◌<◌, List, ℕ, Result, length, IfOk, IfErr};
ghost use Rattle.program_model.specs.declared.fault.ScriptKind.{ScriptKind};
ghost use Rattle.program_model.specs.declared.version.Version.{Version};
ghost use Rattle.program_model.specs.Lines.{Words, lines_of};
ghost use Rattle.program_model.specs.Document.{version_of};
ghost use Rattle.journal_text.specs.Reading.{IsFirstFault};
ghost use Rattle.journal_text.specs.Body.{ReadsNext, below_at, said_below};

use crate::fault::ScriptFault;
use crate::lines::first_words;
use crate::words::Words;
use program_model::fault::ScriptKind;
use program_model::version::Version;
use std::alloc::Global;
use std::marker::{Model, PhantomData};

/// The value of a line below the head: a call or an entry.
pub trait Line: Drop + Sized {
    /// The word with which the first line of such a document begins.
    ghost title: { List ℕ };

    /// The value of a line in a document of a version, or the line's fault.
    ghost reader: { Version → Words → Result Self ScriptKind };

    /// The version that a first line names, if it names one.
    fn version(line: &[u8]) -> Option<Version>
        ensures { result ≡ version_of title line.now };

    /// Reads a line of these words, or names its fault.
    fn read(version: Version, words: &Words) -> Result<Self, ScriptKind>
        ensures { result ≡ reader version words.now };
}

/// The lines of a body that are still to be read.
#[derive(Drop)]
pub struct Body<'a, A: Line> {
    version: Version,
    // the number of the next line
    place: u64,
    // the text from there on
    rest: &'a [u8],
    says: PhantomData<A>,
}

impl<'a, A: Line> Model for Body<'a, A> {
    ghost use Rattle.std.specs.Prelude.{◌+◌, ◌<◌, ◌^◌, length};
    ghost use Rattle.program_model.specs.Lines.{lines_of};
    ghost use Rattle.journal_text.specs.Body.{Below, below_at};

    ghost Value = { Below };

    ghost view = { λ b. below_at b.version b.place b.rest.now };

    ghost invariant = { λ b. b.place + length b.rest.now < 2 ^ 64 };
}

impl<'a, A: Line> Body<'a, A> {
    // The body that begins at this line of a document and is the rest of its text.
    pub(crate) fn new(version: Version, place: u64, rest: &'a [u8]) -> Body<'a, A>
        requires { place + length rest.now < 2 ^ 64 }
        ensures { result ≡ below_at version place rest.now }
    {
        Body {
            version,
            place,
            rest,
            says: PhantomData,
        }
    }

    /// Reads the next line, or names its fault; after an error the body is as it was. Takes no memory.
    pub fn read_next(&mut self) -> Result<Option<A>, ScriptFault>
        ensures { ReadsNext A.reader self.old result self.new }
    {
        let Some((words, below)) = first_words(self.rest) else {
            return Ok(None);
        };
        match A::read(self.version, &words) {
            Ok(said) => {
                self.rest = below;
                self.place += 1;
                Ok(Some(said))
            }
            Err(kind) => Err(ScriptFault::At {
                line: self.place,
                kind,
            }),
        }
    }

    /// Reads all lines that are left, or names their first fault. An answer that memory ran out says nothing of the
    /// text.
    pub fn read_all(mut self, alloc: Global) -> Result<Vec<A>, ScriptFault>
        ensures ok { IfOk result (λ said. said_below A.reader self.entry ≡ Ok said.items) }
        ensures fault { IfErr result (λ f. IsFirstFault f (said_below A.reader self.entry)) }
    {
        let mut said = Vec::new(alloc);
        while let Some(next) = self.read_next()? {
            said.push(next)?;
        }
        Ok(said)
    }
}
