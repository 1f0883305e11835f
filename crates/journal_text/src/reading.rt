//! The reader of documents.
ghost use Rattle.std.specs.Prelude.{◌≡◌, ◌+◌, ◌≤◌, length, None, Ok, IfOk, IfErr};
ghost use Rattle.program_model.specs.declared.version.Version.{Version};
ghost use Rattle.program_model.specs.Lines.{lines_of};
ghost use Rattle.program_model.specs.Document.{new_among, with_tenant, with_kind, with_lines, opened};
ghost use Rattle.program_model.specs.Document.{config_line, below_header, config_of, document_of};
ghost use Rattle.fq_model.specs.Limits.{config_fault};
ghost use Rattle.fq_model.specs.Names.{number_among};
ghost use Rattle.tenant_table.specs.Names.{names_of};
ghost use Rattle.journal_text.specs.Reading.{Gives, IsFirstFault, are_too_many};
ghost use Rattle.journal_text.specs.Reading.{ends_before, with_head_line, IsOfConfigLine};
ghost use Rattle.journal_text.specs.Body.{IsOpened, IsHeadFault, Divides, DividesText, below_at};

use crate::body::{Body, Line};
use crate::document::Document;
use crate::fault::{LineError, ScriptFault};
use crate::head::{Settings, read_settings};
use crate::lines::next_line;
use crate::words::Words;
use fq_model::config::{Config, Weights};
use fq_model::limits::{Limits, MOST_KINDS, TEXT_PAIRS, TEXT_TENANTS, TEXT_WEIGHT};
use program_model::fault::ScriptKind;
use program_model::version::Version;
use std::alloc::{AllocError, Global};
use std::marker::{Model, PhantomData};
use tenant_table::kinds_builder::KindsBuilder;
use tenant_table::tenants_builder::TenantsBuilder;

/// A document whose head is read, and whose body is left to be read line by line.
#[derive(Drop)]
pub struct Opened<'a, A: Line> {
    /// The document as if it had no body.
    pub head: Document<A>,
    pub body: Body<'a, A>,
}

// The head as far as its lines are read: a document with no body.
#[derive(Drop)]
struct Draft<A: Drop> {
    settings: Settings,
    tenants: TenantsBuilder,
    kinds: KindsBuilder,
    said: PhantomData<A>,
}

impl<A: Drop> Model for Draft<A> {
    ghost use Rattle.std.specs.Prelude.{[]};
    ghost use Rattle.program_model.specs.Document.{Document};
    ghost use Rattle.tenant_table.specs.Names.{names_of, weights_of};

    ghost Value = { Document A };

    ghost view = { λ d. record {
      settings = d.settings;
      tenants = names_of d.tenants;
      weights = weights_of d.tenants;
      kinds = d.kinds;
      body = [];
    } };
}

impl<A: Line> Draft<A> {
    // The document of a config line alone. Takes no memory.
    fn opened(alloc: Global, settings: Settings) -> Draft<A>
        ensures { result ≡ opened settings }
    {
        Draft {
            settings,
            tenants: TenantsBuilder::new(alloc),
            kinds: KindsBuilder::new(alloc),
            said: PhantomData,
        }
    }

    // The document, now that the lines of its head are read.
    fn finish(self, alloc: Global) -> Result<Document<A>, AllocError>
        requires { config_fault (config_of self) ≡ None }
        ensures { IfOk result (λ d. d ≡ self) }
    {
        let Draft {
            settings,
            tenants,
            kinds,
            ..
        } = self;
        let (tenants, kinds) = (tenants.finish()?, kinds.finish()?);
        let config = Config {
            limits: Limits::Text,
            workers: settings.workers,
            weights: Weights::from_vec(tenants.weights(alloc)?),
            kinds: kinds.len(),
            entries: settings.entries,
            requests: settings.requests,
            policy: settings.policy,
            estimate: settings.estimate,
            initial: settings.initial,
        };
        let body = Vec::new(alloc);
        Ok(Document::new(config.check().unwrap(), tenants, kinds, body))
    }

    #[tactic(auto, unfolding(program_model::specs::Document::with_tenant))]
    fn add_tenant(&mut self, words: &Words) -> Result<(), LineError>
        ensures { Gives (λ _. self.new) result (with_tenant self.old words.now) }
    {
        words.expect_count(3)?;
        let name = words.name_at(1)?;
        let weight = words.small_at(2, 1, TEXT_WEIGHT)?;
        expect_new_tenant(&self.tenants, name)?;
        if are_too_many(self.tenants.len() + 1, self.kinds.len()) {
            return Err(LineError::Fault(ScriptKind::TooMany));
        }
        self.tenants.add_new(name, weight)?;
        Ok(())
    }

    #[tactic(auto, unfolding(program_model::specs::Document::with_kind))]
    fn add_kind(&mut self, words: &Words) -> Result<(), LineError>
        ensures { Gives (λ _. self.new) result (with_kind self.old words.now) }
    {
        words.expect_count(2)?;
        let name = words.name_at(1)?;
        expect_new_kind(&self.kinds, name)?;
        if are_too_many(self.tenants.len(), self.kinds.len() + 1) {
            return Err(LineError::Fault(ScriptKind::TooMany));
        }
        self.kinds.add_new(name)?;
        Ok(())
    }

    // Whether a line of these words is the first of the body.
    fn ends_before(&self, words: &Words) -> bool
        ensures { result ≡ ends_before self.now words.now }
    {
        !self.kinds.is_empty() && !words.begins_with(b"kind")
    }

    // Adds a line of the head, below the config line.
    fn add_words(&mut self, words: &Words) -> Result<(), LineError>
        ensures { Gives (λ _. self.new) result (with_head_line self.old words.now) }
    {
        if words.begins_with(b"tenant") && self.kinds.is_empty() {
            self.add_tenant(words)
        } else if words.begins_with(b"kind") && !self.tenants.is_empty() {
            self.add_kind(words)
        } else {
            Err(LineError::Fault(ScriptKind::Word))
        }
    }
}

// That no tenant has the name.
fn expect_new_tenant(tenants: &TenantsBuilder, name: &str) -> Result<(), LineError>
    ensures given { Gives (λ _. name.now) result (new_among (names_of tenants.now) name.now) }
    ensures absent { IfOk result (λ _. number_among (names_of tenants.now) name.now ≡ None) }
{
    match tenants.find(name) {
        Some(_) => Err(LineError::Fault(ScriptKind::Twice)),
        None => Ok(()),
    }
}

// That no kind has the name.
fn expect_new_kind(kinds: &KindsBuilder, name: &str) -> Result<(), LineError>
    ensures given { Gives (λ _. name.now) result (new_among kinds.now name.now) }
    ensures absent { IfOk result (λ _. number_among kinds.now name.now ≡ None) }
{
    match kinds.find(name) {
        Some(_) => Err(LineError::Fault(ScriptKind::Twice)),
        None => Ok(()),
    }
}

// Whether this many tenants and kinds are more than there may be.
fn are_too_many(tenants: u32, kinds: u32) -> bool
    ensures { result ≡ are_too_many tenants kinds }
{
    tenants > TEXT_TENANTS || kinds > MOST_KINDS || tenants as u64 * kinds as u64 > TEXT_PAIRS
}

#[tactic(auto, unfolding(program_model::specs::Document::config_line))]
fn config_line<A: Line>(alloc: Global, words: &Words) -> Result<Draft<A>, ScriptKind>
    ensures { result ≡ config_line words.now }
{
    if !words.begins_with(b"config") {
        return Err(ScriptKind::Word);
    }
    Ok(Draft::opened(alloc, read_settings(words)?))
}

// Adds the lines of this text, which begins below the config line, up to the body. The answer is the number of the
// body's first line, and the text from there on.
fn add_lines<'a, A: Line>(
    draft: &mut Draft<A>,
    text: &'a [u8],
) -> Result<(u64, &'a [u8]), ScriptFault>
    requires { IsOfConfigLine draft.now }
    ensures ok { IfOk result (λ r. (version : Version) → IsOpened
        (λ reader. with_lines (reader version) 3 draft.old (lines_of text.now))
        draft.new (below_at version r.0 r.1.now)) }
    ensures divided { IfOk result (λ r. (version : Version) → Divides
        (λ lines reader. with_lines (reader version) 3 draft.old lines) 3 (lines_of text.now)
        draft.new (below_at version r.0 r.1.now)) }
    ensures counted { IfOk result (λ r. r.0 + length r.1.now ≤ length text.now + 3) }
    ensures fault { IfErr result (λ f. (version : Version) → IsHeadFault f
        (λ reader. with_lines {A = A} (reader version) 3 draft.old (lines_of text.now))) }
{
    let mut rest = text;
    let mut place: u64 = 3;
    while let Some((line, below)) = next_line(rest) {
        let words = Words::of(line);
        if draft.ends_before(&words) {
            return Ok((place, rest));
        }
        if let Err(e) = draft.add_words(&words) {
            return Err(e.at(place));
        }
        rest = below;
        place += 1;
    }
    if draft.kinds.is_empty() {
        return Err(ScriptFault::At {
            line: place,
            kind: ScriptKind::Missing,
        });
    }
    Ok((place, rest))
}

// Adds the lines below the config line to a head, and returns the head with the body.
fn with_lines<'a, A: Line>(
    version: Version,
    mut draft: Draft<A>,
    text: &'a [u8],
) -> Result<(Draft<A>, Body<'a, A>), ScriptFault>
    requires { IsOfConfigLine draft }
    ensures ok { IfOk result (λ r.
        IsOpened (λ reader. with_lines (reader version) 3 draft (lines_of text.now)) r.0 r.1) }
    ensures divided { IfOk result (λ r. Divides
        (λ lines reader. with_lines (reader version) 3 draft lines) 3 (lines_of text.now) r.0 r.1) }
    ensures version { IfOk result (λ r. r.1.version ≡ version) }
    ensures fault { IfErr result (λ f.
        IsHeadFault f (λ reader. with_lines {A = A} (reader version) 3 draft (lines_of text.now))) }
{
    let (place, rest) = add_lines(&mut draft, text)?;
    Ok((draft, Body::new(version, place, rest)))
}

fn below_header<'a, A: Line>(
    alloc: Global,
    version: Version,
    text: &'a [u8],
) -> Result<(Draft<A>, Body<'a, A>), ScriptFault>
    ensures ok { IfOk result (λ r. IsOpened (λ reader. below_header (reader version) (lines_of text.now)) r.0 r.1) }
    ensures divided { IfOk result (λ r. Divides
        (λ lines reader. below_header (reader version) lines) 2 (lines_of text.now) r.0 r.1) }
    ensures version { IfOk result (λ r. r.1.version ≡ version) }
    ensures fault { IfErr result (λ f.
        IsHeadFault f (λ reader. below_header {A = A} (reader version) (lines_of text.now))) }
{
    let Some((line, below)) = next_line(text) else {
        return Err(ScriptFault::At {
            line: 2,
            kind: ScriptKind::Missing,
        });
    };
    match config_line(alloc, &Words::of(line)) {
        Ok(draft) => with_lines(version, draft, below),
        Err(kind) => Err(ScriptFault::At { line: 2, kind }),
    }
}

#[tactic(auto, unfolding(program_model::specs::Document::document_of))]
fn read_draft<'a, A: Line>(
    alloc: Global,
    bytes: &'a [u8],
) -> Result<(Draft<A>, Body<'a, A>), ScriptFault>
    ensures ok { IfOk result (λ r. IsOpened (λ reader. document_of A.title reader bytes.now) r.0 r.1) }
    ensures divided { IfOk result (λ r. DividesText A.title bytes.now r.0 r.1) }
    ensures fault { IfErr result (λ f. IsHeadFault f (λ reader. document_of {A = A} A.title reader bytes.now)) }
{
    if let Some((line, below)) = next_line(bytes) {
        if let Some(version) = A::version(line) {
            return below_header(alloc, version, below);
        }
    }
    Err(ScriptFault::At {
        line: 1,
        kind: ScriptKind::Header,
    })
}

/// Reads the head of a document, up to its last kind, or names the head's first fault. Of the body only the first word
/// is looked at, since it ends the head. An answer that memory ran out says nothing of the text.
pub fn open_document<'a, A: Line>(
    alloc: Global,
    bytes: &'a [u8],
) -> Result<Opened<'a, A>, ScriptFault>
    ensures ok { IfOk result (λ o. IsOpened (λ reader. document_of A.title reader bytes.now) o.head o.body) }
    ensures divided { IfOk result (λ o. DividesText A.title bytes.now o.head o.body) }
    ensures fault { IfErr result (λ f. IsHeadFault f (λ reader. document_of {A = A} A.title reader bytes.now)) }
{
    let (draft, body) = read_draft(alloc, bytes)?;
    let head = draft.finish(alloc)?;
    Ok(Opened { head, body })
}

/// Reads a document, or names its first fault. An answer that memory ran out says nothing of the text.
pub fn read_document<A: Line>(alloc: Global, bytes: &[u8]) -> Result<Document<A>, ScriptFault>
    ensures ok { IfOk result (λ d. document_of A.title A.reader bytes.now ≡ Ok d) }
    ensures fault { IfErr result (λ f. IsFirstFault f (document_of A.title A.reader bytes.now)) }
{
    let Opened { mut head, body } = open_document(alloc, bytes)?;
    head.set_body(body.read_all(alloc)?);
    Ok(head)
}
