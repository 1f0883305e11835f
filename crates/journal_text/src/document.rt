//! Documents: the values that a script or a journal spells.
ghost use Rattle.std.specs.Prelude.{◌≡◌};
ghost use Rattle.program_model.specs.Document.{config_of};
ghost use Rattle.tenant_table.specs.Names.{names_of, weights_of};
ghost use Rattle.journal_text.specs.Reading.{IsAbout, document_in};

use fq_model::config::Checked;
use std::marker::Model;
use tenant_table::kinds::Kinds;
use tenant_table::tenants::Tenants;

/// A document: the configuration of a scheduler, its tenants and kinds, and the values of the lines below them, which
/// are calls or entries, in order.
#[derive(Drop)]
pub struct Document<A: Drop> {
    config: Checked,
    tenants: Tenants,
    kinds: Kinds,
    body: Vec<A>,
}

impl<A: Drop> Model for Document<A> {
    ghost use Rattle.program_model.specs.Document.{Document};
    ghost use Rattle.journal_text.specs.Reading.{IsAbout, document_in};

    ghost Value = { Document A };

    ghost view = { λ d. document_in d.config d.tenants d.kinds d.body.items };

    ghost invariant = { λ d. IsAbout d.config d.tenants d.kinds };
}

impl<A: Drop> Document<A> {
    /// The document of these parts. Takes no memory.
    pub fn new(config: Checked, tenants: Tenants, kinds: Kinds, body: Vec<A>) -> Document<A>
        requires { IsAbout config tenants kinds }
        ensures { result ≡ document_in config tenants kinds body.items }
    {
        Document {
            config,
            tenants,
            kinds,
            body,
        }
    }

    // Replaces the body.
    pub(crate) fn set_body(&mut self, body: Vec<A>)
        ensures { self.new ≡ record self.old { body = body.items } }
    {
        self.body = body;
    }

    /// The configuration of the scheduler.
    pub fn config(&self) -> &Checked
        ensures { result.now ≡ config_of self.now }
    {
        &self.config
    }

    /// The tenants.
    pub fn tenants(&self) -> &Tenants
        ensures names { names_of result.now ≡ self.now.tenants }
        ensures weights { weights_of result.now ≡ self.now.weights }
    {
        &self.tenants
    }

    /// The kinds.
    pub fn kinds(&self) -> &Kinds
        ensures { result.now ≡ self.now.kinds }
    {
        &self.kinds
    }

    /// The values of the lines below the head, in order.
    pub fn body(&self) -> &[A]
        ensures { result.now ≡ self.now.body }
    {
        self.body.as_slice()
    }

    /// The configuration, the tenants, the kinds and the body. Takes no memory.
    pub fn into_parts(self) -> (Checked, Tenants, Kinds, Vec<A>)
        ensures config { result.0 ≡ config_of self }
        ensures tenants { names_of result.1 ≡ self.tenants }
        ensures kinds { result.2 ≡ self.kinds }
        ensures body { result.3.items ≡ self.body }
    {
        let Document {
            config,
            tenants,
            kinds,
            body,
        } = self;
        (config, tenants, kinds, body)
    }
}
