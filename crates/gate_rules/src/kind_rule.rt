//! How a kind comes from a job.
ghost use Rattle.std.specs.Prelude.{◌≡◌, ◌<◌, ℕ};
ghost use Rattle.gate_rules.specs.Rules.{KindsOf, AnswersBelow};

use std::marker::{Model, PhantomData};

/// A function from jobs to kinds, which an implementation tells.
pub trait Kind<J> {
    ghost kind_of: { Self → J → ℕ };

    /// The kind of the job, as an index.
    fn kind(&self, job: &J) -> u32
        ensures { result ≡ kind_of self.now job.now };
}

/// A function from jobs to kinds that is known to answer kinds that there are, so that no submit is refused for its
/// kind.
#[derive(Drop)]
pub struct KindRule<J, F: Kind<J>> {
    function: F,
    kinds: u32,
    jobs: PhantomData<J>,
}

// Contracts see the function and the number of kinds.
impl<J, F: Kind<J>> Model for KindRule<J, F> {
    ghost Value = { KindsOf F };

    ghost view = { λ rule. record { function = rule.function; kinds = rule.kinds } };

    ghost invariant = { λ rule. AnswersBelow (F.kind_of rule.function) rule.kinds };
}

impl<J, F: Kind<J>> KindRule<J, F> {
    /// Keeps the function, for this number of kinds.
    pub fn new(function: F, kinds: u32) -> KindRule<J, F>
        requires { AnswersBelow (F.kind_of function) kinds }
        ensures { result ≡ record { function = function; kinds = kinds } }
    {
        KindRule {
            function,
            kinds,
            jobs: PhantomData,
        }
    }

    /// The kind of the job, as an index.
    pub fn kind(&self, job: &J) -> u32
        ensures answer { result ≡ F.kind_of self.now.function job.now }
        ensures below { result < self.now.kinds }
    {
        self.function.kind(job)
    }

    /// That each kind is below the number of kinds: a fact for proofs, which does nothing when it runs.
    pub fn answers_below(&self)
        ensures { AnswersBelow (F.kind_of self.now.function) self.now.kinds }
    {
        let _ = &self.function;
    }
}
