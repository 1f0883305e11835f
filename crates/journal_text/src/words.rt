//! The words of a line. The first word is word 0; faults count from 1.
ghost use Rattle.std.specs.Prelude.{◌≡◌, ◌∷◌, ◌<◌, ◌≤◌, IsTrue, length, IfOk, Ok, Err, MatchResult};
ghost use Rattle.program_model.specs.Reading.{begins_with};
ghost use Rattle.fq_model.specs.Spelling.{is_name};
ghost use Rattle.journal_text.specs.FirstLine.{AreRead};
ghost use Rattle.program_model.specs.Lines.{words_of, word, with_count, number_at, ranged_at};
ghost use Rattle.program_model.specs.Lines.{index_at, name_at, policy_at, estimator_at};

use crate::lines::find;
use crate::named::{estimator, name, policy};
use fq_model::config::{Estimator, Policy};
use program_model::fault::ScriptKind;
use program_model::numbers::number;
use std::marker::Model;

/// The most numbers in a line of a script or a journal.
pub const MOST_NUMBERS: usize = 7;

/// The words of a line. Each is found by a scan when it is asked for, so that no line takes memory.
#[derive(Drop)]
pub struct Words<'a> {
    first: &'a [u8],
    // the line behind the space that ends the first word
    rest: Option<&'a [u8]>,
    // the numbers that the words behind the first spell, where they were read with the line
    numbers: [u64; MOST_NUMBERS],
    // how many numbers were read: one for each of these words, or 0
    read: usize,
}

impl<'a> Model for Words<'a> {
    ghost use Rattle.std.specs.Prelude.{◌∷◌};
    ghost use Rattle.program_model.specs.Lines.{Words};
    ghost use Rattle.journal_text.specs.FirstLine.{words_behind, AreRead};

    ghost Value = { Words };

    ghost view = { λ w. w.first.now ∷ words_behind w.rest };

    ghost invariant = { λ w. AreRead w.read w.numbers (words_behind w.rest) };
}

impl<'a> Words<'a> {
    /// The words of this line.
    pub fn of(line: &'a [u8]) -> Words<'a>
        ensures { result ≡ words_of line.now }
    {
        match find(b' ', line) {
            Some(end) => Words {
                first: &line[..end],
                rest: Some(&line[end + 1..]),
                numbers: [0; MOST_NUMBERS],
                read: 0,
            },
            None => Words {
                first: line,
                rest: None,
                numbers: [0; MOST_NUMBERS],
                read: 0,
            },
        }
    }

    /// The words of a line that is this word, a space and this text. The text's words are the first `read` numbers.
    #[inline(always)]
    pub fn of_numbers(
        first: &'a [u8],
        rest: &'a [u8],
        numbers: [u64; MOST_NUMBERS],
        read: usize,
    ) -> Words<'a>
        requires { AreRead read numbers (words_of rest.now) }
        ensures { result ≡ first.now ∷ words_of rest.now }
    {
        Words {
            first,
            rest: Some(rest),
            numbers,
            read,
        }
    }

    // The number of words.
    fn count(&self) -> usize
        ensures { result ≡ length self.now }
    {
        if self.read > 0 {
            return self.read + 1;
        }
        match self.rest {
            Some(rest) => rest.iter().filter(|b| **b == b' ').count() + 2,
            None => 1,
        }
    }

    // Word k, or nothing where there are fewer.
    fn word(&self, k: u32) -> &'a [u8]
        ensures { result.now ≡ word self.now k }
    {
        if k == 0 {
            return self.first;
        }
        match self.rest {
            Some(rest) => Words::of(rest).word(k - 1),
            None => &self.first[..0],
        }
    }

    /// Whether the first word is this.
    pub fn begins_with(&self, first: &[u8]) -> bool
        ensures { result ≡ begins_with self.now first.now }
    {
        self.first == first
    }

    /// That there are this many words.
    pub fn expect_count(&self, count: usize) -> Result<(), ScriptKind>
        ensures { MatchResult result
            (λ _. with_count count self.now ≡ Ok self.now) (λ fault. with_count count self.now ≡ Err fault) }
    {
        let words = self.count();
        if words != count {
            return Err(ScriptKind::Fields(words as u64));
        }
        Ok(())
    }

    /// A number.
    #[tactic(auto, unfolding(program_model::specs::Lines::number_at))]
    pub fn number_at(&self, k: u32) -> Result<u64, ScriptKind>
        requires { k < 8 }
        ensures { result ≡ number_at self.now k }
    {
        if 0 < k && k as usize <= self.read {
            return Ok(self.numbers[k as usize - 1]);
        }
        number(self.word(k)).ok_or(ScriptKind::Number(k + 1))
    }

    /// A number from `low` to `high`.
    #[tactic(auto, unfolding(program_model::specs::Lines::ranged_at))]
    pub fn ranged_at(&self, k: u32, low: u64, high: u64) -> Result<u64, ScriptKind>
        requires { k < 8 }
        ensures given { result ≡ ranged_at self.now k low high }
        ensures lower { IfOk result (λ n. low ≤ n) }
        ensures upper { IfOk result (λ n. n ≤ high) }
    {
        let n = self.number_at(k)?;
        if n < low || n > high {
            return Err(ScriptKind::Range(k + 1));
        }
        Ok(n)
    }

    /// A number of 32 bits: of a caller, a tenant, a kind or a worker, a weight, or a count.
    #[tactic(auto, unfolding(program_model::specs::Lines::index_at))]
    pub fn index_at(&self, k: u32) -> Result<u32, ScriptKind>
        requires { k < 8 }
        ensures { result ≡ index_at self.now k }
    {
        self.small_at(k, 0, u32::MAX)
    }

    /// A number from `low` to `high`, which is of 32 bits.
    pub fn small_at(&self, k: u32, low: u32, high: u32) -> Result<u32, ScriptKind>
        requires { k < 8 }
        ensures given { result ≡ ranged_at self.now k low high }
        ensures lower { IfOk result (λ n. low ≤ n) }
        ensures upper { IfOk result (λ n. n ≤ high) }
    {
        let n = self.ranged_at(k, low as u64, high as u64)?;
        Ok(n as u32)
    }

    /// A name.
    #[tactic(auto, unfolding(program_model::specs::Lines::name_at))]
    pub fn name_at(&self, k: u32) -> Result<&'a str, ScriptKind>
        ensures given { MatchResult result
            (λ n. name_at self.now k ≡ Ok n.now) (λ fault. name_at self.now k ≡ Err fault) }
        ensures spelled { IfOk result (λ n. IsTrue (is_name n.now)) }
    {
        name(self.word(k)).ok_or(ScriptKind::Word)
    }

    /// A policy.
    #[tactic(auto, unfolding(program_model::specs::Lines::policy_at))]
    pub fn policy_at(&self, k: u32) -> Result<Policy, ScriptKind>
        ensures { result ≡ policy_at self.now k }
    {
        policy(self.word(k)).ok_or(ScriptKind::Word)
    }

    /// An estimator.
    #[tactic(auto, unfolding(program_model::specs::Lines::estimator_at))]
    pub fn estimator_at(&self, k: u32) -> Result<Estimator, ScriptKind>
        ensures { result ≡ estimator_at self.now k }
    {
        estimator(self.word(k)).ok_or(ScriptKind::Word)
    }
}
