//! Numbers that are noted.
ghost use Rattle.std.specs.Prelude.{◌≡◌, ◌<◌, IfOk, All, Contains, true, false, length, replicate, slice_set, ℕ};
ghost use Rattle.eligible_index.specs.Noted.{IsNoted, AreListed};

use std::alloc::{AllocError, Global};
use std::marker::Model;

/// Which numbers of those below a bound are noted, and a list of these in which each stands once. Contracts see a list
/// of flags.
#[derive(Drop)]
pub struct Noted {
    flags: Vec<bool>,
    numbers: Vec<u32>,
}

impl Model for Noted {
    ghost use Rattle.std.specs.Prelude.{List, Bool, vec_capacity};
    ghost use Rattle.eligible_index.specs.Noted.{KeepsNoted};

    ghost Value = { List Bool };

    ghost view = { λ n. n.flags.items };

    ghost invariant = { λ n. KeepsNoted n.flags.items n.numbers.items (vec_capacity n.numbers) };
}

impl Noted {
    /// Of the numbers below `bound` none is noted. All memory is taken here.
    pub fn open(alloc: Global, bound: u32) -> Result<Noted, AllocError>
        ensures { IfOk result (λ n. n ≡ replicate bound false) }
    {
        let flags = vec![in alloc; false; bound as usize]?;
        let numbers = Vec::with_capacity(alloc, bound as usize)?;
        Ok(Noted { flags, numbers })
    }

    /// Notes a number, if it is not noted yet.
    pub fn note(&mut self, number: u32)
        requires { number < length self.old }
        ensures { self.new ≡ slice_set self.old number true }
    {
        if !self.flags[number as usize] {
            self.flags[number as usize] = true;
            self.numbers.push_reserved(number);
        }
    }

    /// Notes all numbers below the bound.
    pub fn note_all(&mut self, bound: u32)
        requires { bound ≡ length self.old }
        ensures { self.new ≡ replicate bound true }
    {
        for number in 0..bound {
            self.note(number);
        }
    }

    /// The numbers that are noted.
    pub fn numbers(&self) -> &[u32]
        ensures known { All (λ n. n < length self.now) result.now }
        ensures all { (n : ℕ) → IsNoted self.now n → Contains result.now n }
    {
        &self.numbers
    }

    /// Forgets all.
    pub fn clear(&mut self)
        ensures { self.new ≡ replicate (length self.old) false }
    {
        forget(&mut self.flags, &self.numbers);
        self.numbers.clear();
    }
}

// Takes away the flags of all numbers that are noted.
fn forget(flags: &mut [bool], numbers: &[u32])
    requires { AreListed flags.old numbers.now }
    ensures { flags.new ≡ replicate (length flags.old) false }
{
    for number in numbers.iter() {
        flags[*number as usize] = false;
    }
}
