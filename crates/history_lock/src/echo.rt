//! A machine to try a lock with.
ghost use Rattle.std.specs.Prelude.{◌≡◌, [], IfOk};

use crate::machine::Machine;
use fq_model::event::{Act, Entry};
use std::alloc::{AllocError, Global};
use std::marker::Model;

/// A machine that answers how many entries it has, and writes each call down while it has room. A call is any number,
/// and becomes the moment of its entry.
#[derive(Drop)]
pub struct Echo {
    entries: Vec<Entry>,
    room: u32,
}

impl Model for Echo {
    ghost use Rattle.std.specs.Prelude.{◌≤◌, vec_capacity};
    ghost use Rattle.history_lock.specs.Echoes.{EchoView};

    ghost Value = { EchoView };

    ghost view = { λ e. record { past = e.entries.items; room = e.room } };

    ghost invariant = { λ e. e.room ≤ vec_capacity e.entries };
}

impl Echo {
    /// An echo with no entry, which takes as many as `room`. All its memory is taken here.
    pub fn open(alloc: Global, room: u32) -> Result<Echo, AllocError>
        ensures past { IfOk result (λ e. e.past ≡ []) }
        ensures room { IfOk result (λ e. e.room ≡ room) }
    {
        let entries = Vec::with_capacity(alloc, room as usize)?;
        Ok(Echo { entries, room })
    }

    /// The entries, in order of time.
    pub fn past(&self) -> &[Entry]
        ensures { result.now ≡ self.now.past }
    {
        &self.entries
    }
}

impl Machine for Echo {
    ghost use Rattle.history_lock.specs.Echoes.{EchoAnswers, echo_grows};

    type Call = u64;

    type Reply = u64;

    type Frame = u32;

    ghost past = { λ e. e.past };

    ghost frame = { λ e. e.room };

    ghost allowed = { λ room who call. Unit {0} };

    ghost answers = { EchoAnswers };

    ghost grows = { echo_grows };

    fn step(&mut self, who: u32, call: u64) -> u64 {
        let length = self.entries.len();
        if length < self.room as usize {
            self.entries.push_reserved(Entry {
                who,
                moment: call,
                act: Act::Close,
            });
        }
        length as u64
    }
}
