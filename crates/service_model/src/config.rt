//! The configuration of a service.
ghost use Rattle.std.specs.Prelude.{◌≡◌};

use fq_model::config::{Config, ConfigFault};
use fq_model::messages::{numbered, two_numbers};
use std::error::Error;
use std::fmt;
use std::marker::Model;

/// How many requests of one tenant and kind may be forwarded and not ended, by kind; 0 is no limit. Contracts see the
/// list.
#[derive(Drop)]
pub struct KindLimits {
    items: Vec<u32>,
}

impl Model for KindLimits {
    ghost use Rattle.std.specs.Prelude.{List, ℕ};

    ghost Value = { List ℕ };

    ghost view = { λ w. w.items.items };
}

impl KindLimits {
    /// Takes the vector over; takes no memory.
    pub fn from_vec(items: Vec<u32>) -> KindLimits
        ensures { result ≡ items.items }
    {
        KindLimits { items }
    }

    /// Gives the vector back; takes no memory.
    pub fn into_vec(self) -> Vec<u32>
        ensures { result.items ≡ self }
    {
        self.items
    }

    /// The limits in order.
    pub fn as_slice(&self) -> &[u32]
        ensures { result.now ≡ self.now }
    {
        self.items.as_slice()
    }
}

/// A configuration of a service that nobody has looked at.
#[derive(Drop)]
pub struct ServiceConfig {
    /// That of each scheduler. The weights are those of the slots at the opening, the workers the most that there may
    /// be, and the requests the places of the room: as many may wait, held ones among them. There are at least 8
    /// entries a place and 4 a worker.
    pub scheduler: Config,
    /// How many slots have a tenant from the opening on, with generation 0: the first ones, up to all. The others are
    /// joined.
    pub named: u32,
    /// How many requests of one tenant may wait. 0 is no such number: the tenants share the room then.
    pub room_per_tenant: u32,
    /// How many requests of a tenant may be forwarded and not ended, until its slot is given another limit; 0 is no
    /// limit.
    pub most_running: u32,
    /// The same for the requests of a tenant that are of one kind, by kind.
    pub kind_most_running: KindLimits,
    /// The least rise of a use that is reported to the scheduler, in microseconds: any number. At 0 nothing is reported
    /// by the clock, only what workers name.
    pub refresh: u64,
    /// The part of all time for which workers may stay free for small requests, in millionths: 0 to 1,000,000.
    pub idle_ppm: u32,
}

/// The first number of a configuration that is out of its limit, in the order of these variants.
#[derive(Clone, Copy, Debug, PartialEq, Eq)]
pub enum ServiceFault {
    /// A number of the scheduler's configuration.
    Scheduler(ConfigFault),
    /// This number of entries; there may be no fewer than `least`, which is 8 for each place of the room and 4 for each
    /// worker.
    Entries { entries: u32, least: u64 },
    /// This number of slots with a tenant from the opening on; it may be at most that of all slots.
    Named(u32),
    /// This number of limits by kind; there is to be one for each kind.
    KindLimits(u64),
    /// This part of all time, in millionths; it may be at most 1,000,000.
    IdlePart(u32),
}

impl fmt::Display for ServiceFault {
    fn fmt<W: fmt::Write>(&self, f: &mut fmt::Formatter<W>) -> fmt::Result {
        match *self {
            ServiceFault::Scheduler(fault) => fmt::Display::fmt(&fault, f),
            ServiceFault::Entries { entries, least } => two_numbers(
                f,
                "",
                entries as u64,
                " entries, and there may be no fewer than ",
                least,
                ": 8 for each request that may wait, and 4 for each worker",
            ),
            ServiceFault::Named(n) => numbered(
                f,
                "",
                n as u64,
                " slots have a tenant from the opening on, and there are fewer slots",
            ),
            ServiceFault::KindLimits(n) => {
                numbered(
                    f,
                    "",
                    n,
                    " limits by kind, and there is to be one for each kind",
                )
            }
            ServiceFault::IdlePart(n) => numbered(
                f,
                "",
                n as u64,
                " millionths of all time, and there are 1000000",
            ),
        }
    }
}

impl Error for ServiceFault {}
