//! The rows of a table.
ghost use Rattle.std.specs.Prelude.{◌≡◌};
ghost use Rattle.waiting_table.specs.Table.{row_at};

/// A request that waits in a service: held back, or forwarded to the scheduler. Moments are in microseconds since the
/// opening.
#[derive(Clone, Copy, Debug, PartialEq, Eq)]
pub struct Waiting {
    /// Its ticket: later admissions have greater ones.
    pub ticket: u64,
    /// Its place in the room, numbered from 0: no other that waits has it.
    pub place: u32,
    /// The slot of its tenant.
    pub slot: u32,
    /// The number of its kind.
    pub kind: u32,
    /// The cost that was declared for it, in microseconds.
    pub declared: u64,
    /// The last moment at which it may be granted, if there is one.
    pub deadline: Option<u64>,
    /// What its submitter knows it by.
    pub label: u64,
    /// The moment of its admission.
    pub came: u64,
    /// Its number in the scheduler, if it is forwarded.
    pub request: Option<u32>,
}

/// A request that comes to wait: all of a row but the place, which the table gives it.
#[derive(Clone, Copy, Debug, PartialEq, Eq)]
pub struct Coming {
    pub ticket: u64,
    pub slot: u32,
    pub kind: u32,
    pub declared: u64,
    pub deadline: Option<u64>,
    pub label: u64,
    pub came: u64,
    pub request: Option<u32>,
}

impl Coming {
    /// The row of this request at a place.
    pub fn at(&self, place: u32) -> Waiting
        ensures { result ≡ row_at place self.now }
    {
        Waiting {
            ticket: self.ticket,
            place,
            slot: self.slot,
            kind: self.kind,
            declared: self.declared,
            deadline: self.deadline,
            label: self.label,
            came: self.came,
            request: self.request,
        }
    }
}

/// A deadline, in microseconds since the opening, and the ticket of the request that has it.
#[derive(Clone, Copy, Debug, PartialEq, Eq)]
pub struct Due {
    pub deadline: u64,
    pub ticket: u64,
}
