//! Entries of a history in plain numbers.
ghost use Rattle.std.specs.Prelude.{◌≡◌};
ghost use Rattle.twodfq_c.specs.Entries.{plain_entry, plain_act, run_by, no_entry};

use fq_model::event::{Act, Entry};

/// An entry of a history: its kind, who made the call, the moment in microseconds, and the numbers that come with it, 0
/// where none does.
///
/// | kind | entry | request | tenant | request_kind | worker | amount | label |
/// |---|---|---|---|---|---|---|---|
/// | 0 | submit | its number | its tenant | its kind | | declared cost | label |
/// | 1 | take | its number | | | its worker | estimate | |
/// | 2 | report | its number | | | its worker | use | |
/// | 3 | done | its number | | | its worker | cost | |
/// | 4 | close | | | | | | |
/// | 5 | weight | | the tenant | | | weight | |
/// | 6 | workers | | | | | how many | |
/// | 7 | withdraw | its number | | | | | |
/// | 255 | no entry that is kept has the index | | | | | first index of one that is | |
#[repr(C)]
#[derive(Clone, Copy, Debug, PartialEq, Eq)]
pub struct PlainEntry {
    pub kind: u32,
    pub who: u32,
    pub moment: u64,
    pub request: u32,
    pub tenant: u32,
    pub request_kind: u32,
    pub worker: u32,
    pub amount: u64,
    pub label: u64,
}

const BLANK: PlainEntry = PlainEntry {
    kind: 255,
    who: 0,
    moment: 0,
    request: 0,
    tenant: 0,
    request_kind: 0,
    worker: 0,
    amount: 0,
    label: 0,
};

impl PlainEntry {
    /// The numbers where no kept entry has the index: the first index that a kept entry has.
    pub(crate) fn missing(first: u64) -> PlainEntry
        ensures { result ≡ no_entry first }
    {
        PlainEntry {
            amount: first,
            ..BLANK
        }
    }

    /// The entry in numbers.
    pub(crate) fn of(entry: Entry) -> PlainEntry
        ensures { result ≡ plain_entry entry }
    {
        let Entry { who, moment, act } = entry;
        PlainEntry {
            who,
            moment,
            ..of_act(act)
        }
    }
}

// The act in numbers, without who did it and when.
fn of_act(act: Act) -> PlainEntry
    ensures { result ≡ plain_act act }
{
    match act {
        Act::Submit {
            request,
            tenant,
            kind,
            declared,
            label,
        } => PlainEntry {
            kind: 0,
            request,
            tenant,
            request_kind: kind,
            amount: declared,
            label,
            ..BLANK
        },
        Act::Take {
            worker,
            request,
            estimate,
        } => run_by(1, worker, request, estimate),
        Act::Report {
            worker,
            request,
            used,
        } => run_by(2, worker, request, used),
        Act::Done {
            worker,
            request,
            cost,
        } => run_by(3, worker, request, cost),
        Act::Close => PlainEntry { kind: 4, ..BLANK },
        Act::Weight { tenant, weight } => PlainEntry {
            kind: 5,
            tenant,
            amount: weight as u64,
            ..BLANK
        },
        Act::Workers { count } => PlainEntry {
            kind: 6,
            amount: count as u64,
            ..BLANK
        },
        Act::Withdraw { request } => PlainEntry {
            kind: 7,
            request,
            ..BLANK
        },
    }
}

// An act of a worker on the request that it runs.
fn run_by(kind: u32, worker: u32, request: u32, amount: u64) -> PlainEntry
    ensures { result ≡ run_by kind worker request amount }
{
    PlainEntry {
        kind,
        request,
        worker,
        amount,
        ..BLANK
    }
}
