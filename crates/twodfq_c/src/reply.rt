//! Replies in plain numbers.
ghost use Rattle.std.specs.Prelude.{◌≡◌};
ghost use Rattle.twodfq_c.specs.Replies.{plain_reply, plain_foreseen, plain_run, plain_cause, requested, numbered, no_scheduler, flag_of};

use fq_model::event::{Cause, Foreseen, ForeseenRun, Reply};

/// A reply to a call, or a foreseen take: its kind, and the numbers that come with it, 0 where none does.
///
/// | kind | reply | request | first | second |
/// |---|---|---|---|---|
/// | 0 | submitted | its number | | |
/// | 1 | run | its number | estimate, in microseconds | label |
/// | 2, 3, 4 | accepted, idle, drained | | | |
/// | 5 | retired | | workers now | |
/// | 6 | withdrawn | | | label |
/// | 7 | foreseen: nothing waits | | | |
/// | 8 | foreseen: this head would be taken, with the four last fields | its number | estimate, in microseconds | |
/// | 16 | refused: closed | | | |
/// | 17, 18 | refused: no such tenant, kind | | the number given | |
/// | 19 | refused: cost out of its range | | the cost given | |
/// | 20, 21 | refused: as many wait, the history has as many entries, as may be | | how many may be | |
/// | 22 | refused: no such worker | | the number given | |
/// | 23 | refused: the worker runs a request | that one | | |
/// | 24 | refused: the worker runs nothing | | | |
/// | 25 | refused: less than reported before | | reported | given |
/// | 26, 27 | refused: weight, number of workers out of its range | | the number given | |
/// | 28 | refused: the request does not wait | that one | | |
/// | 255 | the handle holds no scheduler | | | |
#[repr(C)]
#[derive(Clone, Copy, Debug, PartialEq, Eq)]
pub struct PlainReply {
    pub kind: u32,
    pub request: u32,
    pub first: u64,
    pub second: u64,
    /// The tenant of a foreseen request.
    pub tenant: u32,
    /// The kind of a foreseen request.
    pub request_kind: u32,
    /// 1 where a foreseen request is eligible for the worker.
    pub is_eligible: u32,
    /// 1 where some eligible head has an estimate below the one that was asked about.
    pub has_smaller: u32,
}

impl PlainReply {
    /// The reply of a handle that holds no scheduler.
    pub(crate) fn no_scheduler() -> PlainReply
        ensures { result ≡ no_scheduler }
    {
        numbered(255, 0, 0)
    }

    /// The reply in numbers.
    pub(crate) fn of(reply: Reply) -> PlainReply
        ensures { result ≡ plain_reply reply }
    {
        match reply {
            Reply::Request(request) => requested(0, request),
            Reply::Run {
                request,
                estimate,
                label,
            } => running(request, estimate, label),
            Reply::Accepted => numbered(2, 0, 0),
            Reply::Idle => numbered(3, 0, 0),
            Reply::Drained => numbered(4, 0, 0),
            Reply::Retired(workers) => numbered(5, workers as u64, 0),
            Reply::Withdrawn { label } => numbered(6, 0, label),
            Reply::Refused(cause) => refused(cause),
        }
    }

    /// The foreseen take in numbers.
    pub(crate) fn of_foreseen(foreseen: Foreseen) -> PlainReply
        ensures { result ≡ plain_foreseen foreseen }
    {
        match foreseen {
            Foreseen::Nothing => numbered(7, 0, 0),
            Foreseen::Run(run) => foreseen_run(run),
            Foreseen::Retired(workers) => numbered(5, workers as u64, 0),
            Foreseen::Refused(cause) => refused(cause),
        }
    }
}

// The request that a worker would get.
fn foreseen_run(run: ForeseenRun) -> PlainReply
    ensures { result ≡ plain_run run }
{
    PlainReply {
        kind: 8,
        request: run.request,
        first: run.estimate,
        second: 0,
        tenant: run.tenant,
        request_kind: run.kind,
        is_eligible: flag_of(run.is_eligible),
        has_smaller: flag_of(run.has_smaller),
    }
}

// 1 for true.
fn flag_of(flag: bool) -> u32
    ensures { result ≡ flag_of flag }
{
    if flag { 1 } else { 0 }
}

// The refusal for this cause.
fn refused(cause: Cause) -> PlainReply
    ensures { result ≡ plain_cause cause }
{
    match cause {
        Cause::Closed => numbered(16, 0, 0),
        Cause::Tenant(tenant) => numbered(17, tenant as u64, 0),
        Cause::Kind(kind) => numbered(18, kind as u64, 0),
        Cause::Cost(cost) => numbered(19, cost, 0),
        Cause::Slots(slots) => numbered(20, slots as u64, 0),
        Cause::Full(entries) => numbered(21, entries as u64, 0),
        Cause::Worker(worker) => numbered(22, worker as u64, 0),
        Cause::Busy(request) => requested(23, request),
        Cause::NotRunning => numbered(24, 0, 0),
        Cause::Falling { last, given } => numbered(25, last, given),
        Cause::Weight(weight) => numbered(26, weight as u64, 0),
        Cause::Workers(workers) => numbered(27, workers as u64, 0),
        Cause::NotWaiting(request) => requested(28, request),
    }
}

// The request that the worker runs.
fn running(request: u32, estimate: u64, label: u64) -> PlainReply
    ensures { result ≡ requested 1 request estimate label }
{
    PlainReply {
        request,
        ..numbered(1, estimate, label)
    }
}

// A reply that names a request and no more.
fn requested(kind: u32, request: u32) -> PlainReply
    ensures { result ≡ requested kind request 0 0 }
{
    PlainReply {
        request,
        ..numbered(kind, 0, 0)
    }
}

// A reply that names no request.
fn numbered(kind: u32, first: u64, second: u64) -> PlainReply
    ensures { result ≡ numbered kind first second }
{
    PlainReply {
        kind,
        request: 0,
        first,
        second,
        tenant: 0,
        request_kind: 0,
        is_eligible: 0,
        has_smaller: 0,
    }
}
