//! The scheduler for programs in C: functions over a handle that the caller keeps, one call at a time for each handle.
//! Each answers as the scheduler does, and takes and gives numbers alone, since C knows no enums and no boxes.
#![tactic(auto)]

ghost use Rattle.std.specs.Prelude.{◌≡◌, None};
ghost use Rattle.fq_model.specs.declared.event.Call.TheVariants as call;
ghost use Rattle.twodfq_c.specs.Answering.{AnswersHeld};
ghost use Rattle.twodfq_c.specs.Finding.{FindsHeld};
ghost use Rattle.twodfq_c.specs.Opening.{Opens};
ghost use Rattle.twodfq_c.specs.Entries.{ReadsHeld};
ghost use Rattle.twodfq_c.specs.Statuses.{TellsHeld};

mod entry;
mod handle;
mod loose;
mod opening;
mod reply;
mod slot;
mod status;
#[cfg(test)]
mod tests;

pub use entry::PlainEntry;
use fq_model::event::Call;
pub use handle::Handle;
pub use opening::Opening;
pub use reply::PlainReply;
pub use status::PlainStatus;
use std::alloc::Global;

/// Opens a scheduler in a handle that holds none; `weights` has one number a tenant. All the memory that the scheduler
/// will use is taken here. Gives 0, or a status above it: nothing has changed then.
#[unsafe(no_mangle)]
pub extern "C" fn twodfq_open(
    handle: &mut Handle,
    alloc: Global,
    opening: &Opening,
    weights: &[u32],
) -> u32
    ensures { Opens handle.old.slot.held opening.now weights.now result handle.new.slot.held }
{
    opening::status(opening::open(handle, alloc, opening, weights))
}

/// A request comes. `who` names the caller and is only written down; `moment` and `declared` are microseconds.
#[unsafe(no_mangle)]
pub extern "C" fn twodfq_submit(
    handle: &mut Handle,
    alloc: Global,
    who: u32,
    moment: u64,
    tenant: u32,
    kind: u32,
    declared: u64,
    label: u64,
) -> PlainReply
    ensures { AnswersHeld handle.old.slot.held (call.Submit who moment tenant kind declared label)
        result handle.new.slot.held }
{
    let call = Call::Submit {
        who,
        moment,
        tenant,
        kind,
        declared,
        label,
    };
    handle.call(alloc, call)
}

/// A worker that runs nothing asks for work.
#[unsafe(no_mangle)]
pub extern "C" fn twodfq_take(
    handle: &mut Handle,
    alloc: Global,
    who: u32,
    moment: u64,
    worker: u32,
) -> PlainReply
    ensures { AnswersHeld handle.old.slot.held (call.Take who moment worker) result handle.new.slot.held }
{
    let call = Call::Take {
        who,
        moment,
        worker,
    };
    handle.call(alloc, call)
}

/// A worker says how many microseconds its request has used so far.
#[unsafe(no_mangle)]
pub extern "C" fn twodfq_report(
    handle: &mut Handle,
    alloc: Global,
    who: u32,
    moment: u64,
    worker: u32,
    used: u64,
) -> PlainReply
    ensures { AnswersHeld handle.old.slot.held (call.Report who moment worker used) result handle.new.slot.held }
{
    let call = Call::Report {
        who,
        moment,
        worker,
        used,
    };
    handle.call(alloc, call)
}

/// A worker says how many microseconds its request cost, now that it has ended.
#[unsafe(no_mangle)]
pub extern "C" fn twodfq_done(
    handle: &mut Handle,
    alloc: Global,
    who: u32,
    moment: u64,
    worker: u32,
    cost: u64,
) -> PlainReply
    ensures { AnswersHeld handle.old.slot.held (call.Done who moment worker cost) result handle.new.slot.held }
{
    let call = Call::Done {
        who,
        moment,
        worker,
        cost,
    };
    handle.call(alloc, call)
}

/// Nothing more is submitted from here on.
#[unsafe(no_mangle)]
pub extern "C" fn twodfq_close(
    handle: &mut Handle,
    alloc: Global,
    who: u32,
    moment: u64,
) -> PlainReply
    ensures { AnswersHeld handle.old.slot.held (call.Close who moment) result handle.new.slot.held }
{
    let call = Call::Close { who, moment };
    handle.call(alloc, call)
}

/// The tenant has this weight from here on, 1 to 1,000.
#[unsafe(no_mangle)]
pub extern "C" fn twodfq_weight(
    handle: &mut Handle,
    alloc: Global,
    who: u32,
    moment: u64,
    tenant: u32,
    weight: u32,
) -> PlainReply
    ensures { AnswersHeld handle.old.slot.held (call.Weight who moment tenant weight) result handle.new.slot.held }
{
    let call = Call::Weight {
        who,
        moment,
        tenant,
        weight,
    };
    handle.call(alloc, call)
}

/// There are `count` workers from here on, 1 to the number at the opening: those with lower numbers.
#[unsafe(no_mangle)]
pub extern "C" fn twodfq_workers(
    handle: &mut Handle,
    alloc: Global,
    who: u32,
    moment: u64,
    count: u32,
) -> PlainReply
    ensures { AnswersHeld handle.old.slot.held (call.Workers who moment count) result handle.new.slot.held }
{
    let call = Call::Workers { who, moment, count };
    handle.call(alloc, call)
}

/// A request that waits is withdrawn: it is never taken.
#[unsafe(no_mangle)]
pub extern "C" fn twodfq_withdraw(
    handle: &mut Handle,
    alloc: Global,
    who: u32,
    moment: u64,
    request: u32,
) -> PlainReply
    ensures { AnswersHeld handle.old.slot.held (call.Withdraw who moment request) result handle.new.slot.held }
{
    let call = Call::Withdraw {
        who,
        moment,
        request,
    };
    handle.call(alloc, call)
}

/// Foresees a take by the worker at this moment, and whether a head that is eligible for it then has an estimate below
/// `below`, in microseconds; nothing changes.
#[unsafe(no_mangle)]
pub extern "C" fn twodfq_foresee(
    handle: &mut Handle,
    alloc: Global,
    moment: u64,
    worker: u32,
    below: u64,
) -> PlainReply
    ensures foreseen { FindsHeld handle.old.slot.held moment worker below result }
    ensures unchanged { handle.new.slot.held ≡ handle.old.slot.held }
{
    handle.foresee(alloc, moment, worker, below)
}

/// Reads one entry of the history, if it is among the last that are kept; the first of all has the index 0.
#[unsafe(no_mangle)]
pub extern "C" fn twodfq_entry(handle: &mut Handle, alloc: Global, index: u64) -> PlainEntry
    ensures entry { ReadsHeld handle.old.slot.held index result }
    ensures unchanged { handle.new.slot.held ≡ handle.old.slot.held }
{
    handle.entry(alloc, index)
}

/// Gives the status of the scheduler after its last entry.
#[unsafe(no_mangle)]
pub extern "C" fn twodfq_status(handle: &mut Handle, alloc: Global) -> PlainStatus
    ensures status { TellsHeld handle.old.slot.held result }
    ensures unchanged { handle.new.slot.held ≡ handle.old.slot.held }
{
    handle.status(alloc)
}

/// Gives the scheduler's memory back, if the handle holds one.
#[unsafe(no_mangle)]
pub extern "C" fn twodfq_free(handle: &mut Handle, alloc: Global)
    ensures { handle.new.slot.held ≡ None }
{
    drop(handle.take(alloc));
}
