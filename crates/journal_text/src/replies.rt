//! Replies as lines of text.
ghost use Rattle.std.specs.Prelude.{◌≡◌, ◌++◌, IfOk, OnOk, OnErr};
ghost use Rattle.program_model.specs.Texts.{refusal_line, reply_line, replies_text};

use crate::rows::{add_one, add_row, add_word};
use fq_model::event::{Cause, Reply};
use std::alloc::{AllocError, Global};

/// Appends a reply's line. Where memory runs out, `out` stays as it was.
pub fn reply_line(reply: Reply, out: &mut Vec<u8>) -> Result<(), AllocError>
    ensures added { OnOk result (out.new.items ≡ out.old.items ++ reply_line reply) }
    ensures unchanged { OnErr result (out.new.items ≡ out.old.items) }
{
    match reply {
        Reply::Request(request) => add_one("request", request as u64, out),
        Reply::Run {
            request,
            estimate,
            label,
        } => add_row("run", &[request as u64, estimate, label], out),
        Reply::Accepted => add_word("ok", out),
        Reply::Idle => add_word("idle", out),
        Reply::Drained => add_word("drained", out),
        Reply::Retired(workers) => add_one("retired", workers as u64, out),
        Reply::Withdrawn { label } => add_one("withdrawn", label, out),
        Reply::Refused(cause) => refusal_line(cause, out),
    }
}

fn refusal_line(cause: Cause, out: &mut Vec<u8>) -> Result<(), AllocError>
    ensures added { OnOk result (out.new.items ≡ out.old.items ++ refusal_line cause) }
    ensures unchanged { OnErr result (out.new.items ≡ out.old.items) }
{
    match cause {
        Cause::Closed => add_word("refused closed", out),
        Cause::Tenant(tenant) => add_one("refused tenant", tenant as u64, out),
        Cause::Kind(kind) => add_one("refused kind", kind as u64, out),
        Cause::Cost(cost) => add_one("refused cost", cost, out),
        Cause::Slots(slots) => add_one("refused slots", slots as u64, out),
        Cause::Full(entries) => add_one("refused full", entries as u64, out),
        Cause::Worker(worker) => add_one("refused worker", worker as u64, out),
        Cause::Busy(request) => add_one("refused busy", request as u64, out),
        Cause::NotRunning => add_word("refused not-running", out),
        Cause::Weight(weight) => add_one("refused weight", weight as u64, out),
        Cause::Workers(count) => add_one("refused workers", count as u64, out),
        Cause::NotWaiting(request) => add_one("refused not-waiting", request as u64, out),
        Cause::Falling { last, given } => add_row("refused falling", &[last, given], out),
    }
}

/// The lines of replies, in order.
pub fn replies_text(alloc: Global, replies: &[Reply]) -> Result<Vec<u8>, AllocError>
    ensures { IfOk result (λ text. text.items ≡ replies_text replies.now) }
{
    let mut text = Vec::new(alloc);
    for reply in replies {
        reply_line(*reply, &mut text)?;
    }
    Ok(text)
}
