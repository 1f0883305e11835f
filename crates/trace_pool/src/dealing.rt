//! The rows of each submitter.
ghost use Rattle.std.specs.Prelude.{◌≡◌, ◌<◌, length, IfOk};
ghost use Rattle.trace_pool.specs.Parts.{AreRowsOf};
ghost use Rattle.trace_pool.specs.Places.{HoldsFrom};

use gate_rules::rows::Row;
use program_model::trace::TraceRow;
use std::alloc::{AllocError, Global};
use std::collections::VecDeque;

/// The rows of each submitter, in order. A row's job is its number.
pub fn deal(
    alloc: Global,
    rows: &[TraceRow],
    submitters: u32,
) -> Result<Vec<VecDeque<Row<u64>>>, AllocError>
    ensures queues { IfOk result (λ qs. HoldsFrom (λ j q. AreRowsOf rows.now j q.items) 0 qs.items) }
    ensures count { IfOk result (λ qs. length qs.items ≡ submitters) }
{
    let mut queues = Vec::with_capacity(alloc, submitters as usize)?;
    for number in 0..submitters {
        queues.push_reserved(rows_of(alloc, rows, number)?);
    }
    Ok(queues)
}

fn rows_of(alloc: Global, rows: &[TraceRow], number: u32) -> Result<VecDeque<Row<u64>>, AllocError>
    ensures { IfOk result (λ q. AreRowsOf rows.now number q.items) }
{
    let mut queue = VecDeque::new(alloc);
    for (job, row) in rows.iter().enumerate() {
        if row.submitter == number {
            queue.push_back(Row {
                tenant: row.tenant,
                kind: row.kind,
                declared: row.declared,
                job: job as u64,
            })?;
        }
    }
    Ok(queue)
}
