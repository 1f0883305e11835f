//! The moments at which requests come where each tenant has a bucket of tokens.
ghost use Rattle.std.specs.Prelude.{◌≡◌, None, IfOk, IfErr, nat_lt, position};
ghost use Rattle.fq_model.specs.Limits.{IsWithin};
ghost use Rattle.program_model.specs.Conforms.{IsLeastConforming, too_big, too_late};
ghost use Rattle.program_model.specs.TraceText.{IsLawfulTrace};
ghost use Rattle.trace_shape.specs.Reasons.{IsReason};
ghost use Rattle.program_model.specs.Shaped.{rows_at, at_moments, IsShaped};

use crate::bucket::Bucket;
use crate::copies::{copy_of_kinds, copy_of_tenants};
use crate::fault::ShapeFault;
use fq_model::limits::{GREATEST_BURST, GREATEST_RATE, GREATEST_TRACE_MOMENT};
use program_model::trace::TraceRow;
use std::alloc::{AllocError, Global};
use trace_reader::trace::Trace;

/// The least moments, in microseconds, at which the requests of a trace may come, where each takes as many tokens as it
/// declares. A tenant's bucket holds `burst` tokens and is full at first; for each unit of its weight it gains `rate`
/// tokens in 1000 microseconds. Each row is looked at once, against the bucket of its tenant. Where memory runs out, a
/// row that would come too late may go unnamed.
pub fn moments(alloc: Global, trace: &Trace, rate: u64, burst: u64) -> Result<Vec<u64>, ShapeFault>
    requires lawful { IsLawfulTrace trace.now }
    requires rate { IsWithin 1 GREATEST_RATE rate }
    requires burst { IsWithin 1 GREATEST_BURST burst }
    ensures least { IfOk result (λ moments. IsLeastConforming trace.now rate burst moments.items) }
    ensures in_time { IfOk result (λ moments. too_late moments.items ≡ None) }
    ensures fault { IfErr result (IsReason trace.now rate burst) }
{
    if let Some(r) = too_big(trace, burst) {
        return Err(ShapeFault::TooBig(r));
    }
    let capacity = 1000 * burst;
    let tenants = trace.tenants();
    let mut buckets = vec![in alloc; Bucket::full(capacity); tenants.len() as usize]?;
    let mut moments = Vec::with_capacity(alloc, trace.rows().len())?;
    for (r, row) in trace.rows().iter().enumerate() {
        let gain = rate * tenants.weight(row.tenant) as u64;
        let bucket = buckets[row.tenant as usize].taken(gain, capacity, row);
        if bucket.moment > GREATEST_TRACE_MOMENT {
            return Err(ShapeFault::TooLate(r as u32));
        }
        buckets[row.tenant as usize] = bucket;
        moments.push(bucket.moment)?;
    }
    Ok(moments)
}

// The first row that declares more than a bucket holds.
fn too_big(trace: &Trace, burst: u64) -> Option<u32>
    requires { IsLawfulTrace trace.now }
    ensures { result ≡ too_big trace.now burst }
{
    let r = first_above(trace.rows(), burst)?;
    Some(r as u32)
}

fn first_above(rows: &[TraceRow], burst: u64) -> Option<usize>
    ensures { result ≡ position (λ row. nat_lt burst row.declared) rows.now }
{
    rows.iter().position(|row| row.declared > burst)
}

/// The trace with its requests at these least moments, by moment and, where moments are the same, by their order
/// before. Its tenants and kinds stay.
pub fn shape(alloc: Global, trace: &Trace, rate: u64, burst: u64) -> Result<Trace, ShapeFault>
    requires lawful { IsLawfulTrace trace.now }
    requires rate { IsWithin 1 GREATEST_RATE rate }
    requires burst { IsWithin 1 GREATEST_BURST burst }
    ensures shaped { IfOk result (IsShaped trace.now rate burst) }
    ensures lawful { IfOk result IsLawfulTrace }
    ensures fault { IfErr result (IsReason trace.now rate burst) }
{
    let moments = moments(alloc, trace, rate, burst)?;
    Ok(at_moments(alloc, trace, moments.as_slice())?)
}

// The trace with its rows at these moments.
fn at_moments(alloc: Global, trace: &Trace, moments: &[u64]) -> Result<Trace, AllocError>
    ensures { IfOk result (λ t. t ≡ at_moments trace.now moments.now) }
{
    let mut rows = rows_at(alloc, trace.rows(), moments)?;
    rows.sort_by_key(|row| row.moment)?;
    let tenants = copy_of_tenants(alloc, trace.tenants())?;
    let kinds = copy_of_kinds(alloc, trace.kinds())?;
    Ok(Trace::new(tenants, kinds, rows))
}

// The rows at these moments.
fn rows_at(alloc: Global, rows: &[TraceRow], moments: &[u64]) -> Result<Vec<TraceRow>, AllocError>
    ensures { IfOk result (λ v. v.items ≡ rows_at rows.now moments.now) }
{
    rows.iter()
        .zip(moments)
        .map(|(row, moment)| TraceRow {
            moment: *moment,
            ..*row
        })
        .collect(alloc)
}
