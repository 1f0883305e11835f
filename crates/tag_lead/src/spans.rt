//! The lengths of the requests of two tenants, by their charges.
ghost use Rattle.std.specs.Prelude.{◌≡◌, ◌<◌, ◌≤◌, IfOk, IfSome, length, replicate};
ghost use Rattle.vt_fixed.specs.Rounding.{length_of};
ghost use Rattle.tag_lead.specs.Spans.{Measurable, CanMeasure, measured_length};
ghost use Rattle.tag_lead.specs.Spans.{measured_by, lesser, longest_with, shortest_with};

use charge_book::row::RunRow;
use fq_model::event::Act;
use fq_model::limits::{GREATEST_COST, GREATEST_WEIGHT};
use std::alloc::{AllocError, Global};
use vt_fixed::length;

/// The greatest length of each request of one tenant and the least length of each request of another, from its Take on,
/// in steps, by the numbers of the requests. 0 at each other request.
#[derive(Drop)]
pub struct Spans {
    pub longest: Vec<u64>,
    pub shortest: Vec<u64>,
}

/// The length of a request by its charge after an entry.
#[derive(Clone, Copy, Debug, PartialEq, Eq)]
pub struct MeasuredLength {
    pub request: u32,
    pub tenant: u32,
    /// In steps.
    pub len: u64,
    /// Whether the entry is its Take.
    pub taken: bool,
}

impl Spans {
    /// For this number of requests, none taken yet. All its memory is taken here.
    pub fn open(alloc: Global, requests: usize) -> Result<Spans, AllocError>
        ensures longest { IfOk result (λ spans. spans.longest.items ≡ replicate requests 0) }
        ensures shortest { IfOk result (λ spans. spans.shortest.items ≡ replicate requests 0) }
    {
        Ok(Spans {
            longest: vec![in alloc; 0; requests]?,
            shortest: vec![in alloc; 0; requests]?,
        })
    }

    /// With the length that an entry measures: the greatest counts of tenant f, and the least of tenant g.
    pub fn note(&mut self, f: u32, g: u32, measured: Option<MeasuredLength>)
        requires longest { IfSome measured (λ x. x.request < length self.old.longest.items) }
        requires shortest { IfSome measured (λ x. x.request < length self.old.shortest.items) }
        ensures longest { self.new.longest.items ≡ longest_with self.old.longest.items f measured }
        ensures shortest { self.new.shortest.items ≡ shortest_with self.old.shortest.items g measured }
    {
        raise(&mut self.longest, f, measured);
        lower(&mut self.shortest, g, measured);
    }
}

// With the greater of the length so far and this one, for a request of the tenant.
fn raise(longest: &mut Vec<u64>, tenant: u32, measured: Option<MeasuredLength>)
    requires { IfSome measured (λ x. x.request < length longest.old.items) }
    ensures { longest.new.items ≡ longest_with longest.old.items tenant measured }
{
    match measured {
        Some(measured) if measured.tenant == tenant => {
            let before = longest[measured.request as usize];
            longest[measured.request as usize] = before.max(measured.len);
        }
        _ => {}
    }
}

// With the lesser of the length so far and this one, for a request of the tenant; with this one at its Take.
fn lower(shortest: &mut Vec<u64>, tenant: u32, measured: Option<MeasuredLength>)
    requires { IfSome measured (λ x. x.request < length shortest.old.items) }
    ensures { shortest.new.items ≡ shortest_with shortest.old.items tenant measured }
{
    match measured {
        Some(measured) if measured.tenant == tenant => {
            let before = shortest[measured.request as usize];
            shortest[measured.request as usize] = lesser(measured, before);
        }
        _ => {}
    }
}

// The length at a Take, and later the lesser of this length and the one before.
fn lesser(measured: MeasuredLength, before: u64) -> u64
    ensures { result ≡ lesser measured before }
{
    if measured.taken {
        measured.len
    } else {
        before.min(measured.len)
    }
}

/// The length of the request that an act takes, reports or ends, by the rows of its worker before the act and after it.
pub fn measured_by(
    act: Act,
    before: Option<RunRow>,
    after: Option<RunRow>,
) -> Option<MeasuredLength>
    requires { CanMeasure act before after }
    ensures { result ≡ measured_by act before after }
{
    match (act, before, after) {
        (Act::Take { .. }, _, Some(row)) => Some(measured_length(row, row.charge(), true)),
        (Act::Report { .. }, _, Some(row)) => Some(measured_length(row, row.charge(), false)),
        (Act::Done { cost, .. }, Some(row), _) => Some(measured_length(row, cost, false)),
        _ => None,
    }
}

// The length of the row's request at this charge, in microseconds.
fn measured_length(row: RunRow, charge: u64, taken: bool) -> MeasuredLength
    requires { Measurable row charge }
    ensures { result ≡ measured_length row charge taken }
{
    MeasuredLength {
        request: row.request,
        tenant: row.tenant,
        len: steps(charge, row.weight),
        taken,
    }
}

/// The length of a charge in microseconds, in steps.
pub fn steps(charge: u64, weight: u32) -> u64
    requires charge { charge ≤ GREATEST_COST }
    requires weight_positive { 1 ≤ weight }
    requires weight_in_range { weight ≤ GREATEST_WEIGHT }
    ensures { result ≡ length_of charge weight }
{
    length(charge, weight) as u64
}
