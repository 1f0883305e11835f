//! Traces of random numbers: of four tenants in turn two have small requests, one a few large ones among small ones,
//! and one large ones. The rule is this program's own, and is taken from no measured load.
ghost use Rattle.std.specs.Prelude.{◌≡◌, ◌<◌, ◌≤◌, IsTrue, [], length, IfOk, OnOk};
ghost use Rattle.program_model.specs.Generator.{generated_tenants, generated_kind, generated_declared, mixed_cost, generated_cost, with_generated, generated_trace};
ghost use Rattle.fq_model.specs.Limits.{IsWithin};
ghost use Rattle.fq_model.specs.Names.{number_by_appearance, with_appearance};
ghost use Rattle.fq_model.specs.Spelling.{is_name};
ghost use Rattle.program_model.specs.TraceText.{IsLawfulTrace};
ghost use Rattle.trace_reader.specs.Generating.{gen_refusal, FaultsOnly, HasRoomForOne};
ghost use Rattle.trace_reader.specs.Reading.{trace_in};

use crate::draft::Draft;
use crate::fault::GenFault;
use crate::fields::last_moment;
use crate::trace::Trace;
use fq_model::limits::{MOST_KINDS, MOST_ROWS, TEXT_TENANTS};
use program_model::trace::TraceRow;
use rand_core::SeedableRng;
use rand_core::utils::NextWord;
use rand_pcg::Lcg64Xsh32;
use std::alloc::{AllocError, Global};
use tenant_table::kinds_builder::KindsBuilder;
use tenant_table::tenants_builder::TenantsBuilder;

/// The trace of a seed, which may be any number: 1 to 4,096 tenants and up to 262,144 requests, three numbers of PCG32
/// (O'Neill, 2014) for each request. Moments, declared numbers and costs are microseconds.
pub fn generate(alloc: Global, seed: u64, tenants: u32, requests: u32) -> Result<Trace, GenFault>
    ensures trace { IfOk result (λ t. t ≡ generated_trace seed tenants requests) }
    ensures lawful { IfOk result IsLawfulTrace }
    ensures fault { FaultsOnly result (gen_refusal tenants requests) }
{
    if tenants < 1 || tenants > TEXT_TENANTS {
        return Err(GenFault::Tenants(tenants));
    }
    if requests > MOST_ROWS {
        return Err(GenFault::Requests(requests));
    }
    Ok(generated(alloc, seed, tenants, requests)?)
}

// The trace of a seed, where the numbers of tenants and of requests are within their limits.
fn generated(alloc: Global, seed: u64, tenants: u32, requests: u32) -> Result<Trace, AllocError>
    requires tenants { IsWithin 1 TEXT_TENANTS tenants }
    requires requests { requests ≤ MOST_ROWS }
    ensures { IfOk result (λ t. t ≡ generated_trace seed tenants requests) }
{
    let tenants = generated_tenants(alloc, tenants)?;
    let mut draft = Draft::new(alloc, tenants);
    let mut numbers = Lcg64Xsh32::seed_from_u64(seed);
    for j in 0..requests {
        let moment = numbers.next_word();
        let tenant = numbers.next_word();
        let cost = numbers.next_word();
        add_request(&mut draft, j, moment, tenant, cost)?;
    }
    draft.finish(alloc)
}

// The tenants, each with the name and the weight of its number.
fn generated_tenants(alloc: Global, count: u32) -> Result<TenantsBuilder, AllocError>
    requires { count ≤ TEXT_TENANTS }
    ensures { IfOk result (λ tenants. trace_in tenants [] [] ≡ generated_tenants count) }
{
    let mut tenants = TenantsBuilder::new(alloc);
    for t in 0..count {
        let name = format!(in alloc; "t{t}")?;
        tenants.add_new(&name, 1 + t % 4)?;
    }
    Ok(tenants)
}

// Adds request `j`, whose moment, tenant and cost three random numbers say.
fn add_request(
    draft: &mut Draft,
    j: u32,
    moment: u32,
    tenant: u32,
    cost: u32,
) -> Result<(), AllocError>
    requires { HasRoomForOne draft.old }
    ensures { OnOk result (draft.new ≡ with_generated (length draft.old.tenants) j draft.old moment tenant cost) }
{
    let tenant = tenant % draft.tenants.len();
    let moment = last_moment(draft.rows.as_slice()) + (moment % 200) as u64;
    let kind = number_of_kind(&mut draft.kinds, kind_of(tenant))?;
    draft.rows.push(TraceRow {
        moment,
        submitter: j % 4,
        tenant,
        kind,
        declared: declared_of(tenant),
        cost: cost_of(tenant, cost),
    })?;
    Ok(())
}

// The number of a kind, which is added where it is new.
fn number_of_kind(kinds: &mut KindsBuilder, name: &str) -> Result<u32, AllocError>
    requires spelled { IsTrue (is_name name.now) }
    requires room { length kinds.old < MOST_KINDS }
    ensures number { IfOk result (λ k. k ≡ number_by_appearance kinds.old name.now) }
    ensures kinds { OnOk result (kinds.new ≡ with_appearance kinds.old name.now) }
{
    match kinds.find(name) {
        Some(kind) => Ok(kind),
        None => kinds.add_new(name),
    }
}

// The kind of a tenant's requests. Of four tenants in turn two get, one sends a mix, and one scans.
fn kind_of(tenant: u32) -> &'static str
    ensures kind { result.now ≡ generated_kind tenant }
    ensures spelled { IsTrue (is_name result.now) }
{
    match tenant % 4 {
        2 => "mix",
        3 => "scan",
        _ => "get",
    }
}

// The declared cost of a tenant's requests.
fn declared_of(tenant: u32) -> u64
    ensures { result ≡ generated_declared tenant }
{
    match tenant % 4 {
        2 => 1000,
        3 => 50000,
        _ => 500,
    }
}

// The cost of a tenant's request, by a random number.
fn cost_of(tenant: u32, number: u32) -> u64
    ensures { result ≡ generated_cost tenant number }
{
    let cost = match tenant % 4 {
        2 => mixed_cost(number),
        3 => 10000 + number % 90000,
        _ => 100 + number % 900,
    };
    cost as u64
}

// The cost of a mixed request, one of ten a large one.
fn mixed_cost(number: u32) -> u32
    ensures { result ≡ mixed_cost number }
{
    if number % 10 == 0 {
        20000 + number / 10 % 30000
    } else {
        200 + number % 1800
    }
}
