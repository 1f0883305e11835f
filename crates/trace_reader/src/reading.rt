//! The reader of traces.
ghost use Rattle.std.specs.Prelude.{◌≡◌, ◌+◌, IsTrue, true, Ok, IfOk, IfErr, OnOk};
ghost use Rattle.std.specs.List.{list_all};
ghost use Rattle.std.specs.Str.{is_utf8};
ghost use Rattle.csv.specs.Reading.{Ready, reader_trim, took_first};
ghost use Rattle.csv.specs.Records.{fields_of};
ghost use Rattle.csv.specs.declared.reader.Trim.TheVariants as trims;
ghost use Rattle.fq_model.specs.Spelling.{is_name};
ghost use Rattle.program_model.specs.Trace.{with_row};
ghost use Rattle.program_model.specs.TraceGrammar.{no_records, not_too_many, with_tenant, with_request, with_record};
ghost use Rattle.program_model.specs.TraceGrammar.{at_end, trace_of};
ghost use Rattle.program_model.specs.TraceText.{IsLawfulTrace};
ghost use Rattle.trace_reader.specs.Reading.{Gives, IsFirstFault, IsReadBy, are_too_many};
ghost use Rattle.trace_reader.specs.declared.fault.TraceFault.TheVariants as faults;

use crate::draft::Draft;
use crate::fault::{RecordError, TraceFault};
use crate::fields::{
    begins_with, expect_count, moment_at, name_at, new_name_at, ranged_at, small_at, tenant_at,
    texts,
};
use crate::trace::Trace;
use csv::{ByteRecord, Reader, ReaderBuilder, StringRecord};
use fq_model::limits::{
    GREATEST_COST, GREATEST_SUBMITTER, MOST_KINDS, MOST_ROWS, TEXT_PAIRS, TEXT_TENANTS, TEXT_WEIGHT,
};
use program_model::fault::TraceKind;
use program_model::trace::TraceRow;
use std::alloc::Global;

fn are_too_many(tenants: u32, kinds: u32, rows: usize) -> bool
    ensures { result ≡ are_too_many tenants kinds rows }
{
    tenants > TEXT_TENANTS
        || kinds > MOST_KINDS
        || rows > MOST_ROWS as usize
        || tenants as u64 * kinds as u64 > TEXT_PAIRS
}

#[tactic(auto, unfolding(program_model::specs::TraceGrammar::with_tenant))]
fn add_tenant(draft: &mut Draft, fields: &StringRecord) -> Result<(), RecordError>
    ensures { Gives (λ _. draft.new) result (with_tenant draft.old (fields_of fields.now)) }
{
    expect_count(fields, 3)?;
    let name = new_name_at(&draft.tenants, fields, 1)?;
    let weight = small_at(fields, 2, 1, TEXT_WEIGHT)?;
    if are_too_many(draft.tenants.len() + 1, draft.kinds.len(), draft.rows.len()) {
        return Err(RecordError::Fault(TraceKind::TooMany));
    }
    draft.tenants.add_new(name, weight)?;
    Ok(())
}

#[tactic(auto, unfolding(program_model::specs::TraceGrammar::with_request))]
fn add_request(draft: &mut Draft, fields: &StringRecord) -> Result<(), RecordError>
    ensures { Gives (λ _. draft.new) result (with_request draft.old (fields_of fields.now)) }
{
    expect_count(fields, 7)?;
    let moment = moment_at(draft.rows.as_slice(), fields, 1)?;
    let submitter = small_at(fields, 2, 0, GREATEST_SUBMITTER)?;
    let tenant = tenant_at(&draft.tenants, fields, 3)?;
    let name = name_at(fields, 4)?;
    let declared = ranged_at(fields, 5, 1, GREATEST_COST)?;
    let cost = ranged_at(fields, 6, 1, GREATEST_COST)?;
    add_row(draft, moment, submitter, tenant, name, declared, cost)
}

// Adds a request whose fields are read, and its kind where it is new.
fn add_row(
    draft: &mut Draft,
    moment: u64,
    submitter: u32,
    tenant: u32,
    name: &str,
    declared: u64,
    cost: u64,
) -> Result<(), RecordError>
    requires { IsTrue (is_name name.now) }
    ensures { Gives (λ _. draft.new) result
        (not_too_many (with_row draft.old moment submitter tenant name.now declared cost)) }
{
    let found = draft.kinds.find(name);
    let kinds = if found.is_some() {
        draft.kinds.len()
    } else {
        draft.kinds.len() + 1
    };
    if are_too_many(draft.tenants.len(), kinds, draft.rows.len() + 1) {
        return Err(RecordError::Fault(TraceKind::TooMany));
    }
    let kind = match found {
        Some(kind) => kind,
        None => draft.kinds.add_new(name)?,
    };
    draft.rows.push(TraceRow {
        moment,
        submitter,
        tenant,
        kind,
        declared,
        cost,
    })?;
    Ok(())
}

#[tactic(auto, unfolding(program_model::specs::TraceGrammar::with_record))]
fn add_texts(draft: &mut Draft, fields: &StringRecord) -> Result<(), RecordError>
    requires { IsTrue (list_all is_utf8 (fields_of fields.now)) }
    ensures { Gives (λ _. draft.new) result (with_record draft.old (fields_of fields.now)) }
{
    if begins_with(fields, "tenant") {
        add_tenant(draft, fields)
    } else if begins_with(fields, "request") {
        add_request(draft, fields)
    } else {
        Err(RecordError::Fault(TraceKind::Word))
    }
}

// Adds a record, and gives its memory back for the next one.
#[tactic(auto, unfolding(program_model::specs::TraceGrammar::with_record))]
fn add_record(draft: &mut Draft, bytes: ByteRecord) -> Result<ByteRecord, RecordError>
    ensures { Gives (λ _. draft.new) result (with_record draft.old (fields_of bytes)) }
{
    match texts(bytes) {
        Some(fields) => {
            add_texts(draft, &fields)?;
            Ok(fields.into_byte_record())
        }
        None => Err(RecordError::Fault(TraceKind::NotUtf8)),
    }
}

// All records are read: gives the trace a kind where no request names one. `place` is one more than the
// number of records.
fn finish(alloc: Global, draft: Draft, place: u64) -> Result<Trace, TraceFault>
    ensures ok { IfOk result (λ t. at_end place draft ≡ Ok t) }
    ensures fault { IfErr result (λ f. IsFirstFault f (at_end place draft)) }
{
    if draft.tenants.is_empty() {
        drop(draft);
        return Err(TraceFault::At {
            line: place,
            kind: TraceKind::NoTenants,
        });
    }
    Ok(draft.finish(alloc)?)
}

// Adds all records of a text to a draft that has none, and gives a place, one more than their number.
fn add_all(alloc: Global, draft: &mut Draft, bytes: &[u8]) -> Result<u64, TraceFault>
    requires { draft.old ≡ no_records }
    ensures ok { IfOk result (λ place. trace_of bytes.now ≡ at_end place draft.new) }
    ensures fault { IfErr result (λ f. IsFirstFault f (trace_of bytes.now)) }
{
    let mut reader = ReaderBuilder::new()
        .has_headers(false)
        .flexible(true)
        .from_reader(alloc, bytes);
    let mut record = ByteRecord::new(alloc);
    let mut place: u64 = 1;
    'record: while is_read(&mut reader, &mut record)? {
        match add_record(draft, record) {
            Ok(used) => record = used,
            Err(e) => return Err(e.at(place)),
        }
        place += 1;
    }
    Ok(place)
}

// Whether there is one more record, which is then read into this one.
fn is_read(reader: &mut Reader<&[u8]>, row: &mut ByteRecord) -> Result<bool, TraceFault>
    requires ready { Ready reader.old }
    requires untrimmed { reader_trim reader.old ≡ trims.None }
    ensures read { IfOk result (λ found. IsReadBy reader.old reader.new found (fields_of row.new)) }
    ensures first { OnOk result (took_first reader.new ≡ true) }
    ensures fault { IfErr result (λ fault. fault ≡ faults.NoMemory) }
{
    match reader.read_byte_record(row) {
        Ok(found) => Ok(found),
        Err(_) => Err(TraceFault::NoMemory),
    }
}

/// Reads a trace, or names its first fault. An answer that memory ran out says nothing of the text. It is also given
/// for any other fault of `csv`: none can come over bytes in memory, but no clause of `csv` says so.
pub fn read(alloc: Global, bytes: &[u8]) -> Result<Trace, TraceFault>
    ensures ok { IfOk result (λ t. trace_of bytes.now ≡ Ok t) }
    ensures lawful { IfOk result IsLawfulTrace }
    ensures fault { IfErr result (λ f. IsFirstFault f (trace_of bytes.now)) }
{
    let mut draft = Draft::empty(alloc);
    match add_all(alloc, &mut draft, bytes) {
        Ok(place) => finish(alloc, draft, place),
        Err(fault) => {
            drop(draft);
            Err(fault)
        }
    }
}
