//! The values of single fields. The first field is field 0; faults count from 1.
ghost use Rattle.std.specs.Prelude.{◌≡◌, ◌<◌, ◌≤◌, IsTrue, length, None, is_some, IfOk, IfSome};
ghost use Rattle.std.specs.List.{list_all};
ghost use Rattle.std.specs.Str.{is_utf8};
ghost use Rattle.csv.specs.Records.{fields_of};
ghost use Rattle.fq_model.specs.Names.{number_among};
ghost use Rattle.fq_model.specs.Spelling.{is_name};
ghost use Rattle.program_model.specs.Reading.{begins_with};
ghost use Rattle.program_model.specs.Trace.{last_row_moment};
ghost use Rattle.program_model.specs.TraceGrammar.{field, with_count, number_at, ranged_at, moment_at, name_at, new_name_at, tenant_at};
ghost use Rattle.tenant_table.specs.Names.{names_of};
ghost use Rattle.trace_reader.specs.Reading.{Gives};

use crate::fault::RecordError;
use csv::{ByteRecord, StringRecord};
use fq_model::limits::GREATEST_TRACE_MOMENT;
use fq_model::names::is_name;
use program_model::fault::TraceKind;
use program_model::numbers::number;
use program_model::trace::TraceRow;
use tenant_table::tenants_builder::TenantsBuilder;

/// A record whose fields are all texts.
pub fn texts(bytes: ByteRecord) -> Option<StringRecord>
    ensures all { is_some result ≡ list_all is_utf8 (fields_of bytes) }
    ensures same { IfSome result (λ fields. fields_of fields ≡ fields_of bytes) }
{
    match StringRecord::from_byte_record(bytes) {
        Ok(fields) => Some(fields),
        Err(_) => None,
    }
}

/// Whether a record's first field is this.
pub fn begins_with(fields: &StringRecord, first: &str) -> bool
    ensures { result ≡ begins_with (fields_of fields.now) first.now }
{
    if fields.is_empty() {
        return first.is_empty();
    }
    field(fields, 0) == first
}

/// That there are this many fields.
pub fn expect_count(fields: &StringRecord, count: usize) -> Result<(), RecordError>
    ensures { Gives (λ _. fields_of fields.now) result (with_count count (fields_of fields.now)) }
{
    if fields.len() != count {
        return Err(RecordError::Fault(TraceKind::Fields(fields.len() as u64)));
    }
    Ok(())
}

// The text of a field.
fn field(fields: &StringRecord, k: u32) -> &str
    requires { k < length (fields_of fields.now) }
    ensures { result.now ≡ field (fields_of fields.now) k }
{
    fields.get(k as usize).unwrap()
}

/// A number.
#[tactic(auto, unfolding(program_model::specs::TraceGrammar::number_at))]
pub fn number_at(fields: &StringRecord, k: u32) -> Result<u64, RecordError>
    requires there { k < length (fields_of fields.now) }
    requires small { k < 7 }
    ensures { Gives (λ n. n) result (number_at (fields_of fields.now) k) }
{
    number(field(fields, k).as_bytes()).ok_or(RecordError::Fault(TraceKind::Number(k + 1)))
}

/// A number from `low` to `high`.
#[tactic(auto, unfolding(program_model::specs::TraceGrammar::ranged_at))]
pub fn ranged_at(fields: &StringRecord, k: u32, low: u64, high: u64) -> Result<u64, RecordError>
    requires there { k < length (fields_of fields.now) }
    requires small { k < 7 }
    ensures given { Gives (λ n. n) result (ranged_at (fields_of fields.now) k low high) }
    ensures lower { IfOk result (λ n. low ≤ n) }
    ensures upper { IfOk result (λ n. n ≤ high) }
{
    let n = number_at(fields, k)?;
    if n < low || n > high {
        return Err(RecordError::Fault(TraceKind::Range(k + 1)));
    }
    Ok(n)
}

/// A number from `low` to `high`, which is of 32 bits.
pub fn small_at(fields: &StringRecord, k: u32, low: u32, high: u32) -> Result<u32, RecordError>
    requires there { k < length (fields_of fields.now) }
    requires small { k < 7 }
    ensures given { Gives (λ n. n) result (ranged_at (fields_of fields.now) k low high) }
    ensures lower { IfOk result (λ n. low ≤ n) }
    ensures upper { IfOk result (λ n. n ≤ high) }
{
    let n = ranged_at(fields, k, low as u64, high as u64)?;
    Ok(n as u32)
}

/// A moment that is not before that of the last of these rows.
#[tactic(auto, unfolding(program_model::specs::TraceGrammar::moment_at))]
pub fn moment_at(rows: &[TraceRow], fields: &StringRecord, k: u32) -> Result<u64, RecordError>
    requires there { k < length (fields_of fields.now) }
    requires small { k < 7 }
    ensures { Gives (λ n. n) result (moment_at rows.now (fields_of fields.now) k) }
{
    let moment = ranged_at(fields, k, 0, GREATEST_TRACE_MOMENT)?;
    if moment < last_moment(rows) {
        return Err(RecordError::Fault(TraceKind::Backward));
    }
    Ok(moment)
}

/// The moment of the last of these rows, or 0 where there are none.
pub fn last_moment(rows: &[TraceRow]) -> u64
    ensures { result ≡ last_row_moment rows.now }
{
    match rows.last() {
        Some(row) => row.moment,
        None => 0,
    }
}

/// A name.
#[tactic(auto, unfolding(program_model::specs::TraceGrammar::name_at))]
pub fn name_at(fields: &StringRecord, k: u32) -> Result<&str, RecordError>
    requires { k < length (fields_of fields.now) }
    ensures given { Gives (λ n. n.now) result (name_at (fields_of fields.now) k) }
    ensures spelled { IfOk result (λ n. IsTrue (is_name n.now)) }
{
    let name = field(fields, k);
    if !is_name(name.as_bytes()) {
        return Err(RecordError::Fault(TraceKind::Word));
    }
    Ok(name)
}

/// A name that no tenant has.
#[tactic(auto, unfolding(program_model::specs::TraceGrammar::new_name_at))]
pub fn new_name_at<'a>(
    tenants: &TenantsBuilder,
    fields: &'a StringRecord,
    k: u32,
) -> Result<&'a str, RecordError>
    requires { k < length (fields_of fields.now) }
    ensures given { Gives (λ n. n.now) result (new_name_at (names_of tenants.now) (fields_of fields.now) k) }
    ensures spelled { IfOk result (λ n. IsTrue (is_name n.now)) }
    ensures absent { IfOk result (λ n. number_among (names_of tenants.now) n.now ≡ None) }
{
    let name = name_at(fields, k)?;
    match tenants.find(name) {
        Some(_) => Err(RecordError::Fault(TraceKind::Twice)),
        None => Ok(name),
    }
}

/// The number of the tenant that is named.
#[tactic(auto, unfolding(program_model::specs::TraceGrammar::tenant_at))]
pub fn tenant_at(
    tenants: &TenantsBuilder,
    fields: &StringRecord,
    k: u32,
) -> Result<u32, RecordError>
    requires { k < length (fields_of fields.now) }
    ensures { Gives (λ t. t) result (tenant_at (names_of tenants.now) (fields_of fields.now) k) }
{
    let name = name_at(fields, k)?;
    tenants
        .find(name)
        .ok_or(RecordError::Fault(TraceKind::UnknownTenant))
}
