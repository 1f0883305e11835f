//! `lead`: how far one tenant of a journal got ahead of another, and a bound of that, by the lengths of the requests.
ghost use Rattle.std.specs.Prelude.{◌≡◌, ◌<◌, ◌≢◌, ◌++◌, codes, Some, None, IfOk, IfErr, IfSome, length, string_bytes};
ghost use Rattle.fq_model.specs.Names.{number_among};
ghost use Rattle.program_model.specs.declared.verdict.Verdict.TheVariants.{Legal};
ghost use Rattle.program_model.specs.Answer.{Text};
ghost use Rattle.program_model.specs.CheckCommand.{verdict_status};
ghost use Rattle.program_model.specs.LeadCommand.{lead_text, unknown_answer, same_answer};
ghost use Rattle.program_model.specs.LeadCommand.{lead_answer, IsLeadTold, IsLeadAnswer};
ghost use Rattle.program_model.specs.VerdictTexts.{verdict_text};
ghost use Rattle.tag_difference.specs.Pairs.{told};
ghost use Rattle.tenant_table.specs.Names.{names_of};
ghost use Rattle.lead_texts.specs.Leading.{ArePair, IsLineOf};
ghost use Rattle.command_texts.specs.Making.{Makes, IsStop};

use command_texts::messages::{document_stop, told};
use fitted_chooser::chooser::ProgramChooser;
use journal_check::checking::check;
use journal_check::printing::verdict_text;
use journal_check::{Journal, read_journal};
use program_model::ending::{Output, Stop};
use program_model::name::Name;
use program_model::verdict::Verdict;
use std::alloc::{AllocError, Global};
use tag_difference::gap::Gap;
use tag_lead::fault::LeadFault;
use tag_lead::leads::{Lead, lead_of};
use tenant_table::tenants::Tenants;

/// The answer of `lead` to its input, which is given up before the journal is judged.
pub fn answer(alloc: Global, of: Name, over: Name, input: Vec<u8>) -> Result<Output, Stop>
    ensures { Makes (IsLeadAnswer of over input.items) result }
{
    let journal = read_journal(alloc, input.as_slice());
    drop(input);
    match journal {
        Ok(journal) => {
            let output = judged(alloc, of.as_str(), over.as_str(), &journal);
            drop(journal);
            output
        }
        Err(fault) => Err(document_stop(alloc, "journal", fault)),
    }
}

// The answer to a journal.
fn judged(alloc: Global, of: &str, over: &str, journal: &Journal) -> Result<Output, Stop>
    ensures { Makes (IsLeadTold of.now over.now journal.now) result }
{
    match pair_of(alloc, of, over, journal) {
        Ok((f, g)) => of_pair(alloc, of, over, journal, f, g),
        Err(stop) => match check::<ProgramChooser>(alloc, journal)? {
            Verdict::Legal => Err(stop),
            bad => not_legal(alloc, journal, bad),
        },
    }
}

// The numbers of the two tenants, by their names; or the answer to a legal journal that has no two tenants so named.
fn pair_of(alloc: Global, of: &str, over: &str, journal: &Journal) -> Result<(u32, u32), Stop>
    ensures pair { IfOk result (λ pair. ArePair of.now over.now journal.now pair.0 pair.1) }
    ensures stop { IfErr result (IsStop (λ answer. answer ≡ lead_answer of.now over.now journal.now Legal)) }
{
    let f = number_of(journal.tenants(), of);
    let g = number_of(journal.tenants(), over);
    match (f, g) {
        (None, _) => Err(unknown(alloc, of)),
        (Some(_), None) => Err(unknown(alloc, over)),
        (Some(f), Some(g)) if f == g => Err(same(alloc, of)),
        (Some(f), Some(g)) => Ok((f, g)),
    }
}

// The answer to a journal that has the two tenants.
fn of_pair(
    alloc: Global,
    of: &str,
    over: &str,
    journal: &Journal,
    f: u32,
    g: u32,
) -> Result<Output, Stop>
    requires { ArePair of.now over.now journal.now f g }
    ensures { Makes (IsLeadTold of.now over.now journal.now) result }
{
    match lead_of::<ProgramChooser>(alloc, journal.body(), journal.config(), f, g) {
        Ok(lead) => {
            let text = lead_text(alloc, of, over, lead)?;
            Ok(Output::success(text))
        }
        Err(LeadFault::NotLegal(bad)) => not_legal(alloc, journal, bad),
        Err(LeadFault::NoMemory) => Err(Stop::NoMemory),
    }
}

// The answer to a journal that is not legal, by this verdict.
fn not_legal(alloc: Global, journal: &Journal, verdict: Verdict) -> Result<Output, Stop>
    requires { verdict ≢ Legal }
    ensures { Makes (λ answer. answer ≡ Text (verdict_status verdict) (verdict_text journal.now.body verdict)) result }
{
    let text = verdict_text(alloc, journal.body(), verdict)?;
    Ok(Output { status: 8, text })
}

// The number of the tenant with this name, if there is one.
fn number_of(tenants: &Tenants, name: &str) -> Option<u32>
    ensures value { result ≡ number_among (names_of tenants.now) name.now }
    ensures known { IfSome result (λ t. t < length tenants.now) }
{
    for t in 0..tenants.len() {
        if tenants.name(t) == name {
            return Some(t);
        }
    }
    None
}

// The line of a lead, in steps.
fn lead_text(alloc: Global, of: &str, over: &str, lead: Option<Lead>) -> Result<Vec<u8>, AllocError>
    ensures { IfOk result (λ text. IsLineOf of.now over.now lead text.items) }
{
    match lead {
        Some(Lead { gap, ever: None }) => {
            let line = gap_line(alloc, of, over, gap)?;
            Ok(line.into_bytes())
        }
        Some(
            Lead {
                gap,
                ever: Some(ever),
            },
        ) => {
            let line = ever_line(alloc, of, over, gap, ever)?;
            Ok(line.into_bytes())
        }
        None => {
            let line = apart_line(alloc, of, over)?;
            Ok(line.into_bytes())
        }
    }
}

// Where the two waited together.
fn gap_line(alloc: Global, of: &str, over: &str, gap: Gap) -> Result<String, AllocError>
    ensures { IfOk result (λ line. string_bytes line ≡ lead_text of.now over.now None (Some (told gap))) }
{
    let Gap { largest, bound } = gap;
    format!(in alloc; "lead of {of} over {over} largest {largest} bound {bound}\n")
}

// Where the policy has a bound for any past, too.
fn ever_line(
    alloc: Global,
    of: &str,
    over: &str,
    gap: Gap,
    ever: i128,
) -> Result<String, AllocError>
    ensures { IfOk result (λ line. string_bytes line ≡ lead_text of.now over.now (Some ever) (Some (told gap))) }
{
    let Gap { largest, bound } = gap;
    format!(in alloc; "lead of {of} over {over} largest {largest} bound {bound} ever {ever}\n")
}

// Where they never did.
fn apart_line(alloc: Global, of: &str, over: &str) -> Result<String, AllocError>
    ensures { IfOk result (λ line. string_bytes line ≡ lead_text of.now over.now None None) }
{
    format!(in alloc; "{of} and {over} never waited together\n")
}

// Of a name that no tenant of the journal has, a message that says so.
fn unknown(alloc: Global, name: &str) -> Stop
    ensures { IsStop (λ answer. answer ≡ unknown_answer name.now) result }
{
    told(alloc, 7, unknown_text(alloc, name))
}

fn unknown_text(alloc: Global, name: &str) -> Result<String, AllocError>
    ensures { IfOk result (λ text. string_bytes text ≡ codes "the journal has no tenant " ++ name.now) }
{
    let text = format!(in alloc; "the journal has no tenant {name}")?;
    Ok(text)
}

// Of one name given for both, a message that says so.
fn same(alloc: Global, name: &str) -> Stop
    ensures { IsStop (λ answer. answer ≡ same_answer name.now) result }
{
    told(alloc, 7, same_text(alloc, name))
}

fn same_text(alloc: Global, name: &str) -> Result<String, AllocError>
    ensures { IfOk result (λ text. string_bytes text ≡ codes "--of and --over are both " ++ name.now) }
{
    let text = format!(in alloc; "--of and --over are both {name}")?;
    Ok(text)
}
