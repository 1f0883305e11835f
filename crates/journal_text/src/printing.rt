//! The printer of journals.
ghost use Rattle.std.specs.Prelude.{◌≡◌, ◌++◌, [], ◌∷◌, codes, string_bytes, IfOk, OnOk, OnErr};
ghost use Rattle.std.specs.Fmt.{decimal};
ghost use Rattle.std.specs.List.{list_any};
ghost use Rattle.fq_model.specs.History.{is_change, is_withdraw};
ghost use Rattle.fq_model.specs.Spelling.{policy_word, estimator_word};
ghost use Rattle.program_model.specs.declared.version.Version.TheVariants.{Third};
ghost use Rattle.program_model.specs.JournalText.{entry_line, entries_text, version_for, header_line};
ghost use Rattle.program_model.specs.JournalText.{tenants_text, kinds_text, head_text, journal_text};
ghost use Rattle.tenant_table.specs.Names.{names_of};
ghost use Rattle.journal_text.specs.Printing.{row_text, top_text, IsKept};

use crate::rows::add_row;
use fq_model::config::Checked;
use fq_model::event::{Act, Entry};
use program_model::version::Version;
use std::alloc::{AllocError, Global};
use tenant_table::kinds::Kinds;
use tenant_table::tenants::Tenants;

/// The journal of a scheduler's entries, in order of time, as a text: its configuration, the names of its tenants and
/// kinds by number, and a line for each entry.
pub fn print(
    alloc: Global,
    past: &[Entry],
    config: &Checked,
    tenants: &Tenants,
    kinds: &Kinds,
) -> Result<Vec<u8>, AllocError>
    ensures { IfOk result (λ text. text.items
        ≡ journal_text config.now (names_of tenants.now) kinds.now past.now) }
{
    let mut text = Vec::new(alloc);
    add_journal(alloc, past, config, tenants, kinds, &mut text)?;
    Ok(text)
}

/// Appends that journal to a text. Where memory runs out, the text stays as it was.
pub fn add_journal(
    alloc: Global,
    past: &[Entry],
    config: &Checked,
    tenants: &Tenants,
    kinds: &Kinds,
    text: &mut Vec<u8>,
) -> Result<(), AllocError>
    ensures added { OnOk result (text.new.items
        ≡ text.old.items ++ journal_text config.now (names_of tenants.now) kinds.now past.now) }
    ensures unchanged { OnErr result (text.new.items ≡ text.old.items) }
{
    let start = text.len();
    if add_lines(alloc, past, config, tenants, kinds, text).is_err() {
        text.truncate(start);
        return Err(AllocError);
    }
    Ok(())
}

// Appends its lines. Where memory runs out, the text is kept, perhaps with a part of the journal after it.
#[tactic(auto, unfolding(program_model::specs::JournalText::journal_text))]
fn add_lines(
    alloc: Global,
    past: &[Entry],
    config: &Checked,
    tenants: &Tenants,
    kinds: &Kinds,
    text: &mut Vec<u8>,
) -> Result<(), AllocError>
    ensures added { OnOk result (text.new.items
        ≡ text.old.items ++ journal_text config.now (names_of tenants.now) kinds.now past.now) }
    ensures kept { IsKept text.old.items text.new.items }
{
    add_top(alloc, version_for(past), config, tenants, kinds, text)?;
    add_entries(past, text)
}

/// Begins a journal that is written while its scheduler runs: appends its first line and its head; `entry_line` then
/// appends each entry. The journal is of the version that allows any entry. Where memory runs out, the text stays as it
/// was.
pub fn begin_journal(
    alloc: Global,
    config: &Checked,
    tenants: &Tenants,
    kinds: &Kinds,
    text: &mut Vec<u8>,
) -> Result<(), AllocError>
    ensures added { OnOk result (text.new.items
        ≡ text.old.items ++ top_text Third config.now (names_of tenants.now) kinds.now) }
    ensures unchanged { OnErr result (text.new.items ≡ text.old.items) }
{
    let before = text.len();
    if add_top(alloc, Version::Third, config, tenants, kinds, text).is_err() {
        text.truncate(before);
        return Err(AllocError);
    }
    Ok(())
}

// Appends the first line and the head.
fn add_top(
    alloc: Global,
    version: Version,
    config: &Checked,
    tenants: &Tenants,
    kinds: &Kinds,
    text: &mut Vec<u8>,
) -> Result<(), AllocError>
    ensures added { OnOk result (text.new.items
        ≡ text.old.items ++ top_text version config.now (names_of tenants.now) kinds.now) }
    ensures kept { IsKept text.old.items text.new.items }
{
    text.extend_from_slice(header(version).as_bytes())?;
    add_head(alloc, config, tenants, kinds, text)
}

fn header(version: Version) -> &'static str
    ensures { result.now ≡ header_line version }
{
    match version {
        Version::First => "journal 1\n",
        Version::Second => "journal 2\n",
        Version::Third => "journal 3\n",
    }
}

fn version_for(past: &[Entry]) -> Version
    ensures { result ≡ version_for past.now }
{
    if has_withdraw(past) {
        Version::Third
    } else if has_change(past) {
        Version::Second
    } else {
        Version::First
    }
}

fn has_withdraw(past: &[Entry]) -> bool
    ensures { result ≡ list_any (λ e. is_withdraw e.act) past.now }
{
    past.iter().any(|entry| is_withdraw(entry.act))
}

fn is_withdraw(act: Act) -> bool
    ensures { result ≡ is_withdraw act }
{
    matches!(act, Act::Withdraw { .. })
}

fn has_change(past: &[Entry]) -> bool
    ensures { result ≡ list_any (λ e. is_change e.act) past.now }
{
    past.iter().any(|entry| is_change(entry.act))
}

// Whether it changes a weight or the number of workers, or withdraws a request.
fn is_change(act: Act) -> bool
    ensures { result ≡ is_change act }
{
    matches!(
        act,
        Act::Weight { .. } | Act::Workers { .. } | Act::Withdraw { .. }
    )
}

// Appends the lines between the first and the entries. Where memory runs out, the text is kept, as in `add_lines`.
fn add_head(
    alloc: Global,
    config: &Checked,
    tenants: &Tenants,
    kinds: &Kinds,
    text: &mut Vec<u8>,
) -> Result<(), AllocError>
    ensures added { OnOk result (text.new.items
        ≡ text.old.items ++ head_text config.now (names_of tenants.now) kinds.now) }
    ensures kept { IsKept text.old.items text.new.items }
{
    let settings = settings_start(alloc, config)?;
    let numbers = [
        config.initial(),
        config.entries() as u64,
        config.requests() as u64,
    ];
    add_row(settings.as_str(), &numbers, text)?;
    add_tenants(config, tenants, text)?;
    add_kinds(kinds, text)
}

// The config line, up to its policy and estimator.
fn settings_start(alloc: Global, config: &Checked) -> Result<String, AllocError>
    ensures { IfOk result (λ line. string_bytes line ≡ codes "config " ++ decimal config.now.workers ++ codes " "
        ++ policy_word config.now.policy ++ codes " " ++ estimator_word config.now.estimate) }
{
    let workers = config.workers();
    let policy = config.policy();
    let estimate = config.estimate();
    let line = format!(in alloc; "config {workers} {policy} {estimate}")?;
    Ok(line)
}

// Appends a line for each tenant that has a weight.
fn add_tenants(config: &Checked, tenants: &Tenants, text: &mut Vec<u8>) -> Result<(), AllocError>
    ensures added { OnOk result (text.new.items
        ≡ text.old.items ++ tenants_text (names_of tenants.now) config.now.weights) }
    ensures kept { IsKept text.old.items text.new.items }
{
    for t in 0..tenants.len().min(config.tenants()) {
        text.extend_from_slice(b"tenant ")?;
        add_row(tenants.name(t), &[config.weight(t) as u64], text)?;
    }
    Ok(())
}

// Appends a line for each kind.
fn add_kinds(kinds: &Kinds, text: &mut Vec<u8>) -> Result<(), AllocError>
    ensures added { OnOk result (text.new.items ≡ text.old.items ++ kinds_text kinds.now) }
    ensures kept { IsKept text.old.items text.new.items }
{
    for k in 0..kinds.len() {
        text.extend_from_slice(b"kind ")?;
        add_row(kinds.name(k), &[], text)?;
    }
    Ok(())
}

// The room that is reserved for an entry's line, in bytes: more than most lines take. Unused room is never touched.
const ROOM: usize = 48;

// Appends a line for each entry. Room for all is taken at once, so that a long text need not be moved as it grows.
fn add_entries(past: &[Entry], text: &mut Vec<u8>) -> Result<(), AllocError>
    ensures added { OnOk result (text.new.items ≡ text.old.items ++ entries_text past.now) }
    ensures kept { IsKept text.old.items text.new.items }
{
    text.reserve(past.len().saturating_mul(ROOM))?;
    for entry in past {
        entry_line(*entry, text)?;
    }
    Ok(())
}

/// Appends an entry's line. Where memory runs out, `out` stays as it was.
pub fn entry_line(entry: Entry, out: &mut Vec<u8>) -> Result<(), AllocError>
    ensures added { OnOk result (out.new.items ≡ out.old.items ++ entry_line entry) }
    ensures unchanged { OnErr result (out.new.items ≡ out.old.items) }
{
    let who = entry.who as u64;
    let moment = entry.moment;
    match entry.act {
        Act::Submit {
            request,
            tenant,
            kind,
            declared,
            label,
        } => {
            let (request, tenant, kind) = (request as u64, tenant as u64, kind as u64);
            let numbers = [who, moment, request, tenant, kind, declared, label];
            add_row("submit", &numbers, out)
        }
        Act::Take {
            worker,
            request,
            estimate,
        } => add_work("take", entry, worker, request, estimate, out),
        Act::Report {
            worker,
            request,
            used,
        } => add_work("report", entry, worker, request, used, out),
        Act::Done {
            worker,
            request,
            cost,
        } => add_work("done", entry, worker, request, cost, out),
        Act::Close => add_row("close", &[who, moment], out),
        Act::Weight { tenant, weight } => {
            add_row("weight", &[who, moment, tenant as u64, weight as u64], out)
        }
        Act::Workers { count } => add_row("workers", &[who, moment, count as u64], out),
        Act::Withdraw { request } => add_row("withdraw", &[who, moment, request as u64], out),
    }
}

// Appends the line of an entry about a worker, its request, and a number of microseconds.
fn add_work(
    word: &str,
    entry: Entry,
    worker: u32,
    request: u32,
    number: u64,
    out: &mut Vec<u8>,
) -> Result<(), AllocError>
    ensures added { OnOk result (out.new.items ≡ out.old.items
        ++ row_text word.now (entry.who ∷ entry.moment ∷ worker ∷ request ∷ number ∷ [])) }
    ensures unchanged { OnErr result (out.new.items ≡ out.old.items) }
{
    let (worker, request) = (worker as u64, request as u64);
    add_row(
        word,
        &[entry.who as u64, entry.moment, worker, request, number],
        out,
    )
}
