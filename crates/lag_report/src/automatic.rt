//! The automatic slot.
ghost use Rattle.std.specs.Prelude.{◌≡◌, ◌≤◌, ◌+◌, ◌*◌, ◌/◌, nat_le};
ghost use Rattle.fq_model.specs.History.{history_of};
ghost use Rattle.fq_model.specs.Time.{last_moment};
ghost use Rattle.fq_model.specs.Rules.{IsLegal};
ghost use Rattle.fq_model.specs.Report.{auto_slot};
ghost use Rattle.lag_report.specs.Reports.{Serves};

use fq_model::config::Checked;
use fq_model::event::Entry;
use fq_model::limits::MOST_CELLS;

/// The least of the slots of 1000 microseconds, 2000, 4000 and so on with which a report of the history has no more
/// cells than it may. Takes no memory.
pub fn auto_slot(past: &[Entry], config: &Checked) -> u64
    ensures value { result ≡ auto_slot config.now (history_of past.now) }
    ensures serves { IsLegal config.now (history_of past.now) → Serves config.now (history_of past.now) result }
{
    let end = last_moment(past);
    let tenants = config.tenants();
    let mut slot = 1000;
    for doublings in 0..41u64 {
        if are_few(end, slot, tenants) {
            return slot;
        }
        slot *= 2;
    }
    1000
}

/// The moment of the last entry, in microseconds, or 0.
pub fn last_moment(past: &[Entry]) -> u64
    ensures { result ≡ last_moment (history_of past.now) }
{
    match past.last() {
        Some(entry) => entry.moment,
        None => 0,
    }
}

/// Whether a report for this number of tenants has no more cells than it may, where its last slot holds the moment
/// `end`.
pub fn are_few(end: u64, slot: u64, tenants: u32) -> bool
    requires { 1 ≤ slot }
    ensures { result ≡ nat_le ((end / slot + 1) * tenants) MOST_CELLS }
{
    let slots = end as u128 / slot as u128 + 1;
    slots * tenants as u128 <= MOST_CELLS as u128
}
