//! The tracker that a scheduler keeps beside its journal.
ghost use Rattle.std.specs.Prelude.{◌≡◌, ◌<◌, [], Some, IfOk, length, pos, ◌≤ℤ◌};
ghost use Rattle.std.specs.FinMap as map;
ghost use Rattle.fq_model.specs.declared.event.Act.TheVariants as act;
ghost use Rattle.fq_model.specs.History.{History, request_at};
ghost use Rattle.fq_model.specs.Foresee.{IsForeseenRun};
ghost use Rattle.fq_model.specs.Time.{last_moment, effective_moment};
ghost use Rattle.fq_model.specs.Keys.{keys_at, start};
ghost use Rattle.fq_model.specs.Rules.{label_of};
ghost use Rattle.charge_book.specs.Book.{MayUse};
ghost use Rattle.virtual_clock.specs.Histories.{TimesAre};
ghost use Rattle.sched_journal.specs.Journal.{history, MayGain};
ghost use Rattle.sched_state.specs.Lists.{jobs_in};
ghost use Rattle.sched_state.specs.Refusals.{GetsWork};
ghost use Rattle.sched_state.specs.Costs.{CostsAre};
ghost use Rattle.sched_state.specs.Keys.{ChooserIs};
ghost use Rattle.sched_state.specs.Tracker.{Mirrors, Tracks, TracksBut, TracksSomeBut, TracksAfter, submit_act, MayBegin, Begins, raised_first};

use charge_book::book::Book;
use charge_book::row::RunRow;
use cost_estimate::any::AnyCost;
use cost_estimate::estimate::Estimate;
use fq_model::config::{Checked, Policy};
use fq_model::event::ForeseenRun;
use fq_model::job::Job;
use fq_model::limits::GREATEST_VIRTUAL_TIME;
use sched_journal::Ledger;
use std::alloc::{AllocError, Global};
use tag_rules::accounts::Accounts;
use tag_rules::chooser::Chooser;
use tag_rules::foresees::Foresees;
use tag_rules::head_keys::Keys;
use tag_rules::keys::keys;
use virtual_clock::times::Times;
use waiting_lists::item::Item;
use waiting_lists::lists::Lists;

/// The waiting requests and their jobs, the running requests and their charges, the estimator, virtual time, and a
/// chooser with the keys of every tenant's head: at each call as the definitions say of the history, so that nothing
/// looks back at its entries. Each call gets the journal as it is before the call's entry, and each entry has a call
/// of its own: nothing else changes the tracker.
#[derive(Drop)]
pub struct Tracker<J, X> {
    lists: Lists<J>,
    book: Book,
    accounts: Accounts,
    costs: AnyCost,
    times: Times,
    chooser: X,
}

impl<J: Job + Drop, X: Chooser> Tracker<J, X> {
    /// The tracker of a history without entries. All its memory is taken here.
    pub fn open(alloc: Global, config: &Checked) -> Result<Tracker<J, X>, AllocError>
        ensures tracked { IfOk result (Tracks J.label_of X.seen config.now []) }
        ensures jobs { IfOk result (λ k. jobs_in k.lists.lists ≡ map.empty) }
    {
        let lists = Lists::open(alloc, config.tenants(), config.requests())?;
        let book = Book::open(alloc, config)?;
        let accounts = Accounts::open(alloc, config.tenants())?;
        let (costs, times, chooser) = open_measures(alloc, config)?;
        Ok(Tracker {
            lists,
            book,
            accounts,
            costs,
            times,
            chooser,
        })
    }

    /// The waiting requests.
    pub fn lists(&self) -> &Lists<J>
        ensures { result.now ≡ self.now.lists }
    {
        &self.lists
    }

    /// The running requests, and their charges.
    pub fn book(&self) -> &Book
        ensures { result.now ≡ self.now.book }
    {
        &self.book
    }

    /// Virtual time, and the number of workers now.
    pub fn times(&self) -> &Times
        ensures { result.now ≡ self.now.times }
    {
        &self.times
    }

    /// A request of this tenant comes at this moment, in microseconds.
    pub fn submit(&mut self, journal: &Ledger, moment: u64, tenant: u32, item: Item<J>)
        requires tracked { Tracks J.label_of X.seen journal.now.config (history journal.now) self.old }
        requires legal { MayGain journal.now moment (submit_act J.label_of tenant item) }
        ensures tracked { TracksAfter J.label_of X.seen journal.now moment (submit_act J.label_of tenant item)
            self.new }
        ensures jobs { jobs_in self.new.lists.lists
            ≡ map.insert (jobs_in self.old.lists.lists) item.request item.job }
    {
        self.times.submit(moment, tenant);
        raise_first(&mut self.accounts, &self.lists, tenant, self.times.now());
        self.lists.push(tenant, item).unwrap();
        self.renew(journal.config(), tenant);
    }

    /// A worker that runs nothing takes the chosen request at this moment, in microseconds. Gives the item that waited,
    /// and the estimate that is charged.
    pub fn take(&mut self, journal: &Ledger, moment: u64, worker: u32) -> (Item<J>, u64)
        requires tracked { Tracks J.label_of X.seen journal.now.config (history journal.now) self.old }
        requires may { MayBegin journal.now moment worker }
        ensures { Begins J.label_of X.seen journal.now moment worker self.old result.0 result.1 self.new }
    {
        self.times.come_to(moment);
        let tenant = self.chooser.choose(worker, self.times.now()).unwrap();
        let item = self.lists.pop(tenant).unwrap();
        let estimate = self.costs.now(tenant, item.kind, item.declared);
        let weight = self.times.weight(tenant);
        let change = self
            .book
            .begin(worker, item.request, tenant, item.kind, weight, estimate);
        let start = self.accounts.tag(tenant);
        self.times
            .take(journal.config().policy(), worker, start, change);
        self.accounts.charge(tenant, change);
        self.renew(journal.config(), tenant);
        (item, estimate)
    }

    /// The worker's request, which has this row, has come to this use at this moment, both in microseconds.
    pub fn report(&mut self, journal: &Ledger, moment: u64, worker: u32, row: RunRow, used: u64)
        requires tracked { Tracks J.label_of X.seen journal.now.config (history journal.now) self.old }
        requires legal { MayGain journal.now moment (act.Report worker row.request used) }
        requires row { MayUse self.old.book worker row used }
        ensures tracked { TracksAfter J.label_of X.seen journal.now moment (act.Report worker row.request used)
            self.new }
        ensures lists { self.new.lists ≡ self.old.lists }
    {
        let change = self.book.record_use(worker, row, used);
        self.accounts.charge(row.tenant, change);
        self.times.pass(moment);
        self.renew(journal.config(), row.tenant);
    }

    /// The worker's request, which has this row, has ended at this moment at this cost, both in microseconds.
    pub fn done(&mut self, journal: &Ledger, moment: u64, worker: u32, row: RunRow, cost: u64)
        requires tracked { Tracks J.label_of X.seen journal.now.config (history journal.now) self.old }
        requires legal { MayGain journal.now moment (act.Done worker row.request cost) }
        requires row { MayUse self.old.book worker row cost }
        ensures tracked { TracksAfter J.label_of X.seen journal.now moment (act.Done worker row.request cost)
            self.new }
        ensures lists { self.new.lists ≡ self.old.lists }
    {
        let correction = self.book.record_cost(worker, row, cost);
        self.accounts.charge(row.tenant, correction);
        self.costs.learn(row.tenant, row.kind, cost);
        let start = self.accounts.tag(row.tenant); // after the correction
        let policy = journal.config().policy();
        self.times.end(policy, moment, row.tenant, start);
        self.renew(journal.config(), row.tenant);
    }

    /// Nothing more is submitted from this moment on, in microseconds.
    pub fn close(&mut self, journal: &Ledger, moment: u64)
        requires tracked { Tracks J.label_of X.seen journal.now.config (history journal.now) self.old }
        requires legal { MayGain journal.now moment act.Close }
        ensures tracked { TracksAfter J.label_of X.seen journal.now moment act.Close self.new }
        ensures lists { self.new.lists ≡ self.old.lists }
    {
        self.times.pass(moment);
    }

    /// The tenant has this weight from this moment on, in microseconds.
    pub fn reweigh(&mut self, journal: &Ledger, moment: u64, tenant: u32, weight: u32)
        requires tracked { Tracks J.label_of X.seen journal.now.config (history journal.now) self.old }
        requires legal { MayGain journal.now moment (act.Weight tenant weight) }
        ensures tracked { TracksAfter J.label_of X.seen journal.now moment (act.Weight tenant weight) self.new }
        ensures lists { self.new.lists ≡ self.old.lists }
    {
        self.times.reweigh(moment, tenant, weight);
        self.renew(journal.config(), tenant);
    }

    /// There are `count` workers from this moment on, in microseconds.
    pub fn staff(&mut self, journal: &Ledger, moment: u64, count: u32)
        requires tracked { Tracks J.label_of X.seen journal.now.config (history journal.now) self.old }
        requires legal { MayGain journal.now moment (act.Workers count) }
        ensures tracked { TracksAfter J.label_of X.seen journal.now moment (act.Workers count) self.new }
        ensures lists { self.new.lists ≡ self.old.lists }
    {
        self.times.staff(moment, count);
        self.chooser.resize(count);
    }

    /// A request that waits is withdrawn at this moment, in microseconds. Gives its job.
    pub fn withdraw(&mut self, journal: &Ledger, moment: u64, request: u32) -> J
        requires tracked { Tracks J.label_of X.seen journal.now.config (history journal.now) self.old }
        requires legal { MayGain journal.now moment (act.Withdraw request) }
        ensures tracked { TracksAfter J.label_of X.seen journal.now moment (act.Withdraw request) self.new }
        ensures job { map.get (jobs_in self.old.lists.lists) request ≡ Some result }
        ensures label { label_of (request_at (history journal.now) request) ≡ J.label_of result }
        ensures jobs { jobs_in self.new.lists.lists ≡ map.remove (jobs_in self.old.lists.lists) request }
    {
        let (tenant, item) = self.lists.remove(request).unwrap();
        let start = self.accounts.tag(tenant);
        let policy = journal.config().policy();
        self.times.end(policy, moment, tenant, start);
        self.renew(journal.config(), tenant);
        item.job
    }

    // Gives the chooser the keys of the tenant's head, which alone may be another.
    fn renew(&mut self, config: &Checked, tenant: u32)
        requires { TracksSomeBut J.label_of X.seen tenant config.now self.old }
        ensures tracked { (P : History) → TracksBut J.label_of X.seen tenant config.now P self.old
            → Tracks J.label_of X.seen config.now P self.new }
        ensures lists { self.new.lists ≡ self.old.lists }
    {
        let keys = self.keys_of(config, tenant);
        self.chooser.set(tenant, keys);
    }

    /// The keys of the tenant's head, if it has one. Those that the chooser has of it are not looked at.
    pub fn keys_of(&self, config: &Checked, tenant: u32) -> Option<Keys>
        requires { TracksSomeBut J.label_of X.seen tenant config.now self.now }
        ensures { (P : History) → Mirrors J.label_of config.now P self.now
            → result ≡ keys_at config.now P (last_moment P) tenant }
    {
        let item = self.lists.head(tenant)?;
        let estimate = self.costs.now(tenant, item.kind, item.declared);
        let start = self.start(config, tenant);
        let weight = self.times.weight(tenant);
        Some(keys(start, estimate, weight, item.request))
    }

    // Where the tenant starts, in steps.
    fn start(&self, config: &Checked, tenant: u32) -> i128
        requires { TracksSomeBut J.label_of X.seen tenant config.now self.now }
        ensures { (P : History) → Mirrors J.label_of config.now P self.now
            → result ≡ pos (start config.now P (last_moment P) tenant) }
    {
        match config.policy() {
            Policy::Msf2q => self.accounts.credit(tenant) + self.times.idle(tenant),
            Policy::Wfq | Policy::Wf2q | Policy::TwoDfq | Policy::TwoDfqPlus => {
                self.accounts.tag(tenant)
            }
        }
    }
}

impl<J: Job + Drop, X: Foresees> Tracker<J, X> {
    /// Foresees a take by the worker at this moment, in microseconds, where it would get work; and whether a head that is
    /// eligible for it then has an estimate below this. Nothing changes.
    pub fn foresee(&self, journal: &Ledger, moment: u64, worker: u32, below: u64) -> ForeseenRun
        requires tracked { Tracks J.label_of X.seen journal.now.config (history journal.now) self.now }
        requires gets { GetsWork journal.now.config (history journal.now) worker }
        ensures { IsForeseenRun journal.now.config (history journal.now)
            (effective_moment (history journal.now) moment) worker below result }
    {
        let v = self.times.at(journal.effective(moment));
        let weights = self.times.weights();
        let choice = self.chooser.foresee(worker, v, below, weights).unwrap();
        let item = self.lists.head(choice.tenant).unwrap();
        let estimate = self.costs.now(choice.tenant, item.kind, item.declared);
        ForeseenRun {
            request: item.request,
            tenant: choice.tenant,
            kind: item.kind,
            estimate,
            is_eligible: choice.is_eligible,
            has_smaller: choice.has_smaller,
        }
    }
}

// Raises the tag of the tenant to this virtual time, in steps, where none of its requests waits.
fn raise_first<J: Job + Drop>(accounts: &mut Accounts, lists: &Lists<J>, tenant: u32, v: i128)
    requires known { tenant < length accounts.old.charges }
    requires listed { tenant < length lists.now.lists }
    requires low { pos 0 ≤ℤ v }
    requires high { v ≤ℤ GREATEST_VIRTUAL_TIME }
    ensures { accounts.new ≡ raised_first lists.now accounts.old tenant v }
{
    if lists.head(tenant).is_none() {
        accounts.raise(tenant, v);
    }
}

// The estimator, virtual time and the chooser of a history without entries.
fn open_measures<X: Chooser>(
    alloc: Global,
    config: &Checked,
) -> Result<(AnyCost, Times, X), AllocError>
    ensures costs { IfOk result (λ r. CostsAre config.now [] r.0) }
    ensures times { IfOk result (λ r. TimesAre config.now [] r.1) }
    ensures chooser { IfOk result (λ r. ChooserIs config.now [] (X.seen r.2)) }
{
    let costs = AnyCost::open(alloc, config)?;
    let times = Times::open(alloc, config)?;
    let chooser = X::open(alloc, config)?;
    Ok((costs, times, chooser))
}
