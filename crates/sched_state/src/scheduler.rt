//! A scheduler.
ghost use Rattle.std.specs.Prelude.{ℕ, ◌≡◌, ◌<◌, ◌≤◌, [], ◌∷◌, IfOk, IfErr, OnErr, length, pos, ◌≤ℤ◌};
ghost use Rattle.std.specs.FinMap as map;
ghost use Rattle.fq_model.specs.declared.event.Call.TheVariants as call;
ghost use Rattle.fq_model.specs.Foresee.{IsForeseen};
ghost use Rattle.fq_model.specs.History.{history_of, pool_at};
ghost use Rattle.fq_model.specs.Keys.{keys_at};
ghost use Rattle.fq_model.specs.Rules.{IsLegal};
ghost use Rattle.fq_model.specs.Status.{status_of};
ghost use Rattle.fq_model.specs.Time.{effective_moment};
ghost use Rattle.fq_model.specs.Pace.{virtual_time};
ghost use Rattle.charge_book.specs.Histories.{row_of_worker};
ghost use Rattle.sched_journal.specs.Journal.{history, with_entry};
ghost use Rattle.sched_journal.specs.Stores.{with_one};
ghost use Rattle.sched_state.specs.Kept.{IsStored};
ghost use Rattle.sched_state.specs.Lists.{HoldsWaiting};
ghost use Rattle.sched_state.specs.Scheduler.{opened_keeping, virtual_time_now};
ghost use Rattle.sched_state.specs.Replies.{submit_reply, take_reply, change_reply, withdraw_reply, close_reply, AnswersCall, HandsOut, HandsBack};

use crate::refusals;
use crate::replies::{AlreadyClosed, Refused, Taken, foreseen_of};
use crate::tracker::Tracker;
use charge_book::row::RunRow;
use fq_model::config::Checked;
use fq_model::event::{Act, Cause, Entry, Foreseen};
use fq_model::job::Job;
use fq_model::limits::GREATEST_VIRTUAL_TIME;
use fq_model::parts::Status;
use sched_journal::{AllEntries, LastEntries, Ledger, Store};
use std::alloc::{AllocError, Global};
use std::marker::Model;
use tag_rules::chooser::Chooser;
use tag_rules::foresees::Foresees;
use tag_rules::head_keys::Keys;
use waiting_lists::item::Item;

/// One history, from its opening on, and the jobs of the requests that wait in it. Contracts see the entries in
/// order of time, and the jobs by the numbers of their requests; at run time the store `S` keeps the entries, all of
/// them where it is not named. Whoever makes a call names itself by `who`, which is written down and not looked at, and
/// its clock by `moment`, in microseconds. A call that is answered by a refusal, by `Idle`, `Drained` or `Retired`
/// changes nothing; each other call adds one entry. No call looks back at the entries: a tracker keeps their
/// consequences, and `X` chooses among the heads of the tenants.
#[derive(Drop)]
pub struct Scheduler<J: Job, X: Chooser, S: Store = AllEntries> {
    pub(crate) journal: Ledger,
    pub(crate) tracker: Tracker<J, X>,
    pub(crate) store: S,
}

/// A scheduler that keeps the last of its entries, as many as were asked for at its opening.
pub type Recent<J, X> = Scheduler<J, X, LastEntries>;

impl<J: Job, X: Chooser, S: Store> Model for Scheduler<J, X, S> {
    ghost use Rattle.sched_state.specs.Scheduler.{SchedulerView, scheduler_code};
    ghost use Rattle.sched_state.specs.Lists.{jobs_in};
    ghost use Rattle.sched_state.specs.Kept.{KeepsScheduler};

    ghost Value = { SchedulerView J };

    ghost coded = { scheduler_code J.code };

    ghost view = { λ s. record {
      config = s.journal.config;
      past = s.journal.past;
      jobs = jobs_in s.tracker.lists.lists;
      keep = (S.seen s.store).keep;
    } };

    ghost invariant = { λ s. KeepsScheduler J.label_of X.seen s.journal s.tracker (S.seen s.store) };
}

impl<J: Job + Drop, X: Chooser, S: Store + Drop> Scheduler<J, X, S> {
    // Takes all the memory that the scheduler will use beside its store, which has no entry yet.
    pub(crate) fn over(
        alloc: Global,
        config: Checked,
        store: S,
    ) -> Result<Scheduler<J, X, S>, AllocError>
        requires empty { (S.seen store).past ≡ [] }
        requires room { config.entries ≤ (S.seen store).room }
        ensures { IfOk result (λ s. s ≡ opened_keeping (S.seen store).keep config) }
    {
        let journal = Ledger::open(config);
        let tracker = Tracker::open(alloc, journal.config())?;
        Ok(Scheduler {
            journal,
            tracker,
            store,
        })
    }

    /// A request of this tenant and kind comes, with the cost that its submitter names for it, in microseconds.
    /// It gets the next number.
    pub fn submit(
        &mut self,
        who: u32,
        moment: u64,
        tenant: u32,
        kind: u32,
        declared: u64,
        job: J,
    ) -> Result<u32, Refused<J>>
        ensures answers { AnswersCall self.old (call.Submit who moment tenant kind declared (J.label_of job))
            (submit_reply result) self.new }
        ensures jobs { IfOk result (λ r. self.new.jobs ≡ map.insert self.old.jobs r job) }
        ensures job_back { IfErr result (λ f. f.job ≡ job) }
        ensures unchanged { OnErr result (self.new ≡ self.old) }
    {
        let allowed = refusals::submit(&self.journal, &self.tracker, tenant, kind, declared);
        if let Err(cause) = allowed {
            return Err(Refused { job, cause });
        }
        let moment = self.journal.effective(moment);
        let request = self.journal.submits();
        let label = job.label();
        let item = Item {
            request,
            kind,
            declared,
            job,
        };
        self.tracker.submit(&self.journal, moment, tenant, item);
        let act = Act::Submit {
            request,
            tenant,
            kind,
            declared,
            label,
        };
        enter(
            &mut self.journal,
            &mut self.store,
            Entry { who, moment, act },
        );
        Ok(request)
    }

    /// A worker asks for work, and gets the job of the chosen request, if one waits and the worker is below the number
    /// of workers now.
    pub fn take(&mut self, who: u32, moment: u64, worker: u32) -> Taken<J>
        ensures answers { AnswersCall self.old (call.Take who moment worker) (take_reply J.label_of result) self.new }
        ensures jobs { HandsOut self.old result self.new }
    {
        if let Some(told) = refusals::take(&self.journal, &self.tracker, worker) {
            return told;
        }
        let moment = self.journal.effective(moment);
        let (item, estimate) = self.tracker.take(&self.journal, moment, worker);
        let request = item.request;
        let act = Act::Take {
            worker,
            request,
            estimate,
        };
        enter(
            &mut self.journal,
            &mut self.store,
            Entry { who, moment, act },
        );
        Taken::Run {
            request,
            estimate,
            job: item.job,
        }
    }

    /// The worker's request has come to this use, in microseconds, and runs on. Its charge is from now on the greater
    /// of its estimate and its use. Refused, by the first of these that is so: where no worker has this number, where
    /// the worker runs nothing, where the use is above the greatest cost or below the use reported before, and where
    /// the open requests need the entries that are left.
    pub fn report(&mut self, who: u32, moment: u64, worker: u32, used: u64) -> Result<(), Cause>
        ensures answers { AnswersCall self.old (call.Report who moment worker used) (change_reply result) self.new }
        ensures jobs { self.new.jobs ≡ self.old.jobs }
        ensures unchanged { OnErr result (self.new ≡ self.old) }
    {
        let row = refusals::report(&self.journal, &self.tracker, worker, used)?;
        let moment = self.journal.effective(moment);
        self.tracker
            .report(&self.journal, moment, worker, row, used);
        let act = Act::Report {
            worker,
            request: row.request,
            used,
        };
        enter(
            &mut self.journal,
            &mut self.store,
            Entry { who, moment, act },
        );
        Ok(())
    }

    /// The worker's request has ended, and this is its measured cost, in microseconds.
    pub fn done(&mut self, who: u32, moment: u64, worker: u32, cost: u64) -> Result<(), Cause>
        ensures answers { AnswersCall self.old (call.Done who moment worker cost) (change_reply result) self.new }
        ensures jobs { self.new.jobs ≡ self.old.jobs }
        ensures unchanged { OnErr result (self.new ≡ self.old) }
    {
        let row = refusals::done(&self.journal, &self.tracker, worker, cost)?;
        let moment = self.journal.effective(moment);
        self.tracker.done(&self.journal, moment, worker, row, cost);
        let act = Act::Done {
            worker,
            request: row.request,
            cost,
        };
        enter(
            &mut self.journal,
            &mut self.store,
            Entry { who, moment, act },
        );
        Ok(())
    }

    /// Nothing more is submitted from here on.
    pub fn close(&mut self, who: u32, moment: u64) -> Result<(), AlreadyClosed>
        ensures answers { AnswersCall self.old (call.Close who moment) (close_reply result) self.new }
        ensures jobs { self.new.jobs ≡ self.old.jobs }
        ensures unchanged { OnErr result (self.new ≡ self.old) }
    {
        refusals::close(&self.journal)?;
        let moment = self.journal.effective(moment);
        self.tracker.close(&self.journal, moment);
        let act = Act::Close;
        enter(
            &mut self.journal,
            &mut self.store,
            Entry { who, moment, act },
        );
        Ok(())
    }

    /// The tenant has this weight from here on, 1 to 1,000. Its running requests stay charged at the weight that it had
    /// at the Take; its heads are measured by the new weight. May be called after a close, too. Refused, by the first
    /// of these that is so: where no tenant has this number, where the weight is out of its range, and where the open
    /// requests need the entries that are left.
    pub fn weight(&mut self, who: u32, moment: u64, tenant: u32, weight: u32) -> Result<(), Cause>
        ensures answers { AnswersCall self.old (call.Weight who moment tenant weight) (change_reply result) self.new }
        ensures jobs { self.new.jobs ≡ self.old.jobs }
        ensures unchanged { OnErr result (self.new ≡ self.old) }
    {
        refusals::weight(&self.journal, &self.tracker, tenant, weight)?;
        let moment = self.journal.effective(moment);
        self.tracker.reweigh(&self.journal, moment, tenant, weight);
        let act = Act::Weight { tenant, weight };
        enter(
            &mut self.journal,
            &mut self.store,
            Entry { who, moment, act },
        );
        Ok(())
    }

    /// There are `count` workers from here on, those with lower numbers: 1 to the number at the opening. A worker above
    /// them ends its request, and its next take is answered by `Retired`. May be called after a close, too. Refused, by
    /// the first of these that is so: where the number is out of its range, and where the open requests need the
    /// entries that are left.
    pub fn workers(&mut self, who: u32, moment: u64, count: u32) -> Result<(), Cause>
        ensures answers { AnswersCall self.old (call.Workers who moment count) (change_reply result) self.new }
        ensures jobs { self.new.jobs ≡ self.old.jobs }
        ensures unchanged { OnErr result (self.new ≡ self.old) }
    {
        refusals::workers(&self.journal, &self.tracker, count)?;
        let moment = self.journal.effective(moment);
        self.tracker.staff(&self.journal, moment, count);
        let act = Act::Workers { count };
        enter(
            &mut self.journal,
            &mut self.store,
            Entry { who, moment, act },
        );
        Ok(())
    }

    /// A request that waits is withdrawn: it is never taken, and its job comes back. May be called after a close, too.
    /// Refused where the request does not wait.
    pub fn withdraw(&mut self, who: u32, moment: u64, request: u32) -> Result<J, Cause>
        ensures answers { AnswersCall self.old (call.Withdraw who moment request) (withdraw_reply J.label_of result)
            self.new }
        ensures jobs { HandsBack self.old request result self.new }
    {
        refusals::withdraw(&self.tracker, request)?;
        let moment = self.journal.effective(moment);
        let job = self.tracker.withdraw(&self.journal, moment, request);
        let act = Act::Withdraw { request };
        enter(
            &mut self.journal,
            &mut self.store,
            Entry { who, moment, act },
        );
        Ok(job)
    }

    /// How many entries the history has, also those that are kept no longer. Each request that waits has its job here,
    /// and no other has.
    pub fn len(&self) -> u32
        ensures value { result ≡ length self.now.past }
        ensures within { result ≤ self.now.config.entries }
        ensures legal { IsLegal self.now.config (history_of self.now.past) }
        ensures held { HoldsWaiting J.label_of (history_of self.now.past) self.now.jobs }
    {
        self.journal.len()
    }

    /// The configuration, as at the opening.
    pub fn config(&self) -> &Checked
        ensures { result.now ≡ self.now.config }
    {
        self.journal.config()
    }

    /// The keys of the tenant's head, if it has one. They are the same at any moment until the next entry.
    pub fn keys(&self, tenant: u32) -> Option<Keys>
        requires { tenant < length self.now.config.weights }
        ensures { (m : ℕ) → result ≡ keys_at self.now.config (history_of self.now.past) m tenant }
    {
        self.tracker.keys_of(self.journal.config(), tenant)
    }

    /// Virtual time at the last entry, in steps.
    pub fn virtual_time(&self) -> i128
        ensures value { result ≡ pos (virtual_time_now self.now.config (history_of self.now.past)) }
        ensures low { pos 0 ≤ℤ result }
        ensures high { result ≤ℤ GREATEST_VIRTUAL_TIME }
    {
        self.tracker.times().now()
    }

    /// Virtual time at a moment, in steps, where no call is accepted before. A moment before the last entry's counts as
    /// the last entry's.
    pub fn virtual_time_at(&self, moment: u64) -> i128
        ensures value { result ≡ pos (virtual_time self.now.config (history_of self.now.past)
            (effective_moment (history_of self.now.past) moment)) }
        ensures low { pos 0 ≤ℤ result }
        ensures high { result ≤ℤ GREATEST_VIRTUAL_TIME }
    {
        self.tracker.times().at(self.journal.effective(moment))
    }

    /// How many workers there are now: 1 to as many as at the opening.
    pub fn pool(&self) -> u32
        ensures { result ≡ pool_at self.now.config (history_of self.now.past) }
    {
        self.tracker.times().workers()
    }

    /// The request that runs on the worker, and the numbers that decide its charge.
    pub fn running(&self, worker: u32) -> Option<RunRow>
        requires { worker < self.now.config.workers }
        ensures { result ≡ row_of_worker self.now.config (history_of self.now.past) worker }
    {
        self.tracker.book().running(worker)
    }

    /// The status of the history at its last entry.
    pub fn status(&self) -> Status
        ensures { result ≡ status_of self.now.config (history_of self.now.past) }
    {
        Status {
            entries: self.journal.len() as u64,
            moment: self.journal.last_moment(),
            vtime: self.tracker.times().now(),
            waiting: self.tracker.lists().len(),
            running: self.journal.running(),
        }
    }
}

impl<J: Job + Drop, X: Foresees, S: Store + Drop> Scheduler<J, X, S> {
    /// Foresees a take by the worker at this moment, and whether a head that is eligible for it then has an estimate
    /// below `below`, in microseconds. Nothing changes, and later calls may be at earlier moments.
    pub fn foresee(&self, moment: u64, worker: u32, below: u64) -> Foreseen
        ensures { IsForeseen self.now.config (history_of self.now.past) moment worker below result }
    {
        match refusals::take(&self.journal, &self.tracker, worker) {
            Some(told) => foreseen_of(told),
            None => Foreseen::Run(self.tracker.foresee(&self.journal, moment, worker, below)),
        }
    }
}

// One entry more, in the journal and in the store.
fn enter<S: Store>(journal: &mut Ledger, store: &mut S, entry: Entry)
    requires legal { IsLegal journal.old.config (entry ∷ history journal.old) }
    requires stored { IsStored journal.old (S.seen store.old) }
    ensures journal { journal.new ≡ with_entry journal.old entry }
    ensures store { S.seen store.new ≡ with_one (S.seen store.old) entry }
{
    journal.enter(entry);
    store.push(entry);
}
