//! The courses, the completed requests and the changes of a history.
ghost use Rattle.std.specs.Prelude.{◌≡◌, ◌<◌, ◌++◌, ◌∷◌, [], length, IfOk, OnOk, not, position};
ghost use Rattle.fq_model.specs.History.{history_of};
ghost use Rattle.fq_model.specs.Fluid.{changes_of, with_change};
ghost use Rattle.lag_report.specs.Courses.{NamesOneOf, NamesSubmitted, courses_after, courses_of, rows_after, rows_of, submitted};

use crate::course::Course;
use fq_model::event::{Act, Entry};
use fq_model::fluid::{Change, FluidRow, What};
use ghost_list::GhostList;
use std::alloc::{AllocError, Global};

/// The courses and the completed requests of a history, and the changes of weights and of the number of workers.
#[derive(Drop)]
pub struct Contents {
    /// The entries, which proofs alone know here.
    pub past: GhostList<Entry>,
    /// The courses of the requests, by number.
    pub courses: Vec<Course>,
    /// The requests that are done, in the order of their Dones.
    pub rows: Vec<FluidRow>,
    /// The changes, in order of time.
    pub changes: Vec<Change>,
}

impl Contents {
    // Takes in one entry more.
    fn add(&mut self, entry: Entry) -> Result<(), AllocError>
        requires { NamesOneOf (length self.old.courses.items) entry.act }
        ensures past { OnOk result (self.new.past.items ≡ self.old.past.items ++ entry ∷ []) }
        ensures courses { OnOk result (self.new.courses.items
            ≡ courses_after entry.moment entry.act self.old.courses.items) }
        ensures rows { OnOk result (self.new.rows.items
            ≡ rows_after self.old.courses.items entry.act self.old.rows.items) }
        ensures changes { OnOk result (self.new.changes.items
            ≡ with_change entry.moment entry.act self.old.changes.items) }
    {
        self.past = self.past.and(&entry);
        let moment = entry.moment;
        match entry.act {
            Act::Submit { tenant, .. } => self.courses.push(submitted(tenant, moment))?,
            Act::Take { request, .. } => {
                let course = self.courses[request as usize];
                self.courses[request as usize] = Course {
                    taken: moment,
                    ..course
                };
            }
            Act::Done { request, cost, .. } => {
                let course = self.courses[request as usize];
                self.rows.push(FluidRow {
                    tenant: course.tenant,
                    submit: course.submit,
                    cost,
                })?;
                self.courses[request as usize] = Course {
                    ended: moment,
                    cost,
                    is_ended: true,
                    ..course
                };
            }
            Act::Withdraw { request } => self.courses[request as usize].is_ended = true,
            _ => add_change(entry, &mut self.changes)?,
        }
        Ok(())
    }
}

// The course of a request that was just submitted.
fn submitted(tenant: u32, submit: u64) -> Course
    ensures { result ≡ submitted tenant submit }
{
    Course {
        tenant,
        submit,
        taken: 0,
        ended: 0,
        cost: 0,
        is_ended: false,
    }
}

/// The contents of the entries, which are in order of time.
pub fn read(alloc: Global, past: &[Entry]) -> Result<Contents, AllocError>
    requires { NamesSubmitted (history_of past.now) }
    ensures past { IfOk result (λ r. r.past.items ≡ past.now) }
    ensures courses { IfOk result (λ r. r.courses.items ≡ courses_of (history_of past.now)) }
    ensures rows { IfOk result (λ r. r.rows.items ≡ rows_of (history_of past.now)) }
    ensures changes { IfOk result (λ r. r.changes.items ≡ changes_of (history_of past.now)) }
{
    let mut contents = Contents {
        past: GhostList::new(),
        courses: Vec::new(alloc),
        rows: Vec::new(alloc),
        changes: Vec::new(alloc),
    };
    for entry in past {
        contents.add(*entry)?;
    }
    Ok(contents)
}

/// The least request that is neither done nor withdrawn, if there is one.
pub fn unfinished(courses: &[Course]) -> Option<usize>
    ensures { result ≡ position (λ c. not c.is_ended) courses.now }
{
    courses.iter().position(|course| !course.is_ended)
}

// Adds the entry's change, if it changes a weight or the number of workers.
fn add_change(entry: Entry, changes: &mut Vec<Change>) -> Result<(), AllocError>
    ensures { OnOk result (changes.new.items ≡ with_change entry.moment entry.act changes.old.items) }
{
    let what = match entry.act {
        Act::Weight { tenant, weight } => What::Weight { tenant, weight },
        Act::Workers { count } => What::Workers { count },
        _ => return Ok(()),
    };
    changes.push(Change {
        moment: entry.moment,
        what,
    })?;
    Ok(())
}
