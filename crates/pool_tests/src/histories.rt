//! Questions about a history.
use fq_model::event::{Act, Entry};
use std::ops::Range;

/// Whether these made the entries.
pub fn are_callers(past: &[Entry], wanted: &[u32]) -> bool {
    let mut rest = wanted.iter();
    for e in past {
        if rest.next() != Some(&e.who) {
            return false;
        }
    }
    rest.next().is_none()
}

/// Whether these are the entries' moments.
pub fn are_moments(past: &[Entry], wanted: &[u64]) -> bool {
    let mut rest = wanted.iter();
    for e in past {
        if rest.next() != Some(&e.moment) {
            return false;
        }
    }
    rest.next().is_none()
}

/// Whether these are the entries' acts.
pub fn are_acts(past: &[Entry], wanted: &[Act]) -> bool {
    let mut rest = wanted.iter();
    for e in past {
        if rest.next() != Some(&e.act) {
            return false;
        }
    }
    rest.next().is_none()
}

// Whether an entry is of this caller, or of any where none is named.
fn is_of(e: &Entry, who: Option<u32>) -> bool {
    match who {
        Some(number) => e.who == number,
        None => true,
    }
}

// The job's label in a Submit.
fn submitted(act: Act) -> Option<u64> {
    match act {
        Act::Submit { label, .. } => Some(label),
        _ => None,
    }
}

/// Whether the jobs that a caller submitted, or all did, are the next ones of these. Takes those out.
pub fn are_next_jobs(past: &[Entry], who: Option<u32>, wanted: &mut Range<u64>) -> bool {
    for e in past {
        if let Some(job) = submitted(e.act) {
            if is_of(e, who) && wanted.next() != Some(job) {
                return false;
            }
        }
    }
    true
}

/// Whether these are the jobs that a caller submitted, or that all did.
pub fn are_jobs(past: &[Entry], who: Option<u32>, mut wanted: Range<u64>) -> bool {
    are_next_jobs(past, who, &mut wanted) && wanted.is_empty()
}

// One letter for each kind of act.
fn letter(act: Act) -> char {
    match act {
        Act::Submit { .. } => 's',
        Act::Take { .. } => 't',
        Act::Done { .. } => 'd',
        Act::Close => 'c',
        Act::Workers { .. } => 'w',
        _ => '?',
    }
}

/// Whether a caller's acts have these letters.
pub fn are_letters(past: &[Entry], who: u32, wanted: &str) -> bool {
    let mut rest = wanted.chars();
    for e in past {
        if e.who == who && rest.next() != Some(letter(e.act)) {
            return false;
        }
    }
    rest.next().is_none()
}

/// Whether each act of a caller has this letter.
pub fn makes_only(past: &[Entry], who: u32, wanted: char) -> bool {
    for e in past {
        if e.who == who && letter(e.act) != wanted {
            return false;
        }
    }
    true
}

/// How many acts of a caller, or of all, have this letter.
pub fn count_of(past: &[Entry], who: Option<u32>, wanted: char) -> u64 {
    let mut count = 0u64;
    for e in past {
        if is_of(e, who) && letter(e.act) == wanted {
            count = count.saturating_add(1);
        }
    }
    count
}
