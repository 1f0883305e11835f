//! The greatest leads of one tenant over another, and the greatest numbers that bound them.
ghost use Rattle.std.specs.Prelude.{◌≡◌, ◌≤◌, ◌≤ℤ◌, IfSome};
ghost use Rattle.tag_lead.specs.Maxima.{no_leads, asks_doubt, first_with, longest_with};
ghost use Rattle.tag_lead.specs.Maxima.{doubt_with, leads_with, heads_in_bound};
ghost use Rattle.tag_lead.specs.Maxima.{lead_from};

use crate::limits::{GREATEST_DOUBT, GREATEST_LENGTH, GREATEST_PAIR};
use fq_model::config::Policy;
use fq_model::limits::GREATEST_START;
use tag_difference::found::{Found, at_least};
use tag_difference::gap::Gap;

/// The greatest numbers at the prefixes of a history, in steps. A Take counts where it takes a request of the first
/// tenant while both wait.
#[derive(Clone, Copy, Debug, PartialEq, Eq)]
pub struct Leads {
    /// The greatest differences of the starts.
    pub starts: Found,
    /// The greatest lead at a prefix with which both begin to wait.
    pub first: Option<i128>,
    /// The greatest length of a head of the two at a Take.
    pub longest: u128,
    /// The greatest doubt just after a Take.
    pub doubt: u128,
}

impl Leads {
    /// No prefix yet.
    pub fn new() -> Leads
        ensures { result ≡ no_leads }
    {
        Leads {
            starts: Found::new(),
            first: None,
            longest: 0,
            doubt: 0,
        }
    }

    /// Whether the doubt after one entry more counts: where both begin to wait, and after a Take that counts.
    pub fn asks_doubt(&self, difference: Option<i128>, taken: Option<u128>) -> bool
        ensures { result ≡ asks_doubt self.now difference taken }
    {
        taken.is_some() || difference.is_some() && !self.starts.shared
    }

    /// With one entry more: the difference of the starts after it, where both wait; the greater length of their heads
    /// before it, where it is a Take that counts; and the doubt after it.
    pub fn with(&self, difference: Option<i128>, taken: Option<u128>, doubt: u128) -> Leads
        requires difference { IfSome difference (λ d. d ≤ℤ GREATEST_START) }
        requires doubt { doubt ≤ GREATEST_DOUBT }
        ensures { result ≡ leads_with self.now difference taken doubt }
    {
        Leads {
            starts: self.starts.with(difference),
            first: self.first_with(difference, doubt),
            longest: longest_with(self.longest, taken),
            doubt: doubt_with(self.doubt, taken, doubt),
        }
    }

    // The greatest lead with which both begin to wait: the difference of the starts and the doubt.
    fn first_with(&self, difference: Option<i128>, doubt: u128) -> Option<i128>
        requires difference { IfSome difference (λ d. d ≤ℤ GREATEST_START) }
        requires doubt { doubt ≤ GREATEST_DOUBT }
        ensures { result ≡ first_with self.now difference doubt }
    {
        match difference {
            Some(d) if !self.starts.shared => Some(at_least(d + doubt as i128, self.first)),
            _ => self.first,
        }
    }

    /// The largest difference and its bound under the policy, if both waited at some prefix.
    pub fn lead(&self, policy: Policy) -> Option<Gap>
        requires longest { self.now.longest ≤ GREATEST_LENGTH }
        requires doubt { self.now.doubt ≤ GREATEST_DOUBT }
        ensures { result ≡ lead_from self.now policy }
    {
        let largest = self.starts.largest?;
        let takes = heads_in_bound(policy, self.longest) + self.doubt;
        let bound = at_least(takes as i128, self.first);
        Some(Gap { largest, bound })
    }
}

// The greatest length, with the length at a Take, if there is one.
fn longest_with(longest: u128, taken: Option<u128>) -> u128
    ensures { result ≡ longest_with longest taken }
{
    match taken {
        Some(length) => longest.max(length),
        None => longest,
    }
}

// The greatest doubt, with the doubt after a Take, if there is one.
fn doubt_with(greatest: u128, taken: Option<u128>, doubt: u128) -> u128
    ensures { result ≡ doubt_with greatest taken doubt }
{
    match taken {
        Some(_) => greatest.max(doubt),
        None => greatest,
    }
}

// One length of a head, or two under 2dfq and 2dfq+.
fn heads_in_bound(policy: Policy, longest: u128) -> u128
    requires { longest ≤ GREATEST_LENGTH }
    ensures value { result ≡ heads_in_bound policy longest }
    ensures low { result ≤ GREATEST_PAIR }
{
    match policy {
        Policy::TwoDfq | Policy::TwoDfqPlus => 2 * longest,
        Policy::Wfq | Policy::Wf2q | Policy::Msf2q => longest,
    }
}
