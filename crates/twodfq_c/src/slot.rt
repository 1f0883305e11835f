//! A scheduler behind a pointer that C carries and does not read.
ghost use Rattle.std.specs.Prelude.{◌≡◌, Option, Some, None, IsSome};
ghost use Rattle.std.specs.Coded.{coded_option};
ghost use Rattle.twodfq_c.specs.Owned.{served, slot_owns};

use crate::loose::Loose;
use sched_state::Recent;
use shared_order::chooser::SharedChooser;
use std::alloc::Global;
use std::marker::{Model, Send};

/// The scheduler that a handle holds: jobs are their labels. The chooser is named here alone, beside its names for
/// contracts in `specs/Owned.antt` and for `Send`.
pub(crate) type Served = Recent<u64, SharedChooser>;

/// The scheduler at the pointer, as C sees it.
#[repr(C)]
pub struct Hidden {
    unused: u8,
}

/// A pointer to a scheduler that it owns, or a null pointer.
#[repr(C)]
#[derive(Drop)]
pub struct Slot {
    at: *mut Hidden,
    pub(crate) ghost held: { Option served.Denot } by { coded_option served.coded },
}

impl Model for Slot {
    ghost also_owns = { λ s. slot_owns s.at s.held };
}

impl Slot {
    /// A null pointer.
    pub(crate) fn empty() -> Slot
        ensures { result.held ≡ None }
    {
        Slot {
            at: std::ptr::null_mut(),
        }
    }

    /// The box as its pointer.
    pub(crate) fn of(served: Box<Served>) -> Slot
        ensures { result.held ≡ Some served.value }
    {
        Slot::of_loose(Loose::of(served))
    }

    /// The box again.
    pub(crate) fn into_box(self, alloc: Global) -> Box<Served>
        requires { IsSome self.held }
        ensures { self.held ≡ Some result.value }
    {
        self.into_loose(alloc).into_box()
    }

    // The pointer alone.
    fn of_loose(loose: Loose<Served, Global>) -> Slot
        ensures { result.held ≡ Some loose.value }
    {
        let Loose { at, alloc: _ } = loose;
        Slot {
            at: at as *mut Hidden,
        }
    }

    // The pointer with the right to free the scheduler there.
    fn into_loose(self, alloc: Global) -> Loose<Served, Global>
        requires { IsSome self.held }
        ensures { self.held ≡ Some result.value }
    {
        let Slot { at } = self;
        Loose {
            at: at as *mut Served,
            alloc,
        }
    }
}

// It owns plain data, and goes to one thread at a time.
unsafe impl Send for Slot {}
