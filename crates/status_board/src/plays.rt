//! The fact that each step on the table gives its maker.
ghost use Rattle.std.specs.Prelude.{List, []};
ghost use Rattle.fq_model.specs.declared.event.Entry.{Entry};
ghost use Rattle.status_board.specs.Plays.{looked, peeked, checked, glanced, began, wrote, published, confirmed};
ghost use Rattle.status_board.specs.Views.{same_view, new_reader, with_joined, spent_view};

use crate::table::View;
use atomic_table::{Join, Play, Split};
use std::marker::{Brand, PhantomData};

/// A reader's first look at the version.
pub(crate) struct Look;

impl Play<(), View> for Look {
    ghost then = { looked };
}

/// A reader looks at another word.
pub(crate) struct Peek;

impl Play<(), View> for Peek {
    ghost then = { peeked };
}

/// A reader's second look at the version.
pub(crate) struct Check;

impl Play<(), View> for Check {
    ghost then = { checked };
}

/// A reader looks how many entries are shown.
pub(crate) struct Glance;

impl Play<(), View> for Glance {
    ghost then = { glanced };
}

/// The version becomes odd, before any other word changes.
pub(crate) struct Begin;

impl Play<(), View> for Begin {
    ghost then = { began };
}

/// Another word is written.
pub(crate) struct Put;

impl Play<(), View> for Put {
    ghost then = { wrote };
}

/// Which history is shown next. Proofs alone use it, and each call of `publish` picks it.
pub(crate) trait Next {
    ghost next: { List Entry };
}

impl Next for Brand {
    ghost next = { [] };
}

/// The version becomes that of the next history.
pub(crate) struct Publish<B> {
    next: PhantomData<B>,
}

impl<B: Next> Play<(), View> for Publish<B> {
    ghost then = { published B.next };
}

/// The writer learns the facts that the rule has about the reader that it took in.
pub(crate) struct Confirm;

impl Play<(), View> for Confirm {
    ghost then = { confirmed };
}

/// A reader is made.
pub(crate) struct Fork;

impl Split<View> for Fork {
    ghost left = { same_view };

    ghost right = { new_reader };
}

/// A reader is taken in by the writer.
pub(crate) struct Merge;

impl Join<View> for Merge {
    ghost both = { with_joined };

    ghost spent = { spent_view };
}
