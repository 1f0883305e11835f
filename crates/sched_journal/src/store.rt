//! Where the entries of a history are kept.
ghost use Rattle.std.specs.Prelude.{◌≡◌, ◌<◌, length};
ghost use Rattle.sched_journal.specs.Stores.{StoreView, with_one};

use fq_model::event::Entry;

/// A store of entries, which keeps the last of those that come. What can be read of it, each store's own calls say.
pub trait Store {
    /// Its view in contracts: all entries that came, in order of time, how many of the last are kept at least, and how
    /// many may come in all.
    ghost seen: { Self → StoreView };

    /// One entry more. It takes no memory.
    fn push(&mut self, entry: Entry)
        requires { length (seen self.old).past < (seen self.old).room }
        ensures { seen self.new ≡ with_one (seen self.old) entry };
}
