//! Sources of bytes.
ghost use Rattle.std.specs.Prelude.{ℕ, List, Option};
ghost use Rattle.std.specs.Io.{ReadsAtMost};
ghost use Rattle.fq_io.specs.Faults.{HasCause};
ghost use Rattle.fq_io.specs.Sources.{Reads};

use crate::fault::Failed;

/// A source gives bytes, until it has none left.
pub trait Source {
    /// The bytes still to come, where the source tells them.
    ghost left: { Self → Option (List ℕ) };

    /// How many calls have failed. The count stands still at 2^64 - 1.
    ghost faults: { Self → ℕ };

    /// Moves the next bytes to the front of `buf`, and answers how many. It answers 0 for a buffer
    /// that isn't empty only at the end.
    fn read(&mut self, buf: &mut [u8]) -> Result<usize, Failed>
        ensures bound { ReadsAtMost result buf.new }
        ensures bytes { Reads (left self.old) (left self.new) result buf.old buf.new }
        ensures cause { HasCause (faults self.old) (faults self.new) result };
}
