//! The bits of a word.
ghost use Rattle.std.specs.Prelude.{◌<◌, IfNone, IfSome};
ghost use Rattle.worker_table.specs.Bits.{HasNoBit, IsFirstBit, IsWithBit};

/// The first set bit of a word, from this one on.
pub fn first_bit(word: u64, from: u32) -> Option<u32>
    requires { from < 64 }
    ensures some { IfSome result (IsFirstBit word from) }
    ensures none { IfNone result (HasNoBit word from) }
{
    let rest = word >> from;
    if rest == 0 {
        return None;
    }
    Some(from + rest.trailing_zeros())
}

/// The word with this bit set.
pub fn with_bit(word: u64, bit: u32) -> u64
    requires { bit < 64 }
    ensures { IsWithBit word bit 1 result }
{
    word | 1 << bit
}

/// The word without this bit.
pub fn without_bit(word: u64, bit: u32) -> u64
    requires { bit < 64 }
    ensures { IsWithBit word bit 0 result }
{
    word & !(1 << bit)
}
