//! Laws of the order of leaves and of the first one.
ghost use Rattle.winner_tree.specs.Laws.{OneComesFirst, NotBothComeFirst, OrderGoesOn, FirstIsUnique};

/// Of two leaves one comes before the other, whatever their keys.
pub fn one_comes_first()
    ensures { OneComesFirst }
{}

/// Two leaves do not each come before the other.
pub fn not_both_come_first()
    ensures { NotBothComeFirst }
{}

/// A leaf that comes before a second one comes before all that the second one comes before.
pub fn order_goes_on()
    ensures { OrderGoesOn }
{}

/// At most one leaf is the first.
pub fn first_is_unique()
    ensures { FirstIsUnique }
{}
