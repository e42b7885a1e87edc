// Keys in order.
ghost use Rattle.keys.specs.Order.{Order, Compares, TieIsSameness};

use crate::key::Key;
use std::cmp::Ordering;

// A key with a total order of its own. The order's law is about that order alone; that a tie is sameness is the comparison's
// promise. It is not `Ord`: keys of a kind may have no `==`, and an `Ord` of theirs may tell apart what means the same.
pub trait OrderedKey: Key {
    ghost order: { Order Self };

    // How this key lies to another.
    fn compare(&self, other: &Self) -> Ordering
        ensures answers { Compares order self.now other.now result }
        ensures ties { TieIsSameness order Self.Key.meaning };
}
