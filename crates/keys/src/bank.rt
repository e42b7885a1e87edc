// Keys by place.
ghost use Rattle.std.specs.Prelude.{◌≡◌, ◌<◌, List, map, length, slice_index_or};
ghost use Rattle.keys.specs.Places.{place, placed, First, TableLaws};

use crate::key::{Key, Sought};

// Keys by place. A key is made when it is asked for, so a bank may be a few lent lists. What its keys are matters only by what
// they mean: where they hold slices, `lent` stands for a slice wherever it lies.
pub trait Bank {
    type Key: Key + Drop;

    // The keys in turn.
    ghost keys: { Self → List Self.Key };

    // How many keys there are.
    fn len(&self) -> usize
        ensures { result ≡ length (keys self.now) };

    // The key at a place.
    fn key_at(&self, i: usize) -> Self::Key
        requires { i < length (keys self.now) }
        ensures { Self.Key.Key.meaning result ≡ Self.Key.Key.meaning (slice_index_or (keys self.now) i result) };
}

// The first place whose key means what is sought.
pub fn find<B: Bank, S: Sought<B::Key>>(bank: &B, sought: &S) -> Option<usize>
    ensures is { result ≡ place B.Key.Key.sameness (map B.Key.Key.meaning (B.Bank.keys bank.now)) (B.Key.Key.meaning (S.Sought.stands sought.now)) }
    ensures first { First (map B.Key.Key.meaning (B.Bank.keys bank.now)) (B.Key.Key.meaning (S.Sought.stands sought.now)) result }
{
    // A loop: `find` over the range took from a third more time than it to twice as much.
    for i in 0..bank.len() {
        if sought.is(&bank.key_at(i)) {
            return Some(i);
        }
    }
    None
}

// The place of a key in a table of different keys: `Ok` where it is there, and first came at this place; `Err` where it is not
// there, and takes the next place, this one, once it is appended.
pub fn place_of<B: Bank, S: Sought<B::Key>>(bank: &B, sought: &S) -> Result<usize, usize>
    ensures is { result ≡ placed B.Key.Key.sameness (map B.Key.Key.meaning (B.Bank.keys bank.now)) (B.Key.Key.meaning (S.Sought.stands sought.now)) }
    ensures laws { TableLaws B.Key.Key.sameness }
{
    find(bank, sought).ok_or_else(|| bank.len())
}
