// Keys that ascend.
ghost use Rattle.std.specs.Prelude.{◌≡◌, [], None, Decides, OnSome};
ghost use Rattle.keys.specs.Order.{Above, Ascends, Taken, Takes, TieIsSameness};

use crate::bank::Bank;
use crate::order::OrderedKey;

// A run of keys that strictly ascends. It keeps the last key only.
#[derive(Drop)]
pub struct AscendingRun<K> {
    last: Option<K>,
}

impl<K: OrderedKey + Drop> AscendingRun<K> {
    // A run that has taken nothing.
    pub fn new() -> AscendingRun<K>
        ensures empty { result.last ≡ None }
        ensures taken { Taken K.OrderedKey.order K.Key.meaning result.last [] }
    {
        AscendingRun { last: None }
    }

    // Whether the key lies above the last.
    fn admits(&self, key: &K) -> bool
        ensures above { Decides result (Above K.OrderedKey.order self.now.last key.now) }
        ensures ties { OnSome self.now.last (TieIsSameness K.OrderedKey.order K.Key.meaning) }
    {
        self.last
            .as_ref()
            .is_none_or(|last| last.compare(key).is_lt())
    }

    // Takes the key at the run's end, where it lies above the last; else nothing changes.
    pub fn take(&mut self, key: K) -> bool
        ensures takes { Takes K.OrderedKey.order K.Key.meaning self.old.last key result self.new.last }
        ensures ties { OnSome self.old.last (TieIsSameness K.OrderedKey.order K.Key.meaning) }
    {
        if !self.admits(&key) {
            return false;
        }
        self.last = Some(key);
        true
    }
}

// Whether the keys of a bank strictly ascend.
pub fn ascends<B: Bank>(bank: &B) -> bool
where
    B::Key: OrderedKey,
    ensures { Ascends B.Key.OrderedKey.order B.Key.Key.meaning (B.Bank.keys bank.now) result }
{
    let mut run = AscendingRun::new();
    (0..bank.len()).all(|i| run.take(bank.key_at(i)))
}
