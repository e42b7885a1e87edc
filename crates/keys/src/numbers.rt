// Numbers as keys: axis numbers, region numbers, in order of size.
ghost use Rattle.std.specs.Prelude.{◌≡◌, ℕ, map, Decides};
ghost use Rattle.keys.specs.Numbers.{AscendingNumbers, by_size};
ghost use Rattle.keys.specs.Sameness.{numbers};

use crate::bank::Bank;
use crate::key::Key;
use crate::order::OrderedKey;
use crate::run::ascends;
use format::Coordinate;
use std::cmp::Ordering;

impl Key for u16 {
    ghost Meaning = { ℕ };

    ghost meaning = { λ n. n };

    ghost sameness = { numbers };

    fn same(&self, other: &u16) -> bool {
        *self == *other
    }
}

impl OrderedKey for u16 {
    ghost order = { by_size };

    fn compare(&self, other: &u16) -> Ordering {
        self.cmp(other)
    }
}

// A record that goes by a number. A further record is added by an `impl` that says which of its fields that is.
pub trait Numbered {
    ghost number: { Self → ℕ };

    fn number(&self) -> u16
        ensures { result ≡ number self.now };
}

impl Numbered for u16 {
    ghost number = { λ n. n };

    fn number(&self) -> u16 {
        *self
    }
}

// A coordinate goes by its axis.
impl Numbered for Coordinate {
    ghost number = { λ c. c.axis };

    fn number(&self) -> u16 {
        self.axis
    }
}

// The numbers of records, as they lie in a slice.
#[derive(Drop)]
pub struct Numbers<'a, T> {
    pub records: &'a [T],
}

impl<'a, T: Numbered> Bank for Numbers<'a, T> {
    type Key = u16;

    ghost keys = { λ b. map T.Numbered.number b.records.now };

    fn len(&self) -> usize {
        self.records.len()
    }

    fn key_at(&self, i: usize) -> u16 {
        self.records[i].number()
    }
}

// Whether the numbers of records strictly ascend.
pub fn numbers_ascend<T: Numbered>(records: &[T]) -> bool
    ensures { Decides result (AscendingNumbers (map T.Numbered.number records.now)) }
{
    ascends(&Numbers { records })
}
