// Keys, and when two mean the same.
ghost use Rattle.std.specs.Prelude.{◌≡◌, Decides};
ghost use Rattle.keys.specs.Sameness.{Sameness};

// What things are told apart by, as a region, a delta set or an axis list. A key may hold slices: it is known by what it means
// alone. A further key is added by an `impl` with
//   what it means, as `ghost Meaning = { List ℕ }; ghost meaning = { λ k. k.axes.now };`,
//   the test of such meanings, put together from those of its parts, as `ghost sameness = { lists numbers };`,
//   and `same`, which compares two keys as it likes.
pub trait Key {
    // What keys of this type mean.
    ghost Meaning: { Type 0 };

    // What a key means.
    ghost meaning: { Self → Meaning };

    // When two meanings are the same.
    ghost sameness: { Sameness Meaning };

    // Whether the two mean the same. A method beside `==`: keys of a kind may differ in more than what they mean, as lists of entries
    // that are known by their regions alone, and an `==` of theirs would have to be proved an equivalence to say the same again.
    fn same(&self, other: &Self) -> bool
        ensures { Decides result (meaning self.now ≡ meaning other.now) };
}

// What is sought among keys of a type K: a key of that type, or something else that stands for one, as a region that is handed in
// with coordinates of zero peak, which a held region does not have.
pub trait Sought<K: Key> {
    // The key that it stands for.
    ghost stands: { Self → K };

    // Whether the key means what is sought.
    fn is(&self, key: &K) -> bool
        ensures { Decides result (K.Key.meaning key.now ≡ K.Key.meaning (stands self.now)) };
}

// A key stands for itself.
impl<K: Key> Sought<K> for K {
    ghost stands = { λ k. k };

    fn is(&self, key: &K) -> bool {
        key.same(self)
    }
}
