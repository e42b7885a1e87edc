// Where deltas come from: they may lie scattered, and are read one by one.
ghost use Rattle.std.specs.Prelude.{◌≡◌, ◌<◌, List, length, ℤ, pos, slice_index_or};

pub trait Deltas {
    // The values in turn.
    ghost deltas: { Self → List ℤ };

    // How many there are.
    fn len(&self) -> usize
        ensures { result ≡ length (deltas self.now) };

    // The value at a place.
    fn delta_at(&self, i: usize) -> i32
        requires { i < length (deltas self.now) }
        ensures { result ≡ slice_index_or (deltas self.now) i (pos 0) };
}

impl<'a> Deltas for &'a [i32] {
    ghost deltas = { λ s. s.now };

    fn len(&self) -> usize {
        (*self).len()
    }

    fn delta_at(&self, i: usize) -> i32 {
        self[i]
    }
}
