// The kinds of numbers that deltas come in.
ghost use Rattle.std.specs.Prelude.{◌≡◌, ℤ};

// A kind of number that widens to 32 bits. A trait of its own and not `Into<i32>`: what `From` promises is a relation, and a clause over
// a list of values wants a function.
pub trait Number {
    // The number, by its raw value.
    ghost widened: { Self → ℤ };

    fn widen(&self) -> i32
        ensures { result ≡ widened self.now };
}

// A number with 14 fractional bits, by its raw value.
#[derive(Clone, Copy)]
pub struct F2Dot14(pub i16);

impl Number for i16 {
    ghost widened = { λ z. z };

    fn widen(&self) -> i32 {
        i32::from(*self)
    }
}

impl Number for i32 {
    ghost widened = { λ z. z };

    fn widen(&self) -> i32 {
        *self
    }
}

impl Number for F2Dot14 {
    ghost widened = { λ x. x.0 };

    fn widen(&self) -> i32 {
        i32::from(self.0)
    }
}
