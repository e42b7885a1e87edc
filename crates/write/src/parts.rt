// Values made of others: one is written after the other.
ghost use Rattle.std.specs.Prelude.{◌++◌};
ghost use Rattle.std.specs.List.{flat_map};
ghost use Rattle.write.specs.Optional.{present};

use crate::write::{FontWrite, put_all, write_each};
use sink::{Full, Sink};

// Bytes that stand for themselves. A slice of `u8` stands for the same ones, as lists of one byte each, joined; here no list is joined.
#[derive(Clone, Copy, PartialEq, Eq, Debug)]
pub struct Bytes<'a>(pub &'a [u8]);

impl<'a> FontWrite for Bytes<'a> {
    ghost bytes = { λ b. b.0.now };

    fn write_while_room<S: Sink>(&self, sink: &mut S) -> Result<(), Full> {
        put_all(self.0, sink)
    }
}

impl<T: FontWrite> FontWrite for &T {
    ghost bytes = { λ x. T.FontWrite.bytes x.now };

    fn write_while_room<S: Sink>(&self, sink: &mut S) -> Result<(), Full> {
        (**self).write_while_room(sink)
    }
}

impl<T: FontWrite> FontWrite for &[T] {
    ghost bytes = { λ x. flat_map T.FontWrite.bytes x.now };

    fn write_while_room<S: Sink>(&self, sink: &mut S) -> Result<(), Full> {
        write_each(*self, sink)
    }
}

impl<T: FontWrite, const N: usize> FontWrite for [T; N] {
    ghost bytes = { λ x. flat_map T.FontWrite.bytes x };

    fn write_while_room<S: Sink>(&self, sink: &mut S) -> Result<(), Full> {
        write_each(self, sink)
    }
}

impl<T: FontWrite> FontWrite for Option<T> {
    ghost bytes = { present T.FontWrite.bytes };

    fn write_while_room<S: Sink>(&self, sink: &mut S) -> Result<(), Full> {
        match self {
            Some(x) => x.write_while_room(sink),
            None => Ok(()),
        }
    }
}

impl<A: FontWrite, B: FontWrite> FontWrite for (A, B) {
    ghost bytes = { λ x. A.FontWrite.bytes x.0 ++ B.FontWrite.bytes x.1 };

    fn write_while_room<S: Sink>(&self, sink: &mut S) -> Result<(), Full> {
        self.0.write_while_room(sink)?;
        self.1.write_while_room(sink)
    }
}

// Each length of tuple has an `impl` of its own, since nothing goes over the parts of a tuple of any length. A longer one is
// written as the pair of its first part and the rest.
impl<A: FontWrite, B: FontWrite, C: FontWrite> FontWrite for (A, B, C) {
    ghost bytes = { λ x. A.FontWrite.bytes x.0 ++ (B.FontWrite.bytes x.1 ++ C.FontWrite.bytes x.2) };

    fn write_while_room<S: Sink>(&self, sink: &mut S) -> Result<(), Full> {
        (&self.0, (&self.1, &self.2)).write_while_room(sink)
    }
}

impl<A: FontWrite, B: FontWrite, C: FontWrite, D: FontWrite> FontWrite for (A, B, C, D) {
    ghost bytes = { λ x. A.FontWrite.bytes x.0 ++ (B.FontWrite.bytes x.1 ++ (C.FontWrite.bytes x.2 ++ D.FontWrite.bytes x.3)) };

    fn write_while_room<S: Sink>(&self, sink: &mut S) -> Result<(), Full> {
        (&self.0, (&self.1, &self.2, &self.3)).write_while_room(sink)
    }
}
