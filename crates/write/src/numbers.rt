// Whole numbers, the most significant byte first.
#![tactic(auto, unfolding(crate::specs::Bytes::be))]

ghost use Rattle.std.specs.Prelude.{[], ◌∷◌};
ghost use Rattle.write.specs.Bytes.{be, signed8, signed16, signed32};

use crate::write::{FontWrite, put_all};
use sink::{Full, Sink};

impl FontWrite for u8 {
    ghost bytes = { λ n. n ∷ [] };

    fn write_while_room<S: Sink>(&self, sink: &mut S) -> Result<(), Full> {
        sink.put(*self)
    }
}

impl FontWrite for u16 {
    ghost bytes = { be 2 };

    fn write_while_room<S: Sink>(&self, sink: &mut S) -> Result<(), Full> {
        put_all(&u16::to_be_bytes(*self), sink)
    }
}

impl FontWrite for u32 {
    ghost bytes = { be 4 };

    fn write_while_room<S: Sink>(&self, sink: &mut S) -> Result<(), Full> {
        put_all(&u32::to_be_bytes(*self), sink)
    }
}

impl FontWrite for i8 {
    ghost bytes = { signed8 };

    fn write_while_room<S: Sink>(&self, sink: &mut S) -> Result<(), Full> {
        put_all(&i8::to_be_bytes(*self), sink)
    }
}

impl FontWrite for i16 {
    ghost bytes = { signed16 };

    fn write_while_room<S: Sink>(&self, sink: &mut S) -> Result<(), Full> {
        put_all(&i16::to_be_bytes(*self), sink)
    }
}

impl FontWrite for i32 {
    ghost bytes = { signed32 };

    fn write_while_room<S: Sink>(&self, sink: &mut S) -> Result<(), Full> {
        put_all(&i32::to_be_bytes(*self), sink)
    }
}
