ghost use Rattle.std.specs.Prelude.{◌≡◌, [], ◌∷◌, length};
ghost use Rattle.sink.specs.Meaning.{Fresh};
ghost use Rattle.sink.specs.Kinds.{held};

use crate::buffer::Buffer;
use crate::sink::{Full, Sink};

impl<'a> Buffer<'a> {
    // An empty buffer, whose limit is the slice's length.
    pub fn new(room: &'a mut [u8]) -> Buffer<'a>
        ensures fresh { Fresh held result }
        ensures limit { held.limit result ≡ length room.old }
        ensures room { result.room.now ≡ room.old }
        ensures lent { held.loan result ≡ room.entry.ghost_name ∷ [] }
    {
        Buffer { room, filled: 0 }
    }

    // The bytes that were taken.
    pub fn written(&self) -> &[u8]
        ensures { held.fed self.now result.now }
    {
        &self.room[0..self.filled]
    }
}

impl<'a> Sink for Buffer<'a> {
    ghost meaning = { held };

    fn put(&mut self, byte: u8) -> Result<(), Full> {
        if self.filled >= self.room.len() {
            return Err(Full);
        }
        self.room[self.filled] = byte;
        self.filled += 1;
        Ok(())
    }

    fn count(&self) -> usize {
        self.filled
    }

    fn limit(&self) -> usize {
        self.room.len()
    }
}
