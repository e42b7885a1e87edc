ghost use Rattle.sink.specs.Meaning.{Fresh};
ghost use Rattle.sink.specs.Kinds.{counted};

use crate::counter::Counter;
use crate::sink::{Full, Sink};

impl<const LIMIT: usize> Counter<LIMIT> {
    // A counter that has taken nothing.
    pub fn new() -> Counter<LIMIT>
        ensures { Fresh (counted LIMIT) result }
    {
        Counter { bytes: 0 }
    }
}

impl<const LIMIT: usize> Sink for Counter<LIMIT> {
    ghost meaning = { counted LIMIT };

    fn put(&mut self, _byte: u8) -> Result<(), Full> {
        if self.bytes >= LIMIT {
            return Err(Full);
        }
        self.bytes += 1;
        Ok(())
    }

    fn count(&self) -> usize {
        self.bytes
    }

    fn limit(&self) -> usize {
        LIMIT
    }
}
