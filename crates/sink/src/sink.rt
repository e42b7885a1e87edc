// What bytes are written to.
ghost use Rattle.std.specs.Prelude.{◌≡◌};
ghost use Rattle.sink.specs.Meaning.{Meaning, Puts};
ghost use Rattle.sink.specs.Refusals.{number};

// Refusal 14: the sink can take fewer bytes than are needed.
#[derive(Clone, Copy, PartialEq, Eq, Debug)]
pub struct Full;

impl Full {
    // The refusal's number. There is one refusal, which carries nothing to read the number from, so the method says it.
    pub fn number(self) -> u8
        ensures { result ≡ number self }
    {
        14
    }
}

// A place that takes bytes one by one, up to a fixed limit. What it was fed is known only by its meaning: a buffer
// knows the very bytes, a counter only how many they were.
pub trait Sink {
    ghost meaning: { Meaning Self };

    // Takes one byte. Refused exactly where the sink is full, which changes nothing.
    fn put(&mut self, byte: u8) -> Result<(), Full>
        ensures { Puts meaning self.old byte result self.new };

    // How many bytes were taken.
    fn count(&self) -> usize
        ensures { result ≡ meaning.count self.now };

    // How many bytes are taken at the most.
    fn limit(&self) -> usize
        ensures { result ≡ meaning.limit self.now };
}
