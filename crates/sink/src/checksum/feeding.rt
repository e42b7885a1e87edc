ghost use Rattle.std.specs.Prelude.{◌≡◌, ℕ, ◌-◌, ◌*◌, ◌%◌, ◌^◌, List};
ghost use Rattle.sink.specs.Checksums.{checksum};
ghost use Rattle.sink.specs.Meaning.{Fresh};
ghost use Rattle.sink.specs.Kinds.{summed};

use crate::checksum::Checksum;
use crate::counter::ByteCounter;
use crate::sink::{Full, Sink};

impl Checksum {
    // The checksum of nothing.
    pub fn new() -> Checksum
        ensures { Fresh summed result }
    {
        Checksum {
            bytes: ByteCounter::new(),
            sum: 0,
        }
    }

    // The checksum of whatever bytes were taken.
    pub fn value(&self) -> u32
        ensures sum { result ≡ self.now.sum }
        ensures of_fed { (xs : List ℕ) → summed.fed self.now xs → result ≡ checksum xs }
    {
        self.sum
    }
}

// What a byte adds to the sum at this place of the table.
fn weighed(byte: u8, place: usize) -> u32
    ensures { result ≡ byte * 256 ^ (3 - place % 4) }
{
    let byte = byte as u32;
    match place % 4 {
        0 => byte * 0x1000000,
        1 => byte * 0x10000,
        2 => byte * 0x100,
        _ => byte,
    }
}

impl Sink for Checksum {
    ghost meaning = { summed };

    fn put(&mut self, byte: u8) -> Result<(), Full> {
        let place = self.bytes.count();
        self.bytes.put(byte)?;
        self.sum = self.sum.wrapping_add(weighed(byte, place));
        Ok(())
    }

    fn count(&self) -> usize {
        self.bytes.count()
    }

    fn limit(&self) -> usize {
        self.bytes.limit()
    }
}
