// What can be written to a sink.
ghost use Rattle.std.specs.Prelude.{ℕ, List};
ghost use Rattle.sink.specs.Meaning.{WhileRoom};
ghost use Rattle.std.specs.List.{flat_map};

use sink::{Full, Sink};

pub trait FontWrite {
    // The bytes that the value stands for.
    ghost bytes: { Self → List ℕ };

    // Writes the value's bytes as long as the sink has room: all of them, or at a refusal as many of the first as there
    // was room for.
    fn write_while_room<S: Sink>(&self, sink: &mut S) -> Result<(), Full>
        ensures { WhileRoom S.meaning sink.old (bytes self.now) result sink.new };
}

// Feeds the bytes one after the other, as long as there is room: what `write_each` does at `u8`, with the bytes themselves in its clause.
pub fn put_all<S: Sink>(all: &[u8], sink: &mut S) -> Result<(), Full>
    ensures { WhileRoom S.meaning sink.old all.now result sink.new }
{
    for b in all {
        sink.put(*b)?;
    }
    Ok(())
}

// Writes the values one after the other, as long as there is room.
pub fn write_each<T: FontWrite, S: Sink>(values: &[T], sink: &mut S) -> Result<(), Full>
    ensures { WhileRoom S.meaning sink.old (flat_map T.bytes values.now) result sink.new }
{
    for v in values {
        v.write_while_room(sink)?;
    }
    Ok(())
}
