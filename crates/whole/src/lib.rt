// What people ask of a value: to be written whole or not at all, its length, its checksum, its bytes in a slice.
#![tactic(auto)]

ghost use Rattle.std.specs.Prelude.{◌≡◌, ◌<◌, ◌↔◌, length, IfOk, IsErrOf, MatchResult};
ghost use Rattle.sink.specs.Meaning.{Whole};
ghost use Rattle.whole.specs.Asked.{countable, Enters, Encodes};

pub mod error;

pub use error::ToVecError;
use sink::{Buffer, Checksum, Counter, Full, Sink};
use std::alloc::Global;
use write::FontWrite;

// Counts as many bytes as a number of the machine can say.
type Measure = Counter<{ usize::MAX }>;

// Writes the value whole, or not at all: it measures first, compares with the room, and only then feeds.
pub fn write_into<T: FontWrite, S: Sink>(value: &T, sink: &mut S) -> Result<(), Full>
    ensures { Whole S.meaning sink.old (T.bytes value.now) result sink.new }
{
    let room = sink.limit() - sink.count();
    if length_of(value)? > room {
        return Err(Full);
    }
    value.write_while_room(sink)
}

// How many bytes a value takes; refused where no number of the machine can say.
pub fn length_of<T: FontWrite>(value: &T) -> Result<usize, Full>
    ensures { MatchResult result (λ n. n ≡ length (T.bytes value.now)) (λ _. countable < length (T.bytes value.now)) }
{
    let mut measure = Measure::new();
    value.write_while_room(&mut measure)?;
    Ok(measure.count())
}

// What the table directory of a font says of a table's bytes.
#[derive(Clone, Copy, PartialEq, Eq, Debug)]
pub struct DirectoryEntry {
    pub checksum: u32,
    pub length: u32,
}

// The checksum and the length of a value's bytes; refused where they are more than a table may have.
pub fn directory_entry<T: FontWrite>(value: &T) -> Result<DirectoryEntry, Full>
    ensures { Enters (T.bytes value.now) result }
{
    let mut sum = Checksum::new();
    write_into(value, &mut sum)?;
    Ok(DirectoryEntry {
        checksum: sum.value(),
        length: sum.count() as u32,
    })
}

// Writes a value to the start of a slice, and says how many bytes that took.
pub fn write_to_slice<T: FontWrite>(value: &T, out: &mut [u8]) -> Result<usize, Full>
    ensures { Encodes out.old (T.bytes value.now) result out.new }
{
    let mut buffer = Buffer::new(out);
    write_into(value, &mut buffer)?;
    Ok(buffer.count())
}

// The bytes of a value. Too long where no number of the machine can say how many they are, and only there; whether memory
// suffices is left open.
pub fn to_vec<T: FontWrite>(heap: Global, value: &T) -> Result<Vec<u8>, ToVecError>
    ensures bytes { IfOk result (λ v. v.items ≡ T.bytes value.now) }
    ensures too_long { IsErrOf result ToVecError.TooLong ↔ (countable < length (T.bytes value.now)) }
{
    let mut out = vec![in heap; 0u8; length_of(value)?]?;
    write_to_slice(value, &mut out).unwrap();
    Ok(out)
}
