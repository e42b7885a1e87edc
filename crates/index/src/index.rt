// An INDEX over any bank of items.
ghost use Rattle.std.specs.Prelude.{◌≡◌, ◌+◌, ◌<◌, ◌≤◌, length, MatchResult};
ghost use Rattle.std.specs.List.{flat_map};
ghost use Rattle.sink.specs.Meaning.{WhileRoom};
ghost use Rattle.write.specs.Bytes.{be};
ghost use Rattle.format.specs.Index.{concat, offsets, offset_size, index};
ghost use Rattle.sink.specs.Kinds.{longest};
ghost use Rattle.encode.specs.Lengths.{measured};
ghost use Rattle.index.specs.Measures.{short_index, index_length, Measures};

use crate::items::Items;
use sink::{Full, LONGEST, Sink};
use write::{FontWrite, put_all};

// Refusal 13: the bytes would be more than a table may have.
// A type of its own, as no call refuses by 13 and by another number.
#[derive(Clone, Copy, PartialEq, Eq, Debug)]
pub struct TooLong;

impl TooLong {
    // The refusal's number. A method, whose name says more than `u8::from` would.
    pub fn number(self) -> u8
        ensures { result ≡ 13 }
    {
        13
    }
}

// How many items an INDEX has, and how many bytes they have.
#[derive(Clone, Copy)]
struct Measure {
    count: u32,
    data_len: u32,
}

// A bank whose INDEX a table may hold, with what was measured of it.
#[derive(Drop)]
struct Measured<'a, B: Items> {
    bank: &'a B,
    measure: Measure,
    ghost is: { Measures (B.items bank.now) measure },
}

// The items of a bank as an INDEX. It is made by `from_items` alone, which sees to it that a table may hold it; where it may not, it
// stands for no bytes (`short_index`). The type does not say so by a ghost field: that would ask `B: Items` of each type that holds
// one, and take `Clone` from banks that are not `Copy`.
#[derive(Clone, Copy)]
pub struct Index<B> {
    bank: B,
}

// A number of bytes, or of items, that a table may have.
fn short(n: usize) -> Result<u32, TooLong>
    ensures { MatchResult result (λ m. (m ≡ n) × (n ≤ longest)) (λ _. longest < n) }
{
    if n > LONGEST {
        return Err(TooLong);
    }
    Ok(n as u32)
}

// How many bytes the items have; where no number of the machine says it, the greatest one.
fn data_len<B: Items>(bank: &B) -> usize
    ensures { result ≡ measured (length (concat (B.items bank.now))) }
{
    (0..bank.count()).fold(0usize, |sum, i| sum.saturating_add(bank.item_len(i)))
}

impl Measure {
    // Measures a bank; refused where its INDEX would be too long.
    fn of<B: Items>(bank: &B) -> Result<Measure, TooLong>
        ensures { MatchResult result (λ m. Measures (B.items bank.now) m) (λ _. longest < length (index (B.items bank.now))) }
    {
        let m = Measure {
            count: short(bank.count())?,
            data_len: short(data_len(bank))?,
        };
        short(m.index_len())?;
        Ok(m)
    }

    // In how many bytes each offset is written.
    fn offset_bytes(self) -> u8
        ensures { result ≡ offset_size (1 + self.data_len) }
    {
        match 1 + self.data_len as usize {
            0..=0xFF => 1,
            0x100..=0xFFFF => 2,
            0x10000..=0xFFFFFF => 3,
            _ => 4,
        }
    }

    // How long the INDEX is.
    fn index_len(self) -> usize
        ensures { result ≡ index_length self.count self.data_len }
    {
        if self.count == 0 {
            return 4;
        }
        5 + (self.count as usize + 1) * self.offset_bytes() as usize + self.data_len as usize
    }
}

// Writes an offset in so many bytes.
fn write_offset<S: Sink>(size: u8, offset: u32, sink: &mut S) -> Result<(), Full>
    requires { size ≤ 4 }
    ensures { WhileRoom S.meaning sink.old (be size offset) result sink.new }
{
    let all = offset.to_be_bytes();
    put_all(&all[4 - size as usize..], sink)
}

// Writes where each item begins, and where the last one ends, counted from 1.
fn write_offsets<B: Items, S: Sink>(bank: &B, size: u8, sink: &mut S) -> Result<(), Full>
    requires { (size ≤ 4) × (length (concat (B.items bank.now)) ≤ longest) }
    ensures { WhileRoom S.meaning sink.old (flat_map (be size) (offsets 1 (B.items bank.now))) result sink.new }
{
    let mut offset = 1u32;
    // A loop, since a proof learns nothing of what a closure writes through `sink`.
    for i in 0..bank.count() {
        write_offset(size, offset, sink)?;
        offset += bank.item_len(i) as u32;
    }
    write_offset(size, offset, sink)
}

// Writes the items end to end.
fn write_items<B: Items, S: Sink>(bank: &B, sink: &mut S) -> Result<(), Full>
    ensures { WhileRoom S.meaning sink.old (concat (B.items bank.now)) result sink.new }
{
    // A loop, as in `write_offsets`.
    for i in 0..bank.count() {
        bank.write_item(i, sink)?;
    }
    Ok(())
}

impl<'a, B: Items> Measured<'a, B> {
    // Measures a bank; refused where its INDEX would be too long.
    fn new(bank: &'a B) -> Result<Measured<'a, B>, TooLong>
        ensures { MatchResult result (λ m. (m.bank.now ≡ bank.now) × (length (index (B.items bank.now)) ≤ longest)) (λ _. longest < length (index (B.items bank.now))) }
    {
        let measure = Measure::of(bank)?;
        Ok(Measured { bank, measure })
    }

    // How long its INDEX is.
    fn len(&self) -> usize
        ensures { result ≡ length (index (B.items self.now.bank.now)) }
    {
        self.measure.index_len()
    }

    // Writes its INDEX.
    fn write<S: Sink>(&self, sink: &mut S) -> Result<(), Full>
        ensures { WhileRoom S.meaning sink.old (index (B.items self.now.bank.now)) result sink.new }
    {
        let count = self.measure.count;
        if count == 0 {
            return 0u32.write_while_room(sink);
        }
        let size = self.measure.offset_bytes();
        (count, size).write_while_room(sink)?;
        write_offsets(self.bank, size, sink)?;
        write_items(self.bank, sink)
    }
}

impl<B: Items> Index<B> {
    // The INDEX of a bank; refused where it would be too long for a table.
    pub fn from_items(bank: B) -> Result<Index<B>, TooLong>
    where
        B: Drop,
        ensures { MatchResult result (λ x. (x.bank ≡ bank) × (short_index (B.items x.bank) ≡ index (B.items bank))) (λ _. longest < length (index (B.items bank))) }
    {
        Measure::of(&bank)?;
        Ok(Index { bank })
    }

    // How many bytes it takes.
    pub fn measure(&self) -> usize
        ensures { result ≡ length (short_index (B.items self.now.bank)) }
    {
        Measured::new(&self.bank).map_or(0, |m| m.len())
    }
}

impl<B: Items> FontWrite for Index<B> {
    ghost bytes = { λ x. short_index (B.Items.items x.bank) };

    fn write_while_room<S: Sink>(&self, sink: &mut S) -> Result<(), Full> {
        match Measured::new(&self.bank) {
            Ok(m) => m.write(sink),
            Err(TooLong) => Ok(()),
        }
    }
}
