// Deltas packed into runs.
ghost use Rattle.std.specs.Prelude.{◌≡◌, ◌+◌, ◌-◌, ◌*◌, ◌≤◌, length};
ghost use Rattle.sink.specs.Meaning.{WhileRoom};
ghost use Rattle.format.specs.Packed.{control, packed, Holds, bytes as value_bytes};
ghost use Rattle.encode.specs.Lengths.{measured};
ghost use Rattle.encode.specs.Runs.{RunOf, run_bytes, width_size};

use crate::deltas::Deltas;
use crate::runs::{Run, Runs};
use format::Width;
use sink::{Full, Sink};
use write::{FontWrite, put_all};

// A list of deltas, written as packed runs.
#[derive(Clone, Copy)]
pub struct PackedDeltas<V>(pub V);

// A run without data: its deltas are zero.
const DELTAS_ARE_ZERO: u8 = 0x80;
// A run of 16-bit deltas; with the bit above, of 32-bit ones.
const DELTAS_ARE_WORDS: u8 = 0x40;

// In how many bytes a value of a width is written.
fn value_len(width: Width) -> usize
    ensures { result ≡ width_size width }
{
    width as usize
}

// Writes a value in the bytes of its width: the last of its four. Each length stands as a constant, so that no loop is left of it.
fn write_value<S: Sink>(width: Width, v: i32, sink: &mut S) -> Result<(), Full>
    requires { Holds width v }
    ensures { WhileRoom S.meaning sink.old (value_bytes width v) result sink.new }
{
    let all = v.to_be_bytes();
    match value_len(width) {
        1 => put_all(&all[3..], sink),
        2 => put_all(&all[2..], sink),
        4 => put_all(&all, sink),
        _ => Ok(()),
    }
}

impl Run {
    // Its control byte.
    fn control_byte(self) -> u8
        requires { (1 ≤ self.count) × (self.count ≤ 64) }
        ensures { result ≡ control self.width (self.count - 1) }
    {
        let marks = match self.width {
            Width::Zero => DELTAS_ARE_ZERO,
            Width::One => 0,
            Width::Two => DELTAS_ARE_WORDS,
            Width::Four => DELTAS_ARE_ZERO + DELTAS_ARE_WORDS,
        };
        marks + (self.count - 1) as u8
    }

    // How many bytes it takes.
    fn packed_len(self) -> usize
        requires { self.count ≤ 64 }
        ensures { result ≡ 1 + self.count * width_size self.width }
    {
        1 + self.count * value_len(self.width)
    }

    // Writes it: its control byte, and its values.
    fn write<V: Deltas, S: Sink>(self, values: &V, sink: &mut S) -> Result<(), Full>
        requires { RunOf (V.deltas values.now) self }
        ensures { WhileRoom S.meaning sink.old (run_bytes self (V.deltas values.now)) result sink.new }
    {
        self.control_byte().write_while_room(sink)?;
        // A loop by place, as the values may lie scattered, and as a proof learns nothing of what a
        // closure writes through `sink`.
        for i in self.place..self.place + self.count {
            write_value(self.width, values.delta_at(i), sink)?;
        }
        Ok(())
    }
}

impl<V: Deltas> PackedDeltas<V> {
    // How many bytes the packing takes, counted run by run; where no number of the machine says it, the greatest one.
    pub fn measure(&self) -> usize
        ensures { result ≡ measured (length (packed (V.deltas self.now.0))) }
    {
        Runs::new(&self.0).fold(0usize, |total, run| total.saturating_add(run.packed_len()))
    }
}

impl<V: Deltas> FontWrite for PackedDeltas<V> {
    ghost bytes = { λ p. packed (V.Deltas.deltas p.0) };

    fn write_while_room<S: Sink>(&self, sink: &mut S) -> Result<(), Full> {
        for run in Runs::new(&self.0) {
            run.write(&self.0, sink)?;
        }
        Ok(())
    }
}
