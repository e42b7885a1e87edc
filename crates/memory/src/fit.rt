// The test of number 1: whether a job's counts and mark fit the memory.
ghost use Rattle.std.specs.Prelude.{Decides};
ghost use Rattle.memory.specs.Fit.{Fits};
ghost use Rattle.memory.specs.Lists.{lists};

use crate::memory::{Counts, Mark, Memory};

pub mod groups;
pub mod kinds;
pub mod whole;

// Whether the filled records fit together and lie within the memory. Counts and mark come as the two plain values that a job has: a
// record of both would be taken apart here, where the counts say what is filled and the mark is tested against that.
pub fn fits(counts: &Counts, mark: Option<Mark>, mem: &Memory<'_>) -> bool
    ensures { Decides result (Fits counts.now mark (lists mem.now)) }
{
    mem.counted(counts) && mem.filled(counts).sound(mark)
}
