// Why a call is refused.
ghost use Rattle.std.specs.Prelude.{◌≡◌};
ghost use Rattle.memory.specs.Refusals.{number};

use std::fmt;

#[derive(Clone, Copy, PartialEq, Eq, Debug)]
pub enum Refusal {
    // The job does not fit the memory.
    Memory = 1,
    // The parts' counts do not add up to what was handed in.
    PartCounts = 2,
    // Two parts differ in value count.
    TupleLengths = 3,
    // Axis numbers do not strictly ascend.
    AxisOrder = 4,
    // The parts' regions do not get strictly ascending numbers.
    RegionOrder = 5,
    // A list would need more records than its memory, or more than 16,777,216.
    NoRoom = 6,
    // A 65,536th region, axis of a region, group, or set of a group would arise.
    Limit = 7,
    // gid above 0xFFFFFF.
    GlyphId = 8,
    // An id is neither the sentinel nor that of a set.
    UnknownId = 9,
    // A composite is open.
    IsOpen = 10,
    // None is open, or the token is of another one.
    NotOpen = 11,
    // Coverage of fewer than 4 bytes.
    Coverage = 12,
    // The table would be longer than 268,435,455 bytes.
    TooLong = 13,
    // The sink can take fewer bytes than are needed.
    SinkFull = 14,
}

impl Refusal {
    // The refusal's number.
    pub fn number(self) -> u8
        ensures { result ≡ number self }
    {
        self as u8
    }
}

impl fmt::Display for Refusal {
    fn fmt<W: fmt::Write>(&self, f: &mut fmt::Formatter<W>) -> fmt::Result {
        f.write_str(match self {
            Refusal::Memory => "the job does not fit the memory",
            Refusal::PartCounts => "the parts' counts do not add up to what was handed in",
            Refusal::TupleLengths => "two parts differ in value count",
            Refusal::AxisOrder => "axis numbers do not strictly ascend",
            Refusal::RegionOrder => "the parts' regions do not get strictly ascending numbers",
            Refusal::NoRoom => "a list has no room for the records needed",
            Refusal::Limit =>
                "a 65,536th region, axis of a region, group or set of a group would arise",
            Refusal::GlyphId => "gid above 0xFFFFFF",
            Refusal::UnknownId => "an id is neither the sentinel nor that of a set",
            Refusal::IsOpen => "a composite is open",
            Refusal::NotOpen => "no composite is open, or another one",
            Refusal::Coverage => "coverage of fewer than 4 bytes",
            Refusal::TooLong => "the table would be longer than 268,435,455 bytes",
            Refusal::SinkFull => "the sink can take fewer bytes than are needed",
        })
    }
}
