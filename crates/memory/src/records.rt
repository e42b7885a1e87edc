// The records of a job's working memory.
ghost use Rattle.std.specs.Prelude.{◌≡◌, Decides};
ghost use Rattle.memory.specs.Fit.{Within};
ghost use Rattle.memory.specs.Lists.{part};

use format::Transform;
use keys::Numbered;

// The sentinel "no variation", of temporary ids and of variation indices.
pub const NO_VARIATION_INDEX: u32 = 0xFFFFFFFF;

// The place of a delta set in the job's list of sets, or the sentinel.
#[derive(Clone, Copy, PartialEq, Eq, Debug)]
pub struct TemporaryDeltaSetId(pub u32);

// Where a delta set stands in the table, its slot: outer * 65536 + inner, or the sentinel. Never a temporary id.
#[derive(Clone, Copy, PartialEq, Eq, Debug)]
pub struct VariationIndex(pub u32);

// A part of another list: of coordinates, entries, pairs or components.
#[derive(Clone, Copy, PartialEq, Eq, Debug)]
pub struct Span {
    pub place: u32,
    pub count: u32,
}

impl Span {
    // Whether it lies within so many records.
    pub fn within(self, filled: usize) -> bool
        ensures { Decides result (Within filled self) }
    {
        self.place as u64 + self.count as u64 <= filled as u64
    }

    // The part of a list that it stands for, as much as there is of it.
    pub fn of<T>(self, xs: &[T]) -> &[T]
        ensures { result.now ≡ part self xs.now }
    {
        let rest = &xs[(self.place as usize).min(xs.len())..];
        &rest[..(self.count as usize).min(rest.len())]
    }
}

// A tuple of a delta set: its region's number, and where its values stand.
#[derive(Clone, Copy, PartialEq, Eq, Debug)]
pub struct Entry {
    pub region: u16,
    pub place: u32,
}

// An entry goes by its region.
impl Numbered for Entry {
    ghost number = { λ e. e.region };

    fn number(&self) -> u16 {
        self.region
    }
}

// A delta set: its entries, how many values each tuple has, and its slot, 0 until the job is built.
#[derive(Clone, Copy, PartialEq, Eq, Debug)]
pub struct DeltaSet {
    pub entries: Span,
    pub tuple_len: u32,
    pub slot: VariationIndex,
}

// An axis and its value (2.14).
#[derive(Clone, Copy, PartialEq, Eq, Debug)]
pub struct Pair {
    pub axis: u16,
    pub value: i16,
}

// A pair goes by its axis.
impl Numbered for Pair {
    ghost number = { λ p. p.axis };

    fn number(&self) -> u16 {
        self.axis
    }
}

// A component. Its axis values are a part of the list of pairs and its two variations go by temporary ids, where it is not said
// otherwise.
#[derive(Clone, Copy, PartialEq, Eq, Debug, Drop)]
pub struct Component<A = Span, V = TemporaryDeltaSetId> {
    pub reset_unspecified_axes: bool,
    pub gid: u32,
    pub condition: Option<u32>,
    pub axes: Option<A>,
    pub axis_values_var: Option<V>,
    pub transform_var: Option<V>,
    pub transform: Transform,
}
