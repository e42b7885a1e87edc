// The test of each kind of record.
ghost use Rattle.std.specs.Prelude.{Decides};
ghost use Rattle.std.specs.List.{AllByRecursion};
ghost use Rattle.memory.specs.Fit.{RegionFits, EntryFits, SetFits, ComponentFits, AxesFit, IdsKnown, Known, Within};

use crate::records::{
    Component, DeltaSet, Entry, NO_VARIATION_INDEX, Pair, Span, TemporaryDeltaSetId,
};
use format::Coordinate;
use keys::numbers_ascend;

// Whether each span lies within so many records.
pub fn spans_within(spans: &[Span], filled: usize) -> bool
    ensures { Decides result (AllByRecursion (Within filled) spans.now) }
{
    spans.iter().all(|s| s.within(filled))
}

// Whether each region has no more than 65,535 axes and lies within the coordinates, and its axis numbers strictly ascend.
pub fn regions_fit(regions: &[Span], coordinates: &[Coordinate]) -> bool
    ensures { Decides result (AllByRecursion (RegionFits coordinates.now) regions.now) }
{
    regions.iter().all(|r| {
        r.count <= u16::MAX as u32
            && r.within(coordinates.len())
            && numbers_ascend(r.of(coordinates))
    })
}

// Whether the region of each entry is one of so many, and its values begin within so many.
pub fn entries_fit(entries: &[Entry], regions: usize, values: usize) -> bool
    ensures { Decides result (AllByRecursion (EntryFits regions values) entries.now) }
{
    entries.iter().all(|e| (e.region as usize) < regions && e.place as usize <= values)
}

// Whether a set's entries lie within the list, their region numbers strictly ascend, and the values of each lie within so many.
fn set_fits(set: &DeltaSet, entries: &[Entry], values: usize) -> bool
    ensures { Decides result (SetFits entries.now values set.now) }
{
    let own = set.entries.of(entries);
    set.entries.within(entries.len())
        && numbers_ascend(own)
        && own
            .iter()
            .all(|e| e.place as u64 + set.tuple_len as u64 <= values as u64)
}

// Whether each set fits.
pub fn sets_fit(sets: &[DeltaSet], entries: &[Entry], values: usize) -> bool
    ensures { Decides result (AllByRecursion (SetFits entries.now values) sets.now) }
{
    sets.iter().all(|s| set_fits(s, entries, values))
}

// Whether an id is the sentinel or the place of a set.
pub fn known(id: TemporaryDeltaSetId, sets: usize) -> bool
    ensures { Decides result (Known sets id) }
{
    id.0 == NO_VARIATION_INDEX || (id.0 as usize) < sets
}

impl<A> Component<A> {
    // Whether the ids of its two variations, where they are present, are known.
    pub fn ids_known(&self, sets: usize) -> bool
        ensures { Decides result (IdsKnown sets self.now) }
    {
        self.axis_values_var.is_none_or(|id| known(id, sets))
            && self.transform_var.is_none_or(|id| known(id, sets))
    }
}

// Whether the axis values of a component lie within the pairs, and their axis numbers strictly ascend.
fn axes_fit(axes: Span, pairs: &[Pair]) -> bool
    ensures { Decides result (AxesFit pairs.now axes) }
{
    axes.within(pairs.len()) && numbers_ascend(axes.of(pairs))
}

// Whether a component's gid is one, its axis values fit, and its ids are known.
fn component_fits(component: &Component, pairs: &[Pair], sets: usize) -> bool
    ensures { Decides result (ComponentFits pairs.now sets component.now) }
{
    component.gid <= 0xFFFFFF
        && component.axes.is_none_or(|axes| axes_fit(axes, pairs))
        && component.ids_known(sets)
}

// Whether each component fits.
pub fn components_fit(components: &[Component], pairs: &[Pair], sets: usize) -> bool
    ensures { Decides result (AllByRecursion (ComponentFits pairs.now sets) components.now) }
{
    components.iter().all(|c| component_fits(c, pairs, sets))
}
