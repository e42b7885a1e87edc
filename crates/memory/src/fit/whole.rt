// The whole test.
ghost use Rattle.std.specs.Prelude.{◌≡◌, IfSome, Decides};
ghost use Rattle.memory.specs.Fit.{Counted, Sound, MarkFits};
ghost use Rattle.memory.specs.Lists.{held, lists, seen};

use crate::fit::groups::SetRegions;
use crate::fit::kinds::{components_fit, entries_fit, regions_fit, sets_fit, spans_within};
use crate::memory::{Counts, Filled, Mark, Memory};

impl Memory<'_> {
    // Whether no count exceeds its list.
    pub fn counted(&self, n: &Counts) -> bool
        ensures { Decides result (Counted n.now (lists self.now)) }
    {
        n.coordinates as usize <= self.coordinates.len()
            && n.regions as usize <= self.regions.len()
            && n.values as usize <= self.values.len()
            && n.entries as usize <= self.entries.len()
            && n.sets as usize <= self.sets.len()
            && n.pairs as usize <= self.pairs.len()
            && n.components as usize <= self.components.len()
            && n.composites as usize <= self.composites.len()
            && n.axis_lists as usize <= self.axis_lists.len()
    }

    // The filled part.
    pub fn filled(&self, n: &Counts) -> Filled<'_>
        requires { Counted n.now (lists self.now) }
        ensures { seen result ≡ held n.now (lists self.now) }
    {
        Filled {
            coordinates: &self.coordinates[..n.coordinates as usize],
            regions: &self.regions[..n.regions as usize],
            values: &self.values[..n.values as usize],
            entries: &self.entries[..n.entries as usize],
            sets: &self.sets[..n.sets as usize],
            pairs: &self.pairs[..n.pairs as usize],
            components: &self.components[..n.components as usize],
            composites: &self.composites[..n.composites as usize],
            axis_lists: &self.axis_lists[..n.axis_lists as usize],
        }
    }
}

impl Filled<'_> {
    // Whether a composite is open where there is a mark, and the mark lies within what is filled.
    pub fn mark_fits(&self, mark: Option<Mark>) -> bool
        ensures { Decides result (IfSome mark (MarkFits (seen self.now))) }
    {
        mark.is_none_or(|m| {
            !self.composites.is_empty()
                && m.components as usize <= self.components.len()
                && m.pairs as usize <= self.pairs.len()
        })
    }

    // Whether the filled part is as it should be.
    pub fn sound(&self, mark: Option<Mark>) -> bool
        ensures { Decides result (Sound mark (seen self.now)) }
    {
        let set_regions = SetRegions {
            entries: self.entries,
            sets: self.sets,
        };
        self.regions.len() <= u16::MAX as usize
            && regions_fit(self.regions, self.coordinates)
            && entries_fit(self.entries, self.regions.len(), self.values.len())
            && sets_fit(self.sets, self.entries, self.values.len())
            && components_fit(self.components, self.pairs, self.sets.len())
            && spans_within(self.composites, self.components.len())
            && spans_within(self.axis_lists, self.pairs.len())
            && set_regions.groups_fit()
            && self.mark_fits(mark)
    }
}
