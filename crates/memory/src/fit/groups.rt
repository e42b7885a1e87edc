// Groups of delta sets.
ghost use Rattle.std.specs.Prelude.{◌≡◌, ℕ, List, map, Decides};
ghost use Rattle.keys.specs.Lent.{lent};
ghost use Rattle.keys.specs.Sameness.{lists, numbers};
ghost use Rattle.memory.specs.Groups.{GroupsFit, like, region_lists, set_regions};
ghost use Rattle.memory.specs.Lists.{part};

use crate::records::{DeltaSet, Entry};
use keys::{Bank, Key, find};

// The most groups, and the most sets of a group.
const MOST: usize = u16::MAX as usize;

// The entries of a set, told apart by their region numbers.
#[derive(Clone, Copy)]
pub struct RegionList<'a> {
    pub entries: &'a [Entry],
}

impl Key for RegionList<'_> {
    ghost Meaning = { List ℕ };

    ghost meaning = { λ k. map (λ e. e.region) k.entries.now };

    ghost sameness = { lists numbers };

    // Lists of different lengths are told apart at once, however much they share.
    fn same(&self, other: &Self) -> bool {
        if self.entries.len() != other.entries.len() {
            return false;
        }
        let regions = self.entries.iter().map(|e| e.region);
        regions.eq(other.entries.iter().map(|e| e.region))
    }
}

// The lists of region numbers of delta sets.
#[derive(Clone, Copy)]
pub struct SetRegions<'a> {
    pub entries: &'a [Entry],
    pub sets: &'a [DeltaSet],
}

impl<'a> Bank for SetRegions<'a> {
    type Key = RegionList<'a>;

    ghost keys = { λ b. map (λ s. record { entries = lent (part s.entries b.entries.now) }) b.sets.now };

    fn len(&self) -> usize {
        self.sets.len()
    }

    fn key_at(&self, i: usize) -> RegionList<'a> {
        self.key_of(&self.sets[i])
    }
}

impl<'a> SetRegions<'a> {
    // The region numbers of a set.
    fn key_of(&self, set: &DeltaSet) -> RegionList<'a>
        ensures { map (λ e. e.region) result.entries.now ≡ set_regions self.now.entries.now set.now }
    {
        RegionList {
            entries: set.entries.of(self.entries),
        }
    }

    // How many sets have these region numbers.
    fn like(&self, key: &RegionList<'_>) -> usize
        ensures { result ≡ like (map (λ e. e.region) key.now.entries.now) (region_lists self.now.entries.now self.now.sets.now) }
    {
        let keys = self.sets.iter().map(|s| self.key_of(s));
        keys.filter(|k| k.same(key)).count()
    }

    // Whether there are no more than 65,535 groups of no more than 65,535 sets each. Each set looks for the first one of its
    // group from the front, where it mostly stands; the sets of a group are counted at its first.
    pub fn groups_fit(&self) -> bool
        ensures { Decides result (GroupsFit self.now.entries.now self.now.sets.now) }
    {
        if self.sets.len() <= MOST {
            return true;
        }
        let mut groups: usize = 0;
        for (i, set) in self.sets.iter().enumerate() {
            let key = self.key_of(set);
            if find(self, &key) != Some(i) {
                continue;
            }
            groups += 1;
            if groups > MOST || self.like(&key) > MOST {
                return false;
            }
        }
        true
    }
}
