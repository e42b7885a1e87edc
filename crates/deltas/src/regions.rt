// Regions: what they are told apart by, and where they first came.
ghost use Rattle.std.specs.Prelude.{◌≡◌, ◌+◌, ◌≤◌, List, ◌++◌, map, length, take, Decides};
ghost use Rattle.format.specs.declared.Coordinate.{Coordinate};
ghost use Rattle.keys.specs.Places.{place};
ghost use Rattle.deltas.specs.Regions.{has_peak, kept, GoesOn, region_sameness, held, regions_of};

use format::Coordinate;
use keys::{Bank, Key, Sought, find};
use memory::Span;

// Whether a coordinate has a peak.
pub fn peaks(c: &Coordinate) -> bool
    ensures { result ≡ has_peak c.now }
{
    c.peak != 0
}

// Writes the coordinates that have a peak behind the filled ones, and answers how many are filled then. The list is lent, and not a
// `Vec`: nothing is allocated.
pub fn put_kept(list: &mut [Coordinate], filled: usize, from: &[Coordinate]) -> usize
    requires { filled + length (kept from.now) ≤ length list.old }
    ensures count { result ≡ filled + length (kept from.now) }
    ensures after { take result list.new ≡ take filled list.old ++ kept from.now }
{
    // What is counted is the answer, how many are filled; with `enumerate` the last count would be carried out of the loop by hand.
    let mut end = filled;
    for c in from {
        if !peaks(c) {
            continue;
        }
        list[end] = *c;
        end += 1;
    }
    end
}

// Whether two coordinates are the same.
fn same_coordinate(a: &Coordinate, b: &Coordinate) -> bool
    ensures { Decides result (a.now ≡ b.now) }
{
    a.axis == b.axis && a.start == b.start && a.peak == b.peak && a.end == b.end
}

// What follows a region's first coordinate, where that is this one.
fn after_first<'a>(region: &'a [Coordinate], c: &Coordinate) -> Option<&'a [Coordinate]>
    ensures { GoesOn region.now c.now result }
{
    if region.is_empty() {
        return None;
    }
    if !same_coordinate(&region[0], c) {
        return None;
    }
    Some(&region[1..])
}

// Whether two held regions are the same. A walk, in which each field is compared by itself.
fn same_held(known: &[Coordinate], other: &[Coordinate]) -> bool
    ensures { Decides result (known.now ≡ other.now) }
{
    if known.len() != other.len() {
        return false;
    }
    let mut rest = known;
    for c in other {
        let Some(more) = after_first(rest, c) else {
            return false;
        };
        rest = more;
    }
    rest.is_empty()
}

// Whether a held region is that of these coordinates, zero peaks dropped. A walk, as in `same_held`.
fn same_kept(known: &[Coordinate], given: &[Coordinate]) -> bool
    ensures { Decides result (known.now ≡ kept given.now) }
{
    let mut rest = known;
    for c in given {
        if !peaks(c) {
            continue;
        }
        let Some(more) = after_first(rest, c) else {
            return false;
        };
        rest = more;
    }
    rest.is_empty()
}

// A region that the job holds: the coordinates as they stand.
#[derive(Clone, Copy)]
pub struct HeldRegion<'a> {
    pub coordinates: &'a [Coordinate],
}

impl<'a> Key for HeldRegion<'a> {
    ghost Meaning = { List Coordinate };

    ghost meaning = { λ k. k.coordinates.now };

    ghost sameness = { region_sameness };

    fn same(&self, other: &HeldRegion<'a>) -> bool {
        same_held(self.coordinates, other.coordinates)
    }
}

// A region that is handed in: the coordinates without those of zero peak.
#[derive(Clone, Copy)]
pub struct GivenRegion<'a> {
    pub coordinates: &'a [Coordinate],
}

impl<'a, 'b> Sought<HeldRegion<'a>> for GivenRegion<'b> {
    ghost stands = { λ g. held (kept g.coordinates.now) };

    fn is(&self, key: &HeldRegion<'a>) -> bool {
        same_kept(key.coordinates, self.coordinates)
    }
}

// The regions that a job holds.
#[derive(Clone, Copy)]
pub struct HeldRegions<'a> {
    pub coordinates: &'a [Coordinate],
    pub regions: &'a [Span],
}

impl<'a> Bank for HeldRegions<'a> {
    type Key = HeldRegion<'a>;

    ghost keys = { λ b. map held (regions_of b.coordinates.now b.regions.now) };

    fn len(&self) -> usize {
        self.regions.len()
    }

    fn key_at(&self, i: usize) -> HeldRegion<'a> {
        HeldRegion {
            coordinates: self.regions[i].of(self.coordinates),
        }
    }
}

impl HeldRegions<'_> {
    // The first place of the region that is handed in, among those that the job holds.
    pub fn find(&self, given: &[Coordinate]) -> Option<usize>
        ensures { result ≡ place region_sameness (regions_of self.now.coordinates.now self.now.regions.now) (kept given.now) }
    {
        find(self, &GivenRegion { coordinates: given })
    }
}
