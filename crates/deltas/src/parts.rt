// The parts of a delta set that is handed in, and how they lie on its coordinates and values.
ghost use Rattle.std.specs.Prelude.{◌≡◌, length, Decides};
ghost use Rattle.std.specs.List.{AllByRecursion};
ghost use Rattle.deltas.specs.Parts.{AddUp, Level, Ascends, axes_total, tuple_len as first_len, cuts};

use format::Coordinate;
use keys::numbers_ascend;

// One region and its tuple: so many of the coordinates, and so many of the values.
#[derive(Clone, Copy)]
pub struct Part {
    pub axes: u32,
    pub values: u32,
}

// Whether the parts' counts add up to what is there.
pub fn add_up(parts: &[Part], axes: usize, values: usize) -> bool
    ensures { Decides result (AddUp parts.now axes values) }
{
    let mut a = axes;
    let mut v = values;
    for p in parts {
        if p.axes as usize > a {
            return false;
        }
        if p.values as usize > v {
            return false;
        }
        a -= p.axes as usize;
        v -= p.values as usize;
    }
    a == 0 && v == 0
}

// The first part's value count, 0 where there is no part.
pub fn tuple_len(parts: &[Part]) -> u32
    ensures { result ≡ first_len parts.now }
{
    parts.first().map_or(0, |p| p.values)
}

// Whether all parts have as many values.
pub fn level(parts: &[Part]) -> bool
    ensures { Decides result (Level parts.now) }
{
    let tuple_len = tuple_len(parts);
    parts.iter().all(|p| p.values == tuple_len)
}

// Whether the axis numbers of each part strictly ascend.
pub fn parts_ascend(parts: &[Part], coordinates: &[Coordinate]) -> bool
    requires { axes_total parts.now ≡ length coordinates.now }
    ensures { Decides result (AllByRecursion Ascends (cuts parts.now coordinates.now)) }
{
    // The rest is cut off part by part: in a chain, a closure would have to carry it and change what it captures.
    let mut rest = coordinates;
    for p in parts {
        let (own, more) = rest.split_at(p.axes as usize);
        if !numbers_ascend(own) {
            return false;
        }
        rest = more;
    }
    true
}
