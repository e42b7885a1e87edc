// Which deltas go into one run.
ghost use Rattle.std.specs.Prelude.{◌≡◌, ◌+◌, ◌-◌, ◌^◌, ◌<◌, length, drop, pos, if◌then◌else◌, slice_index_or};
ghost use Rattle.std.specs.Iterator.{at_most};
ghost use Rattle.format.specs.Packed.{wide, next, is_narrow, is_zero, stops, next_run};
ghost use Rattle.encode.specs.Runs.{Walks};

use crate::deltas::Deltas;
use format::Width;

// The most values of a run: its control byte has six bits for their number.
const MAX_POINTS_PER_RUN: usize = 64;

// A run of values of one width, and where it begins.
#[derive(Clone, Copy)]
pub struct Run {
    pub place: usize,
    pub count: usize,
    pub width: Width,
}

// A walk over a list of deltas, run by run.
#[derive_where(Clone, Copy)]
pub struct Runs<'a, V> {
    values: &'a V,
    place: usize,
}

// The least width that holds a value. By comparisons: ranges in a `match` took up to twice as long.
fn width(v: i32) -> Width
    ensures { result ≡ wide v }
{
    if v == 0 {
        Width::Zero
    } else if -128 <= v && v <= 127 {
        Width::One
    } else if -32768 <= v && v <= 32767 {
        Width::Two
    } else {
        Width::Four
    }
}

// The least width that holds the value at a place. Here and below the values and a place come as two, and not as a walk: a run's end is
// looked for at places that the walk has not come to.
fn width_at<V: Deltas>(values: &V, i: usize) -> Width
    requires { i < length (V.deltas values.now) }
    ensures { result ≡ wide (slice_index_or (V.deltas values.now) i (pos 0)) }
{
    width(values.delta_at(i))
}

// Whether the values from a place on begin with a zero, or, where a narrow one is asked for, with a zero or a one-byte value.
fn begins<V: Deltas>(values: &V, i: usize, narrow: bool) -> bool
    ensures { result ≡ next (if narrow then is_narrow else is_zero) (drop i (V.deltas values.now)) }
{
    i < values.len()
        && match width_at(values, i) {
            Width::Zero => true,
            Width::One => narrow,
            Width::Two | Width::Four => false,
        }
}

// Whether a run of width `w` stops before the value at a place.
fn stops_at<V: Deltas>(w: Width, values: &V, i: usize) -> bool
    requires { (i + 1 < 2 ^ 64) × (i < length (V.deltas values.now)) }
    ensures { result ≡ stops w (wide (slice_index_or (V.deltas values.now) i (pos 0))) (drop (i + 1) (V.deltas values.now)) }
{
    match (w, width_at(values, i)) {
        (Width::One, Width::Zero) => begins(values, i + 1, false),
        (Width::Two, Width::One) => begins(values, i + 1, true),
        (w, v) => v != w,
    }
}

// The run that begins at a place: how many values it takes, and in which width; at the end none, of width zero, as the definition
// `next_run` has it.
pub fn next_run_len<V: Deltas>(values: &V, from: usize) -> (usize, Width)
    ensures { result ≡ next_run (drop from (V.deltas values.now)) }
{
    let len = values.len();
    if from >= len {
        return (0, Width::Zero);
    }
    let w = width_at(values, from);
    let others = (from + 1..len)
        .take(MAX_POINTS_PER_RUN - 1)
        .take_while(|i| !stops_at(w, values, *i))
        .count();
    (1 + others, w)
}

impl<'a, V: Deltas> Runs<'a, V> {
    // A walk from the first value on.
    pub fn new(values: &'a V) -> Runs<'a, V>
        ensures values { result.values.now ≡ values.now }
        ensures place { result.place ≡ 0 }
    {
        Runs { values, place: 0 }
    }
}

// Each step gives the run that begins here, and goes on to the place after it.
impl<'a, V: Deltas> Iterator for Runs<'a, V> {
    type Item = Run;

    ghost next_gives = { Walks V.deltas };

    ghost remaining = { λ s. at_most (length (V.deltas s.values.now) - s.place) };

    fn next(&mut self) -> Option<Run> {
        let place = self.place;
        if place >= self.values.len() {
            return None;
        }
        let (count, width) = next_run_len(self.values, place);
        self.place = place + count;
        Some(Run {
            place,
            count,
            width,
        })
    }
}
