// The calls of a script.
use deltas::Part;
use format::Coordinate;
use memory::{Component, Pair, Span};

// A delta set's call: its parts, and the coordinates and values of all of them, in turn, each a span of the script's lists.
#[derive(Clone, Copy)]
pub struct Deltas {
    pub parts: Span,
    pub coordinates: Span,
    pub values: Span,
}

// A temporary id as a script names it.
#[derive(Clone, Copy)]
pub enum Id {
    // By its number; 0xFFFFFFFF is no variation.
    Number(u32),
    // The one that the call of this line was answered, a place in the script's lines.
    Of(usize),
}

// A component's call. Its axis values are a span of the script's pairs.
pub type Stroke = Component<Span, Id>;

#[derive(Clone, Copy)]
pub enum Call {
    Deltas(Deltas),
    Begin,
    Component(Stroke),
    Close,
    Cancel,
}

// A call, the number of its line, and the name that the line gives to its answer, if any.
#[derive(Clone, Copy)]
pub struct Line<'a> {
    pub number: usize,
    pub name: Option<&'a str>,
    pub call: Call,
}

// A job's calls in turn, what they are handed, and the bytes of its coverage and of its conditions, where the script gives them. What
// is handed lies in four lists of the script's, so that a call is copied as the plain numbers that it is.
#[derive(Drop)]
pub struct Script<'a> {
    pub job: u32,
    pub lines: Vec<Line<'a>>,
    pub parts: Vec<Part>,
    pub coordinates: Vec<Coordinate>,
    pub values: Vec<i32>,
    pub pairs: Vec<Pair>,
    pub coverage: Option<Vec<u8>>,
    pub conditions: Option<Vec<u8>>,
}
