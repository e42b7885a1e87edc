// What the bytes of a variable composite table (`VARC`) mean. The definitions stand in specs/, the plain records that they speak of
// here, and the laws are the contracts of small functions.
#![tactic(auto)]

ghost use Rattle.std.specs.Prelude.{◌≡◌, []};
ghost use Rattle.format.specs.Component.{transform_of};
ghost use Rattle.format.specs.Examples.{Examples};
ghost use Rattle.format.specs.Faults.{fault_number};
ghost use Rattle.format.specs.Laws.{NumbersReadBack, PackedReadsBack, IndexReadsBack, ComponentsReadBack, TableReadsBack, TablesTellApart};

// One axis of a region: where it begins to act, where it acts in full, where it ends (2.14).
#[derive(Clone, Copy, PartialEq, Eq, Debug)]
pub struct Coordinate {
    pub axis: u16,
    pub start: i16,
    pub peak: i16,
    pub end: i16,
}

// How many bytes each value of a run of packed values takes.
#[derive(Clone, Copy, PartialEq, Eq, Debug)]
pub enum Width {
    Zero = 0,
    One = 1,
    Two = 2,
    Four = 4,
}

// The part of a reader that met a fault.
#[derive(Clone, Copy, PartialEq, Eq, Debug)]
pub enum Layer {
    Table,
    Store,
    Index,
    Record,
    Values,
}

// What is at fault, by its number.
#[derive(Clone, Copy, PartialEq, Eq, Debug)]
pub enum FaultKind {
    // Bytes end inside a field.
    Cut = 20,
    // An offset points past the table, or is 0 where none may be.
    Past = 21,
    // A wrong version, format, offset size, first number byte or INDEX offset, or values that the regions do not divide.
    Wrong = 22,
    // A run passes the count due.
    LongRun = 23,
    // No such composite, component, axis list, slot or region.
    Missing = 24,
}

impl FaultKind {
    // The fault's number.
    pub fn number(self) -> u8
        ensures { result ≡ fault_number self }
    {
        self as u8
    }
}

// Why a reader could not read on: what is at fault, its byte place from the table's start, and the layer that met it.
#[derive(Clone, Copy, PartialEq, Eq, Debug)]
pub struct Fault {
    pub kind: FaultKind,
    pub place: usize,
    pub layer: Layer,
}

// The nine numbers that place a component: translation and centre in font units, rotation and skew in half turns (4.12), scale
// (6.10). A record has each where it is present.
#[derive(Clone, Copy, PartialEq, Eq, Debug)]
pub struct Transform<T = Option<i16>> {
    pub translate_x: T,
    pub translate_y: T,
    pub rotation: T,
    pub scale_x: T,
    pub scale_y: T,
    pub skew_x: T,
    pub skew_y: T,
    pub center_x: T,
    pub center_y: T,
}

// Nothing is present. By hand: a derived default would be one of the settled numbers too, and theirs are not all zero.
impl Default for Transform {
    ghost is_default = { λ t. t ≡ transform_of [] };

    fn default() -> Transform {
        Transform {
            translate_x: None,
            translate_y: None,
            rotation: None,
            scale_x: None,
            scale_y: None,
            skew_x: None,
            skew_y: None,
            center_x: None,
            center_y: None,
        }
    }
}

// The same nine numbers, settled: what is absent has its default.
pub type SettledTransform = Transform<i16>;

// The worked examples hold.
pub fn examples_hold()
    ensures { Examples }
{}

// A number reads back, whatever follows it, from its shortest form and from each longer one.
pub fn numbers_read_back()
    ensures { NumbersReadBack }
{}

// Packed values read back: to the end of their bytes, and, whatever follows them, by their count.
pub fn packed_reads_back()
    ensures { PackedReadsBack }
{}

// Each item of an INDEX reads back, wherever it stands in a table; past the last there is none.
pub fn index_reads_back()
    ensures { IndexReadsBack }
{}

// A component's record reads back, whatever follows it.
pub fn components_read_back()
    ensures { ComponentsReadBack }
{}

// Each question about a table's bytes answers what the table was written from.
pub fn table_reads_back()
    ensures { TableReadsBack }
{}

// Tables of equal bytes hold the same composites, and the same delta set at each slot.
pub fn tables_tell_apart()
    ensures { TablesTellApart }
{}
