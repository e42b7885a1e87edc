// A job's lists, and how far they are filled. The names of the nine lists stand in three records: one over `&mut [T]`, `&[T]` and
// `u32` would take an associated type with parameters, which the language does not have.
use crate::records::{Component, DeltaSet, Entry, Pair, Span};
use format::Coordinate;

// Nine lists of records that the caller lends to every call. Nothing is allocated, so a record names others by a span or a place.
#[derive(Drop)]
pub struct Memory<'a> {
    pub coordinates: &'a mut [Coordinate],
    pub regions: &'a mut [Span],
    pub values: &'a mut [i32],
    pub entries: &'a mut [Entry],
    pub sets: &'a mut [DeltaSet],
    pub pairs: &'a mut [Pair],
    pub components: &'a mut [Component],
    pub composites: &'a mut [Span],
    pub axis_lists: &'a mut [Span],
}

// How many records of each list are filled. What lies past them is free.
#[derive(Clone, Copy, PartialEq, Eq, Default, Debug)]
pub struct Counts {
    pub coordinates: u32,
    pub regions: u32,
    pub values: u32,
    pub entries: u32,
    pub sets: u32,
    pub pairs: u32,
    pub components: u32,
    pub composites: u32,
    pub axis_lists: u32,
}

// Where the open composite was begun: the counts of components and of pairs then.
#[derive(Clone, Copy, PartialEq, Eq, Debug)]
pub struct Mark {
    pub components: u32,
    pub pairs: u32,
}

// The filled part of a memory, to read.
#[derive(Clone, Copy)]
pub struct Filled<'a> {
    pub coordinates: &'a [Coordinate],
    pub regions: &'a [Span],
    pub values: &'a [i32],
    pub entries: &'a [Entry],
    pub sets: &'a [DeltaSet],
    pub pairs: &'a [Pair],
    pub components: &'a [Component],
    pub composites: &'a [Span],
    pub axis_lists: &'a [Span],
}
