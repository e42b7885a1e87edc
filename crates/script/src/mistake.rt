// Why a script cannot be read.
use std::alloc::{AllocError, AllocFailed};
use std::fmt;

// Where a word stands, or one is missing. Lines and columns count from 1, columns in bytes.
#[derive(Clone, Copy)]
pub struct Place {
    pub line: usize,
    pub column: usize,
}

// Where a script cannot be read, and what was expected there.
#[derive(Clone, Copy)]
pub struct Mistake {
    pub place: Place,
    pub expected: &'static str,
}

impl fmt::Display for Mistake {
    fn fmt<W: fmt::Write>(&self, f: &mut fmt::Formatter<W>) -> fmt::Result {
        let Place { line, column } = self.place;
        let expected = self.expected;
        write!(f, "{line}:{column}: expected {expected}")
    }
}

#[derive(Clone, Copy)]
pub enum Unread {
    Mistake(Mistake),
    // No memory is left.
    Memory,
}

impl From<AllocError> for Unread {
    fn from(_e: AllocError) -> Unread {
        Unread::Memory
    }
}

impl<T: Drop> From<AllocFailed<T>> for Unread {
    fn from(_e: AllocFailed<T>) -> Unread {
        Unread::Memory
    }
}
