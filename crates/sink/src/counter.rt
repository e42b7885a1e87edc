// Counts the bytes that it takes, and keeps none.
ghost use Rattle.std.specs.Prelude.{◌≤◌};

pub mod feeding;

// A counter of at most LIMIT bytes.
#[derive(Clone, Copy)]
pub struct Counter<const LIMIT: usize> {
    bytes: usize,
    ghost ok: { bytes ≤ LIMIT },
}

// As many bytes as a table may have.
pub const LONGEST: usize = 268435455;

// Counts as many bytes as a table may have.
pub type ByteCounter = Counter<LONGEST>;
