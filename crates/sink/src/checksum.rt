// Sums the 32-bit words of the bytes that it takes, and keeps none.
use crate::counter::ByteCounter;

pub mod feeding;

#[derive(Clone, Copy)]
pub struct Checksum {
    bytes: ByteCounter,
    sum: u32,
}
