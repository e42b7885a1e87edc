// An INDEX: a count, an offset size, offsets from 1, and the bytes of the items end to end.
#![tactic(auto)]

pub mod index;
pub mod items;

pub use index::{Index, TooLong};
pub use items::{ByteStrings, Items};
