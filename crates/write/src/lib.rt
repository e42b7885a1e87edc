// Values that stand for bytes, and how their bytes go into a sink.
#![tactic(auto)]

pub mod numbers;
pub mod parts;
pub mod uint24;
pub mod write;

pub use parts::Bytes;
pub use uint24::Uint24;
pub use write::{FontWrite, put_all, write_each};
