// Sinks: where bytes go.
#![tactic(auto)]

pub mod buffer;
pub mod checksum;
pub mod counter;
pub mod sink;

pub use buffer::Buffer;
pub use checksum::Checksum;
pub use counter::{ByteCounter, Counter, LONGEST};
pub use sink::{Full, Sink};
