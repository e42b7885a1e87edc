// Numbers and lists of deltas in the shortest form that the format has for them.
#![tactic(auto)]

pub mod deltas;
pub mod packed;
pub mod runs;
pub mod uint32var;

pub use deltas::Deltas;
pub use packed::PackedDeltas;
pub use runs::{Run, Runs, next_run_len};
pub use uint32var::Uint32Var;
