// Delta sets as they are handed in: numbers of any kind, parts, and the regions of the parts.
#![tactic(auto)]

pub mod number;
mod parts;
mod regions;

pub use number::{F2Dot14, Number};
pub use parts::Part;
