// A job's calls, one after the other, as a script has them.
#![tactic(auto)]

pub mod step;

pub use step::{OnOpen, Step};
