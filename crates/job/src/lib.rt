// A job: deltas and composites gathered in memory that the caller lends.
#![tactic(auto)]

pub mod state;

pub use state::{Job, Kept, OpenComposite, VarComponent};
