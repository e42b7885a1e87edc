// Scripts: a job's calls as text, one a line, read before any of them is run.
#![tactic(auto)]

pub mod call;
mod line;
pub mod mistake;
mod word;

pub use call::{Call, Deltas, Id, Line, Script, Stroke};
pub use line::read;
pub use mistake::{Mistake, Place, Unread};
