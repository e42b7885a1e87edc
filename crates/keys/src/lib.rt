// Keys: when two mean the same, where a key first came, and keys that ascend.
#![tactic(auto)]

pub mod bank;
pub mod key;
pub mod numbers;
pub mod order;
pub mod run;

pub use bank::{Bank, find, place_of};
pub use key::{Key, Sought};
pub use numbers::{Numbered, Numbers, numbers_ascend};
pub use order::OrderedKey;
pub use run::{AscendingRun, ascends};
