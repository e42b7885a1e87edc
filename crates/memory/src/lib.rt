// A job's working memory: its records, how far they are filled, and the test that they fit together.
#![tactic(auto)]

pub mod fit;
pub mod memory;
pub mod records;
pub mod refusal;

pub use fit::fits;
pub use memory::{Counts, Filled, Mark, Memory};
pub use records::{
    Component, DeltaSet, Entry, NO_VARIATION_INDEX, Pair, Span, TemporaryDeltaSetId, VariationIndex,
};
pub use refusal::Refusal;
