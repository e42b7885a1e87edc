// A job, and the token of an open composite: plain numbers.
use memory::{Component, Counts, Mark, Pair, Refusal};

pub mod calls;

// A job under way. It is plain numbers, and does not hold its memory: that is lent anew to every call.
#[derive(Drop)]
pub struct Job {
    number: u32,
    counts: Counts,
    mark: Option<Mark>,
}

// A composite that was begun. It must be spent, by `close` or by `cancel`.
pub struct OpenComposite {
    job: u32,
    composite: u32,
}

// A token that was not spent, and why.
pub struct Kept {
    pub token: OpenComposite,
    pub refusal: Refusal,
}

// A component as it is handed in: with its axis values.
pub type VarComponent<'a> = Component<&'a [Pair]>;
