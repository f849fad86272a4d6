use tect_calls::Freed;
use tect_ids::Answer;

/// Holds that are to be released, at most two, before a command gives the answer that it has come to.
#[derive(Drop)]
pub struct Releasing {
    pub first: Freed,
    pub second: Option<Freed>,
    pub answer: Answer,
}
