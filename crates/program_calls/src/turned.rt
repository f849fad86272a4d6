use tect_ids::Answer;

/// Whether a command came to its end.
#[derive(Drop)]
pub enum Turned {
    Going,
    Done(Answer),
}
