use tect_ids::Place;

/// It is told of each commit of a race: with `inside` false before the place's lock is taken, with `inside` true while
/// the lock is kept and the commit is done, and with `inside` false after the lock was given back.
pub trait Gate {
    /// The worker is inside a commit at that place, or is not. It has no answer.
    fn pass(&self, worker: u32, place: Place, inside: bool);
}

/// The gate that does nothing.
#[derive(Clone, Copy, Debug, PartialEq, Eq)]
pub struct OpenGate;

impl Gate for OpenGate {
    fn pass(&self, _worker: u32, _place: Place, _inside: bool) {}
}
