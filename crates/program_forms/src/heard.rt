/// Whether a command went on at a reply.
#[derive(Clone, Copy, Debug, PartialEq, Eq)]
pub enum Heard {
    /// It went on, and its actor kept what the reply told.
    Whole,
    /// It went on, but for want of memory its actor kept of what the reply told only what it has to keep.
    Unkept,
    /// It did not go on, for want of memory, and it fails next.
    Left,
}
